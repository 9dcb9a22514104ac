//! What is made of a version at the first request for it, and shared by later requests.
ghost use Rattle.std.specs.Prelude.{◌≡◌, IfOk, unwrap_or};
ghost use Rattle.status_pages.specs.Validity.{IsValidity};
ghost use Rattle.status_server.specs.Answers.{IsValidityIn};
ghost use Rattle.status_server.specs.Lists.{form_text, kept_text};
ghost use Rattle.status_server.specs.Versions.{IsUnused, KeepsIndex, KeepsList, kept_for, list_in, set_in, shown_in, version_of};
ghost use Rattle.vrps.specs.VrpSet.{listing};

use crate::list_forms::{ListForm, ListTexts, written_list};
use bytes::Bytes;
use prefixes::Route;
use status_pages::Validity;
use std::alloc::{AllocError, Global};
use std::fmt::{self, Debug};
use vrps::{OriginIndex, Serial, VrpSet};

/// What is made of the current version: its VRPs in each format, and its route index. Each is made at the first request and shared by later
/// ones.
///
/// Each call gets the current version: its serial and its set, or `None`. What was made of a version with another serial is dropped first. `Err`
/// always means out of memory. It does not change what later calls return.
#[derive(Drop)]
pub struct VersionCache {
    alloc: Global,
    /// The serial of the version.
    serial: Option<u32>,
    lists: ListTexts,
    index: Option<OriginIndex>,
}

/// The serial of the version.
impl Debug for VersionCache {
    fn fmt<W: fmt::Write>(&self, f: &mut fmt::Formatter<W>) -> fmt::Result {
        write!(f, "VersionCache({:?})", self.serial)
    }
}

impl VersionCache {
    /// Creates an empty cache: nothing was made of a version yet.
    pub fn new(alloc: Global) -> VersionCache
        ensures { IsUnused result }
    {
        VersionCache {
            alloc,
            serial: None,
            lists: ListTexts::new(),
            index: None,
        }
    }

    /// Drops what was made of a version with another serial than that of `version`. If `version` is `None`, drops all that was made. If the serial is
    /// the same, nothing changes.
    pub fn drop_old(&mut self, version: Option<(Serial, &VrpSet)>)
        ensures { self.new ≡ kept_for (version_of version.entry) self.old }
    {
        let serial = match version {
            Some((Serial(serial), _set)) => Some(serial),
            None => None,
        };
        if self.serial != serial {
            self.serial = serial;
            self.lists = ListTexts::new();
            self.index = None;
        }
    }

    /// Returns the VRPs of `version` as text in a format. The text is made at the first call for a version, and kept. `Ok(None)`: `version` is
    /// `None`.
    /// `Err`: memory ran out. Before, it does what `drop_old` does.
    pub fn list(
        &mut self,
        version: Option<(Serial, &VrpSet)>,
        form: ListForm,
    ) -> Result<Option<Bytes>, AllocError>
        ensures list { IfOk result (λ list. list ≡ list_in form (version_of version.entry) self.old) }
        ensures keeps { shown_in (version_of version.entry) self.new ≡ shown_in (version_of version.entry) self.old }
    {
        self.drop_old(version);
        let Some((_serial, set)) = version else {
            return Ok(None);
        };
        Ok(Some(self.list_of(set, form)?))
    }

    /// The records of the set of the version in a form.
    fn list_of(&mut self, set: &VrpSet, form: ListForm) -> Result<Bytes, AllocError>
        ensures list { IfOk result (λ list. list ≡ unwrap_or (kept_text form self.old.lists) (form_text form (listing set.now))) }
        ensures keeps { KeepsList form set.now self.old self.new }
    {
        if let Some(text) = self.lists.text(form) {
            return text.clone();
        }
        let text = written_list(self.alloc, set, form)?;
        let kept = text.clone()?;
        self.lists.keep(form, kept);
        Ok(text)
    }

    /// Returns the validity of a route under `version`. The index over its set is made at the first call for a version, and kept. `Ok(None)`:
    /// `version` is `None`. `Err`: memory ran out. Before, it does what `drop_old` does.
    pub fn validity(
        &mut self,
        version: Option<(Serial, &VrpSet)>,
        route: &Route,
    ) -> Result<Option<Validity>, AllocError>
        ensures validity { IfOk result (λ validity. IsValidityIn route.now (set_in (version_of version.entry) self.old) validity) }
        ensures keeps { shown_in (version_of version.entry) self.new ≡ shown_in (version_of version.entry) self.old }
    {
        self.drop_old(version);
        let Some((_serial, set)) = version else {
            return Ok(None);
        };
        Ok(Some(self.validity_of(set, route)?))
    }

    /// The validity of a route under the set of the version.
    fn validity_of(&mut self, set: &VrpSet, route: &Route) -> Result<Validity, AllocError>
        ensures validity { IfOk result (IsValidity (unwrap_or self.old.index set.now) route.now) }
        ensures keeps { KeepsIndex set.now self.old self.new }
    {
        if let Some(index) = &self.index {
            return Validity::of_route(self.alloc, index, route);
        }
        let index = OriginIndex::over(self.alloc, set)?;
        let validity = Validity::of_route(self.alloc, &index, route);
        self.index = Some(index);
        validity
    }
}

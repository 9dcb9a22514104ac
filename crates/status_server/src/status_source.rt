//! The source of the status pages.
ghost use Rattle.std.specs.Prelude.{◌≡◌, IfOk};
ghost use Rattle.status_server.specs.Answers.{IsShown, IsShownValidity, Shown, nothing_shown, shown_list};

use crate::list_forms::ListForm;
use bytes::Bytes;
use prefixes::Route;
use status_pages::{Status, Validity};
use std::alloc::AllocError;

/// What the pages read of a cache. `Err` always means out of memory.
pub trait StatusSource {
    /// What it answers, if that is known.
    ghost shows: { Self → Shown } = { λ _. nothing_shown };

    /// Returns the current time, in seconds since 1970.
    fn now(&mut self) -> u64
        ensures { shows self.new ≡ shows self.old };

    /// Returns the current status of the cache.
    fn status(&mut self) -> Result<Status, AllocError>
        ensures shown { IfOk result (λ status. IsShown (shows self.old).status status) }
        ensures keeps { shows self.new ≡ shows self.old };

    /// Returns the VRPs of the served set, written in a format. `None`: no version is published yet. All requests for one version share the
    /// bytes.
    fn list(&mut self, form: ListForm) -> Result<Option<Bytes>, AllocError>
        ensures shown { IfOk result (λ list. IsShown (shown_list form (shows self.old)) list) }
        ensures keeps { shows self.new ≡ shows self.old };

    /// Returns the validity of a route under the served set. `None`: no version is published yet.
    fn validity(&mut self, route: &Route) -> Result<Option<Validity>, AllocError>
        ensures shown { IfOk result (λ validity. IsShownValidity (shows self.old).set route.now validity) }
        ensures keeps { shows self.new ≡ shows self.old };
}

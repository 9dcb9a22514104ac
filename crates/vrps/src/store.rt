//! Stores of versions.
ghost use Rattle.std.specs.Prelude.{◌≡◌, ℕ, IfOk, option_map};
ghost use Rattle.vrps.specs.Instance.{Instance, versions};
ghost use Rattle.vrps.specs.Store.{since};
ghost use Rattle.vrps.specs.Stores.{Publishes, newest, told_since};

use crate::{Change, Serial, VrpSet};
use std::alloc::AllocError;
use std::rc::Rc;

/// The result of publishing a set.
#[derive(Clone, Copy, Debug, PartialEq, Eq)]
pub enum Published {
    /// The set is a new version with this serial.
    New(Serial),
    /// The set equals the current version. Nothing is added, and the serial stays.
    Unchanged,
}

/// What a store knows of the time since a version with a given serial (RFC 8210 sections 8.2 to 8.4).
#[derive(Debug, Drop)]
pub enum Since {
    /// The change from that version to the current one. It is empty if that version is the current one.
    Change(Change),
    /// No kept version has that serial. A cache answers with a Cache Reset.
    Unknown,
    /// Nothing is published yet. A cache answers with an Error Report "No Data Available".
    NoData,
}

/// The versions that a cache publishes in one session (RFC 8210 sections 2 and 5.1). A store keeps the current version and some versions before
/// it.
pub trait VersionStore {
    /// This is the store after the sets of this instance were published; this many versions before
    /// the current one are kept.
    ghost holds: { ℕ → Instance → Self → Type 0 };

    /// The session ID (RFC 8210 section 5.1). All versions of the store have the same one.
    fn session(&self) -> u16
        ensures { (keep : ℕ) (i : Instance) → holds keep i self.now → result ≡ i.session };

    /// Publishes a set as the current version. `New`: it is a new version. Its serial is one above the latest one modulo 2^32, or the first
    /// serial of the session. If the store is full, its oldest version is dropped.
    /// `Unchanged`: the set equals the current version, and nothing changes. `AllocError`: no memory. Then nothing is published.
    fn publish(&mut self, set: Rc<VrpSet>) -> Result<Published, AllocError>
        ensures { (keep : ℕ) (i : Instance) → holds keep i self.old → Publishes (holds keep) result set.value i self.new };

    /// The serial and the set of the current version. `None`: nothing is published yet.
    fn current(&self) -> Option<(Serial, &Rc<VrpSet>)>
        ensures { (keep : ℕ) (i : Instance) → holds keep i self.now → option_map (λ found. record { serial = found.0.0; set = found.1.now.value }) result ≡ newest (versions i) };

    /// Returns what leads from the version with this serial to the current one. `Change`: the change, which is empty if this serial is the
    /// current one. `Unknown`: no kept version has this serial. `NoData`: nothing is published yet.
    /// `AllocError`: no memory for the change.
    fn since(&self, serial: Serial) -> Result<Since, AllocError>
        ensures { (keep : ℕ) (i : Instance) → holds keep i self.now → IfOk result (λ found. told_since found ≡ since keep serial.0 (versions i)) };
}

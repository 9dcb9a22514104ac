//! How many records change from one version to the next.
ghost use Rattle.std.specs.Prelude.{◌≡◌, ℕ, IfOk, option_map};
ghost use Rattle.rtr_daemon.specs.Serving.{empty_instance, kept_versions};
ghost use Rattle.vrps.specs.Instance.{Instance};
ghost use Rattle.vrps.specs.NewestSteps.{newest_step};

use std::alloc::{AllocError, Global};
use vrps::{Change, VersionLog, VersionStore};

/// The most versions before the current one that are kept.
const MOST_KEPT: u32 = 65_536;

/// A store of versions that can be created empty, and that keeps the change from the version before to the current one.
pub trait StepStore: VersionStore {
    /// Creates a store without versions, for the session ID `session`. Its first version gets the serial `start`.
    /// `keep` is the number of versions before the current one that it keeps. Below 1 it is 1, above 65,536 it is 65,536.
    /// `Err`: out of memory.
    fn empty(alloc: Global, session: u16, start: u32, keep: u32) -> Result<Self, AllocError>
        ensures { IfOk result (λ store. (session0 : ℕ) → Self.holds (kept_versions keep) (empty_instance session session0 start) store) };

    /// The change from the version before to the current one. `None`: there is no version before the current one.
    fn newest_step(&self) -> Option<&Change>
        ensures { (keep : ℕ) (i : Instance) → Self.holds keep i self.now → option_map (λ step. step.now) result ≡ newest_step keep i.sets };
}

impl StepStore for VersionLog {
    fn empty(alloc: Global, session: u16, start: u32, keep: u32) -> Result<VersionLog, AllocError> {
        VersionLog::new(alloc, session, start, keep.min(MOST_KEPT).max(1))
    }

    fn newest_step(&self) -> Option<&Change> {
        VersionLog::newest_step(self)
    }
}

/// How many records are announced and withdrawn.
#[derive(Clone, Copy, Debug, PartialEq, Eq)]
pub(crate) struct ChangeCounts {
    pub(crate) announced: u64,
    pub(crate) withdrawn: u64,
}

impl ChangeCounts {
    /// No record is announced or withdrawn.
    pub(crate) fn none() -> ChangeCounts {
        ChangeCounts {
            announced: 0,
            withdrawn: 0,
        }
    }

    /// The counts of a first version of this many records, or of the step to a later one.
    pub(crate) fn of_version(step: Option<&Change>, records: u64) -> ChangeCounts {
        match step {
            None => ChangeCounts {
                announced: records,
                withdrawn: 0,
            },
            Some(step) => ChangeCounts {
                announced: step.announce.len() as u64,
                withdrawn: step.withdraw.len() as u64,
            },
        }
    }
}

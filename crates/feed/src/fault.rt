//! Why the state of a route cannot be computed.
ghost use Rattle.std.specs.Prelude.{◌≡◌};

use points::PointFault;
use std::alloc::AllocError;
use thiserror::Error;
use vrps::SetFault;

/// Why the state of a route cannot be computed. Each kind has a fixed number, 1 to 3.
#[derive(Clone, Copy, Debug, PartialEq, Eq, Error)]
pub enum FeedFault {
    /// 1: the offer of this index (from 0) was refused, for this reason, which is not lack of memory. All offers before it were accepted.
    #[error("offer {0} is refused: {1} (fault 1)")]
    Point(usize, PointFault),
    /// 2: the accepted offers give more than 16,777,215 different payloads.
    #[error("more than 16777215 different payloads are in use (fault 2)")]
    TooMany,
    /// 3: out of memory.
    #[error("out of memory (fault 3)")]
    Memory,
}

impl FeedFault {
    ghost use Rattle.feed.specs.Feed.{feed_fault_number};
    ghost use Rattle.feed.specs.Loopback.{told_at};

    /// What the fault of the offer of this index is reported as.
    pub(crate) fn at(i: usize, fault: PointFault) -> FeedFault
        ensures { result ≡ told_at i fault }
    {
        match fault {
            PointFault::Memory => FeedFault::Memory,
            fault => FeedFault::Point(i, fault),
        }
    }

    /// The fixed number of the fault, 1 to 3.
    pub fn number(&self) -> u8
        ensures { result ≡ feed_fault_number self.now }
    {
        match self {
            FeedFault::Point(_, _) => 1,
            FeedFault::TooMany => 2,
            FeedFault::Memory => 3,
        }
    }
}

impl From<AllocError> for FeedFault {
    ghost use Rattle.feed.specs.declared.fault.FeedFault.TheVariants.{Memory};

    ghost from_gives = { λ _ fault. fault ≡ Memory };

    fn from(_error: AllocError) -> FeedFault {
        FeedFault::Memory
    }
}

impl From<SetFault> for FeedFault {
    ghost use Rattle.feed.specs.Loopback.{told_of_set};

    ghost from_gives = { λ refused fault. fault ≡ told_of_set refused };

    fn from(refused: SetFault) -> FeedFault {
        match refused {
            SetFault::TooMany => FeedFault::TooMany,
            SetFault::Memory => FeedFault::Memory,
        }
    }
}

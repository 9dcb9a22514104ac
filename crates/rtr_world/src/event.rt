//! The events of a world, and why an event is refused.
ghost use Rattle.std.specs.Prelude.{◌≡◌};

use rtr_pdu::Version;
use std::alloc::AllocError;
use thiserror::Error;
use vrps::VrpSet;

/// An event of a world: at its cache, or at one of its routers. Routers are numbered from 0.
#[derive(Debug, Drop)]
pub enum Event {
    /// The cache publishes a set as its next version. A set that is already current adds no version.
    Publish(VrpSet),
    /// The cache restarts as a new instance, and all connections end at the cache. `session` is its session in protocol version 1.
    /// `session0` is its session in protocol version 0. `start` is the serial of its first version.
    Restart {
        session: u16,
        session0: u16,
        start: u32,
    },
    /// An event at the router of this number.
    On {
        router: u16,
        event: SideEvent,
    },
}

/// An event at one router, its connection, or the bytes in transit. All counts are in bytes.
#[derive(Clone, Copy, Debug, PartialEq, Eq)]
pub enum SideEvent {
    /// The router restarts: a new router without data replaces it, and its connection is gone.
    RouterRestart,
    /// The router uses this protocol version from its next connection on.
    Speak(Version),
    /// A new connection is made. An older one is closed, and all its bytes in transit are lost.
    Connect,
    /// The router puts at most this many bytes on the wire to the cache. One event moves no more than the rest of one PDU.
    RouterSends(u64),
    /// At most this many bytes arrive at the cache.
    CacheGets(u64),
    /// The cache puts at most this many bytes on the wire to the router.
    CacheSends(u64),
    /// At most this many bytes arrive at the router.
    RouterGets(u64),
    /// The cache closes its side. At most this many of the bytes in transit to the router still arrive.
    Cut(u64),
    /// The cache sends a Serial Notify to the router, if that is possible now (RFC 8210 section 5.2).
    NotifyRouter,
    /// The router sends a query, if its link is idle.
    Ask,
    /// The router's clock advances to this second. A new router's clock is at 0, it never goes back, and no other event advances it.
    Tick(u64),
}

/// Why an event was refused. Each kind has a fixed number, 1 to 4.
#[derive(Clone, Copy, Debug, PartialEq, Eq, Error)]
pub enum WorldFault {
    /// An instance of the cache has, or had, this session in the same protocol version.
    #[error("an instance of the cache has, or had, this session in the same version of the protocol (fault 1)")]
    SessionUsed = 1,
    /// The new version would be 2^31 or more versions after one that is in use.
    /// In use is a version that a router holds, or that was current when a router connected.
    #[error("2^31 or more versions after one that is still in use (fault 2)")]
    TooManyVersions = 2,
    /// The world has no router of this number.
    #[error("no such router (fault 3)")]
    NoSuchRouter = 3,
    /// Out of memory.
    #[error("out of memory (fault 4)")]
    Memory = 4,
}

impl WorldFault {
    ghost use Rattle.rtr_world.specs.Events.{world_fault_number};

    /// The fixed number of the fault, 1 to 4.
    pub fn number(self) -> u8
        ensures { result ≡ world_fault_number self }
    {
        self as u8
    }
}

impl From<AllocError> for WorldFault {
    ghost use Rattle.rtr_world.specs.declared.event.WorldFault.TheVariants.{Memory};

    ghost from_gives = { λ _ fault. fault ≡ Memory };

    fn from(_error: AllocError) -> WorldFault {
        WorldFault::Memory
    }
}

/// Why a router did not catch up. Each kind has a fixed number, 1 to 3.
#[derive(Clone, Copy, Debug, PartialEq, Eq, Error)]
pub enum CatchFault {
    /// Out of memory.
    #[error("out of memory (fault 1)")]
    Memory = 1,
    /// The cache has published nothing.
    #[error("nothing is published (fault 2)")]
    NoData = 2,
    /// The world has no router of this number.
    #[error("no such router (fault 3)")]
    NoSuchRouter = 3,
}

impl CatchFault {
    ghost use Rattle.rtr_world.specs.Events.{catch_fault_number};

    /// The fixed number of the fault, 1 to 3.
    pub fn number(self) -> u8
        ensures { result ≡ catch_fault_number self }
    {
        self as u8
    }
}

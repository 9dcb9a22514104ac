//! What a call answers.
ghost use Rattle.std.specs.Prelude.{◌≡◌};
ghost use Rattle.rpkirtr_c.specs.Answers.{number};

/// What a call answers. The numbers are fixed, and none is given twice.
#[derive(Clone, Copy, Debug, PartialEq, Eq)]
pub enum CallStatus {
    /// The call did what it says.
    Done,
    /// The handle is empty: it was never made, or was freed.
    Empty,
    /// The handle is live: it has to be freed before another is made in it.
    Live,
    /// Out of memory. Nothing changed.
    NoMemory,
    /// A record whose prefix, maximum length or padding is not valid.
    BadRecord,
    /// A route whose prefix or padding is not valid, or whose IPv4 address is not followed by zeros.
    BadRoute,
    /// No version of the protocol.
    BadVersion,
    /// An index at or past the end, or more records than a set may have, or more connections than there are numbers, or a router that may hold none.
    OutOfRange,
    /// There is no connection, or it has ended.
    NotLinked,
    /// A query is outstanding.
    Busy,
    /// A payload that is not valid: its fault says why.
    BadPayload,
    /// Intervals that are not valid: a number says why.
    BadTiming,
    /// No connection of the cache has this number.
    NoConnection,
    /// Nothing is published.
    NoData,
    /// The number of versions to keep is 0, or above 65,536.
    BadKeep,
    /// A structure of another size than this header has it, or with padding that is not zero.
    BadStructure,
}

impl CallStatus {
    /// The number of the status in the C interface: from 0 for `Done` to 15 for `BadStructure`, in the order of the variants.
    pub fn number(self) -> i32
        ensures { result ≡ number self }
    {
        match self {
            CallStatus::Done => 0,
            CallStatus::Empty => 1,
            CallStatus::Live => 2,
            CallStatus::NoMemory => 3,
            CallStatus::BadRecord => 4,
            CallStatus::BadRoute => 5,
            CallStatus::BadVersion => 6,
            CallStatus::OutOfRange => 7,
            CallStatus::NotLinked => 8,
            CallStatus::Busy => 9,
            CallStatus::BadPayload => 10,
            CallStatus::BadTiming => 11,
            CallStatus::NoConnection => 12,
            CallStatus::NoData => 13,
            CallStatus::BadKeep => 14,
            CallStatus::BadStructure => 15,
        }
    }
}

//! What a status means, and the version, as texts for C.
ghost use Rattle.std.specs.Prelude.{◌≡◌, ◌<◌, length, codes, IfSome, IfNone};
ghost use Rattle.rpkirtr_c.specs.Answers.{number};
ghost use Rattle.rpkirtr_c.specs.Texts.{Means, in_room, meaning};
ghost use Rattle.rpkirtr_c.specs.declared.call_status.CallStatus.{CallStatus as Statuses};
ghost use Rattle.rpkirtr_c.specs.declared.call_status.CallStatus.TheVariants.{Done};

use crate::call_status::CallStatus;

/// The version of the release.
const VERSION: &[u8] = b"1.1.0";

/// The version of the header. It changes if a program that was compiled with an older header no longer works.
const ABI_VERSION: u32 = 0;

/// The bytes of a text and the zeros that follow it.
const ROOM: usize = 64;

/// A text of fewer than 64 bytes, followed by zeros.
#[repr(C)]
#[derive(Clone, Copy, Debug)]
pub struct CText {
    pub text: [u8; 64],
}

/// The text in its room.
pub(crate) fn in_room(text: &[u8]) -> CText
    requires { length text.now < 64 }
    ensures { result ≡ in_room text.now }
{
    let mut room = [0; ROOM];
    room[..text.len()].copy_from_slice(text);
    CText { text: room }
}

impl CallStatus {
    /// The status of this number, if there is one.
    fn of_number(code: i32) -> Option<CallStatus>
        ensures some { IfSome result (λ s. number s ≡ code) }
        ensures none { IfNone result ((s : Statuses) → ¬ (number s ≡ code)) }
    {
        match code {
            0 => Some(CallStatus::Done),
            1 => Some(CallStatus::Empty),
            2 => Some(CallStatus::Live),
            3 => Some(CallStatus::NoMemory),
            4 => Some(CallStatus::BadRecord),
            5 => Some(CallStatus::BadRoute),
            6 => Some(CallStatus::BadVersion),
            7 => Some(CallStatus::OutOfRange),
            8 => Some(CallStatus::NotLinked),
            9 => Some(CallStatus::Busy),
            10 => Some(CallStatus::BadPayload),
            11 => Some(CallStatus::BadTiming),
            12 => Some(CallStatus::NoConnection),
            13 => Some(CallStatus::NoData),
            14 => Some(CallStatus::BadKeep),
            15 => Some(CallStatus::BadStructure),
            _ => None,
        }
    }

    /// What it means.
    fn meaning(self) -> &'static [u8]
        ensures text { result.now ≡ meaning self }
        ensures short { length result.now < 64 }
    {
        match self {
            CallStatus::Done => b"the call succeeded",
            CallStatus::Empty => b"the handle is empty",
            CallStatus::Live => b"the handle is live and has to be freed first",
            CallStatus::NoMemory => b"out of memory",
            CallStatus::BadRecord => b"a malformed record",
            CallStatus::BadRoute => b"a malformed route",
            CallStatus::BadVersion => b"no such version of the protocol",
            CallStatus::OutOfRange => b"an index at or past the end, or too many records",
            CallStatus::NotLinked => b"no connection, or one that has ended",
            CallStatus::Busy => b"a query is outstanding",
            CallStatus::BadPayload => b"a malformed payload",
            CallStatus::BadTiming => b"intervals that are not valid",
            CallStatus::NoConnection => b"no connection has this number",
            CallStatus::NoData => b"nothing is published",
            CallStatus::BadKeep => b"no version to be kept, or too many",
            CallStatus::BadStructure => b"a structure of another size, or a malformed one",
        }
    }
}

/// Writes in English what a status means, by its number. A number without a status gives `no such status`. Returns the number of
/// `CallStatus::Done`.
#[unsafe(no_mangle)]
pub extern "C" fn rpkirtr_strerror(status: i32, text: &mut CText) -> i32
    ensures text { Means status text.new }
    ensures answer { result ≡ number Done }
{
    *text = match CallStatus::of_number(status) {
        None => in_room(b"no such status"),
        Some(status) => in_room(status.meaning()),
    };
    CallStatus::Done.number()
}

/// Writes the version of the release: `1.1.0`. Returns the number of `CallStatus::Done`.
#[unsafe(no_mangle)]
pub extern "C" fn rpkirtr_version(text: &mut CText) -> i32
    ensures text { text.new ≡ in_room (codes "1.1.0") }
    ensures answer { result ≡ number Done }
{
    *text = in_room(VERSION);
    CallStatus::Done.number()
}

/// Returns the version of the C header, 0. A program needs the one that it was compiled with.
#[unsafe(no_mangle)]
pub extern "C" fn rpkirtr_abi_version() -> u32
    ensures { result ≡ 0 }
{
    ABI_VERSION
}

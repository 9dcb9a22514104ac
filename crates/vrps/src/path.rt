//! The origin of a path.
ghost use Rattle.std.specs.Prelude.{◌≡◌};
ghost use Rattle.vrps.specs.Path.{last_of, origin_of_path, rightmost};

use thiserror::Error;

/// The type of an AS path segment (RFC 4271 section 4.3, RFC 5065 section 3).
#[derive(Clone, Copy, Debug, PartialEq, Eq)]
pub enum SegmentKind {
    /// AS_SEQUENCE.
    Sequence,
    /// AS_SET.
    Set,
    /// AS_CONFED_SEQUENCE.
    ConfedSequence,
    /// AS_CONFED_SET.
    ConfedSet,
}

/// A segment of an AS path, with its AS numbers in path order.
#[derive(Debug, Drop)]
pub struct Segment {
    /// The type of the segment.
    pub kind: SegmentKind,
    /// The AS numbers (32 bits each), in path order.
    pub numbers: Vec<u32>,
}

/// Why an AS path has no origin. The number of the fault is fixed.
#[derive(Clone, Copy, Debug, PartialEq, Eq, Error)]
pub enum PathFault {
    /// The final segment is an AS_SEQUENCE without an AS number.
    #[error("the final segment of the path is an AS_SEQUENCE without an AS number (fault 1)")]
    EmptySequence = 1,
}

impl PathFault {
    ghost use Rattle.vrps.specs.SetFaults.{path_fault_number};

    /// The number of the fault, as `Display` writes it: 1.
    pub fn number(self) -> u8
        ensures { result ≡ path_fault_number self }
    {
        self as u8
    }
}

/// The origin of an AS path that a speaker of the AS `own` received (RFC 6811 section 2). Only the final segment counts. It allocates no memory.
/// `Ok(Some(asn))`: the last number if it is an AS_SEQUENCE. It is `own` if it is a confederation segment, or if there is no segment.
/// `Ok(None)`: the origin is NONE, as the final segment is an AS_SET. `EmptySequence`: it is an AS_SEQUENCE without a number.
pub fn origin_of_path(segments: &[Segment], own: u32) -> Result<Option<u32>, PathFault>
    ensures { result ≡ origin_of_path segments.now own }
{
    let Some(last) = segments.last() else {
        return Ok(Some(own));
    };
    match last.kind {
        SegmentKind::Sequence => rightmost(&last.numbers),
        SegmentKind::Set => Ok(None),
        SegmentKind::ConfedSequence => Ok(Some(own)),
        SegmentKind::ConfedSet => Ok(Some(own)),
    }
}

/// The last number of a sequence.
fn rightmost(numbers: &[u32]) -> Result<Option<u32>, PathFault>
    ensures { result ≡ rightmost (last_of numbers.now) }
{
    match numbers.last() {
        Some(number) => Ok(Some(*number)),
        None => Err(PathFault::EmptySequence),
    }
}

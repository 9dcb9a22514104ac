//! Frames: two bytes, big-endian, that say how many bytes follow, and then these. So the bytes of a connection go over what carries
//! messages, as a queue or a serial line. A frame may begin and end anywhere in these bytes, also inside a PDU.
#![tactic(auto)]

ghost use Rattle.std.specs.Prelude.{◌<◌, ◌++◌, length, IfOk, IfSome, OnOk};
ghost use Rattle.std.specs.Int.{to_be_bytes, w16};
ghost use Rattle.std.specs.Io.KnownBytes.{Appends};

use std::alloc::Global;
use std::io::{self, Read, Write};
use thiserror::Error;

/// Why frames are not read on. A frame's place is the number of bytes before it.
#[derive(Debug, Drop, Error)]
pub enum FrameFault {
    /// Its length is 0.
    #[error("the frame at byte {place} is empty")]
    Empty {
        /// The place of the frame.
        place: u64,
    },
    /// The input ends within it.
    #[error("the frame at byte {place} is cut short: {came} of {wanted} bytes came")]
    CutShort {
        /// The place of the frame.
        place: u64,
        /// How many bytes of the length, or of what follows it, came.
        came: usize,
        /// How many there should be.
        wanted: usize,
    },
    /// The input failed.
    #[error("no frame can be read: {0}")]
    Unreadable(#[from] io::Error),
}

/// The frames of an input, one after the other.
#[derive(Debug, Drop)]
pub struct FrameReader<R> {
    alloc: Global,
    input: R,
    /// The place of the next frame.
    place: u64,
}

impl<R: Read> FrameReader<R> {
    /// The frames of this input, which begins with one.
    pub fn new(alloc: Global, input: R) -> FrameReader<R> {
        FrameReader {
            alloc,
            input,
            place: 0,
        }
    }

    /// The bytes of the next frame. There is none if the input ends behind a whole frame.
    pub fn read_frame(&mut self) -> Result<Option<Vec<u8>>, FrameFault>
        ensures { IfOk result (λ found. IfSome found (λ bytes. 0 < length bytes.items)) }
    {
        let place = self.place;
        let head = self.read_up_to(2)?;
        let wanted = match *head.as_slice() {
            [] => return Ok(None),
            [high, low] => usize::from(u16::from_be_bytes([high, low])),
            _ => {
                let came = head.len();
                return Err(FrameFault::CutShort {
                    place,
                    came,
                    wanted: 2,
                });
            }
        };
        if wanted == 0 {
            return Err(FrameFault::Empty { place });
        }
        let bytes = self.read_up_to(wanted)?;
        let came = bytes.len();
        if came < wanted {
            return Err(FrameFault::CutShort {
                place,
                came,
                wanted,
            });
        }
        self.place = place.saturating_add(2 + wanted as u64);
        Ok(Some(bytes))
    }

    /// This many bytes of the input, or fewer if it ends.
    fn read_up_to(&mut self, count: usize) -> io::Result<Vec<u8>> {
        let mut bytes = Vec::new(self.alloc);
        let input = self.input.by_ref();
        input.take(count as u64).read_to_end(&mut bytes)?;
        Ok(bytes)
    }
}

/// Writes these bytes as one frame, and sends it off.
pub fn write_frame<W: Write>(output: &mut W, bytes: &[u8]) -> io::Result<()>
    requires some { 0 < length bytes.now }
    requires fits { length bytes.now < 65536 }
    ensures { OnOk result (Appends (W.contents output.old) (W.contents output.new) (to_be_bytes w16 (length bytes.now) ++ bytes.now)) }
{
    let len = bytes.len() as u16;
    output.write_all(&len.to_be_bytes())?;
    output.write_all(bytes)?;
    output.flush()
}

//! What the streams of both ends share: their faults, and the loop that writes.
ghost use Rattle.std.specs.Prelude.{◌≡◌, ◌<◌, ◌≤◌, length, IfOk, IfErr};
ghost use Rattle.std.specs.Io.KnownBytes.{Appends};
ghost use Rattle.rtr_pdu.specs.Counted.{calls_of, device_of, failures_of, HasFailed};
ghost use Rattle.rtr_pdu.specs.Device.{GoesOutInPart};

use rtr_pdu::{Counted, WriteFailed};
use std::io::Write;
use thiserror::Error;

/// Why `serve_stream` or `fetch_stream` failed. The numbers are fixed.
#[derive(Clone, Copy, Debug, PartialEq, Eq, Error)]
pub enum StreamFault {
    /// A read returned an error of any kind.
    #[error("the reader failed (fault 1)")]
    ReadFailed = 1,
    /// A write returned an error of any kind, or accepted no bytes. Some of the pending bytes may have gone out.
    #[error("the writer failed (fault 2)")]
    WriteFailed = 2,
    /// No memory for a connection. Nothing was read or written.
    #[error("out of memory for a connection (fault 3)")]
    Memory = 3,
}

impl StreamFault {
    ghost use Rattle.rtr_ends.specs.Streams.{stream_fault_number};

    /// The number of the fault, as in its printed text: 1 to 3.
    pub fn number(self) -> u8
        ensures { result ≡ stream_fault_number self }
    {
        self as u8
    }
}

/// Writes all the bytes, in one call if the writer accepts them all.
pub(crate) fn write_bytes<W: Write>(
    bytes: &[u8],
    output: &mut Counted<W>,
) -> Result<(), WriteFailed>
    ensures ok { IfOk result (λ _. Appends (W.contents (device_of output.old)) (W.contents (device_of output.new)) bytes.now
        × (failures_of output.new ≡ failures_of output.old) × (0 < length bytes.now → calls_of output.old < calls_of output.new) × (calls_of output.new ≤ 18446744073709551615)) }
    ensures err { IfErr result (λ _. GoesOutInPart (W.contents (device_of output.old)) (W.contents (device_of output.new)) bytes.now
        × HasFailed output.old output.new) }
{
    let mut at = 0;
    while at < bytes.len() {
        match output.write(&bytes[at..]) {
            Ok(0) => return Err(WriteFailed),
            Ok(n) => at += n,
            Err(_) => return Err(WriteFailed),
        }
    }
    // The count is a u64: callers' loops end by it.
    let _calls = output.calls();
    Ok(())
}

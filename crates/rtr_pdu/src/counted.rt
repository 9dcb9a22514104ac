//! Readers and writers whose calls and failures are counted.
ghost use Rattle.std.specs.Prelude.{◌≡◌, ◌≤◌, ◌↔◌, IsTrue};

use std::io;
use std::io::{ErrorKind, Read, Result, Write};

/// A reader or a writer that counts its read or write calls, and how many of them failed.
/// After 2^64 - 1 calls the device is not called again: each further read or write returns an error and is not counted.
#[derive(Debug, Drop)]
pub struct Counted<D> {
    device: D,
    calls: u64,
    failures: u64,
    ghost at_most_calls: { failures ≤ calls },
}

/// The answer of a device that is spent.
fn spent() -> io::Error {
    io::Error::from(ErrorKind::Other)
}

impl<D> Counted<D> {
    ghost use Rattle.rtr_pdu.specs.Counted.{device_of, calls_of, failures_of, IsSpent};

    /// Wraps a reader or a writer. Both counts start at 0.
    pub fn new(device: D) -> Counted<D>
        ensures device { device_of result ≡ device }
        ensures calls { calls_of result ≡ 0 }
        ensures failures { failures_of result ≡ 0 }
    {
        Counted {
            device,
            calls: 0,
            failures: 0,
        }
    }

    /// The wrapped reader or writer. Reads and writes made directly through it, as `&TcpStream` permits, are not counted.
    pub fn device(&self) -> &D
        ensures { result.now ≡ device_of self.now }
    {
        &self.device
    }

    /// The number of read and write calls on the device. Flushes are not counted.
    pub fn calls(&self) -> u64
        ensures { result ≡ calls_of self.now }
    {
        self.calls
    }

    /// The number of read and write calls that failed: they returned an error, or wrote no byte of a nonempty buffer.
    pub fn failures(&self) -> u64
        ensures value { result ≡ failures_of self.now }
        ensures most { failures_of self.now ≤ calls_of self.now }
    {
        self.failures
    }

    /// Whether no call is left to count.
    fn is_spent(&self) -> bool
        ensures { IsTrue result ↔ IsSpent self.now }
    {
        self.calls == u64::MAX
    }
}

impl<D: Read> Read for Counted<D> {
    ghost use Rattle.std.specs.Prelude.{IsErr};
    ghost use Rattle.std.specs.Io.{ReadsAtMost};
    ghost use Rattle.std.specs.Io.KnownBytes.{ReadConsumes};
    ghost use Rattle.rtr_pdu.specs.Counted.{device_of, IsSpent, IsCounted, read_fails};

    ghost remaining = { λ c. D.remaining (device_of c) };

    /// Calls `read` of the device and counts the call. The call counts as failed if it returns an error.
    fn read(&mut self, buf: &mut [u8]) -> Result<usize>
        ensures bound { ReadsAtMost result buf.new }
        ensures bytes { ReadConsumes (D.remaining (device_of self.old)) (D.remaining (device_of self.new)) result buf.new }
        ensures counted { ¬ (IsSpent self.old) → IsCounted self.old self.new (read_fails result) }
        ensures spent { IsSpent self.old → IsErr result × (self.new ≡ self.old) }
    {
        if self.is_spent() {
            return Err(spent());
        }
        self.calls += 1;
        match self.device.read(buf) {
            Ok(n) => Ok(n),
            Err(e) => {
                self.failures += 1;
                Err(e)
            }
        }
    }
}

impl<D: Write> Write for Counted<D> {
    ghost use Rattle.std.specs.Prelude.{IsErr};
    ghost use Rattle.std.specs.Io.{WritesAtMost};
    ghost use Rattle.std.specs.Io.KnownBytes.{WriteAppends, Keeps};
    ghost use Rattle.rtr_pdu.specs.Counted.{device_of, calls_of, failures_of, IsSpent, IsCounted, write_fails};

    ghost contents = { λ c. D.contents (device_of c) };

    /// Calls `write` of the device and counts the call. The call counts as failed if it returns an error, or writes 0 bytes of a nonempty
    /// buffer.
    fn write(&mut self, buf: &[u8]) -> Result<usize>
        ensures bound { WritesAtMost result buf.now }
        ensures bytes { WriteAppends (D.contents (device_of self.old)) (D.contents (device_of self.new)) result buf.now }
        ensures counted { ¬ (IsSpent self.old) → IsCounted self.old self.new (write_fails result buf.now) }
        ensures spent { IsSpent self.old → IsErr result × (self.new ≡ self.old) }
    {
        if self.is_spent() {
            return Err(spent());
        }
        self.calls += 1;
        match self.device.write(buf) {
            Ok(n) => {
                if n == 0 && !buf.is_empty() {
                    self.failures += 1;
                }
                Ok(n)
            }
            Err(e) => {
                self.failures += 1;
                Err(e)
            }
        }
    }

    /// Calls `flush` of the device. The call is not counted.
    fn flush(&mut self) -> Result<()>
        ensures bytes { Keeps (D.contents (device_of self.old)) (D.contents (device_of self.new)) }
        ensures calls { calls_of self.new ≡ calls_of self.old }
        ensures failures { failures_of self.new ≡ failures_of self.old }
    {
        self.device.flush()
    }
}

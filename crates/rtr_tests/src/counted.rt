//! Counted readers and writers over a device that counts for itself which calls come to it: each call is handed on once, with all its
//! bytes, and counted once.
use rtr_pdu::{Counted, ReadFault, Unit, read_unit, write_unit};
use std::io;
use std::io::{ErrorKind, Read, Write};
use std::process::Abort;

/// A device that fails at its first call. Then it works, except at its second call as a writer, which accepts no byte.
#[derive(Drop)]
struct Recovering {
    reads: u8,
    writes: u8,
    flushes: u8,
    /// How many bytes came with the last call, or had room.
    asked: usize,
}

impl Recovering {
    fn new() -> Recovering {
        Recovering {
            reads: 0,
            writes: 0,
            flushes: 0,
            asked: 0,
        }
    }

    /// The calls that came: reads, writes and flushes.
    fn came(&self) -> (u8, u8, u8) {
        (self.reads, self.writes, self.flushes)
    }
}

impl Read for Recovering {
    fn read(&mut self, buf: &mut [u8]) -> io::Result<usize> {
        self.reads = self.reads.saturating_add(1);
        self.asked = buf.len();
        if self.reads == 1 {
            return Err(io::Error::from(ErrorKind::BrokenPipe));
        }
        match buf.first_mut() {
            Some(byte) if self.reads == 2 => {
                *byte = 0x01;
                Ok(1)
            }
            _ => Ok(0),
        }
    }
}

impl Write for Recovering {
    fn write(&mut self, buf: &[u8]) -> io::Result<usize> {
        self.writes = self.writes.saturating_add(1);
        self.asked = buf.len();
        match self.writes {
            1 => Err(io::Error::from(ErrorKind::BrokenPipe)),
            2 => Ok(0),
            _ => Ok(buf.len()),
        }
    }

    fn flush(&mut self) -> io::Result<()> {
        self.flushes = self.flushes.saturating_add(1);
        if self.flushes == 1 {
            return Err(io::Error::from(ErrorKind::BrokenPipe));
        }
        Ok(())
    }
}

/// A call of a counted device.
enum Call {
    Read,
    Write(&'static [u8]),
    Flush,
    ReadUnit,
    WriteUnit,
}

/// What a call has to do: the answer, of a read with what is at the front of the room then, or none if it fails. Then the calls that came
/// to the device, how many bytes were asked for or passed on with the last, and how many calls and failures were counted.
type Row = (Call, Option<(usize, u8)>, (u8, u8, u8), usize, (u64, u64));

const A_READ_IS_HANDED_ON_ONCE: &[Row] = &[
    (Call::Read, None, (1, 0, 0), 4, (1, 1)),
    (Call::Read, Some((1, 0x01)), (2, 0, 0), 4, (2, 1)),
    (Call::Read, Some((0, 0)), (3, 0, 0), 4, (3, 1)),
];

const A_WRITE_IS_HANDED_ON_ONCE: &[Row] = &[
    (Call::Write(&[1, 2, 3, 4]), None, (0, 1, 0), 4, (1, 1)),
    (
        Call::Write(&[1, 2, 3, 4]),
        Some((0, 0)),
        (0, 2, 0),
        4,
        (2, 2),
    ),
    (
        Call::Write(&[1, 2, 3, 4]),
        Some((4, 0)),
        (0, 3, 0),
        4,
        (3, 2),
    ),
    (Call::Write(&[]), Some((0, 0)), (0, 4, 0), 0, (4, 2)),
];

const A_FLUSH_IS_HANDED_ON_ONCE: &[Row] = &[
    (Call::Flush, None, (0, 0, 1), 0, (0, 0)),
    (Call::Flush, Some((0, 0)), (0, 0, 2), 0, (0, 0)),
];

const A_FAILED_UNIT_IS_NOT_READ_AGAIN: &[Row] = &[(Call::ReadUnit, None, (1, 0, 0), 8, (1, 1))];

const A_FAILED_UNIT_IS_NOT_WRITTEN_AGAIN: &[Row] = &[
    (Call::WriteUnit, None, (0, 1, 0), 8, (1, 1)),
    (Call::WriteUnit, None, (0, 2, 0), 8, (2, 2)),
    (Call::WriteUnit, Some((0, 0)), (0, 3, 0), 8, (3, 2)),
];

/// What a read answers, and what is at the front of the room then. The rest of the room is as it was.
fn read(device: &mut Counted<Recovering>) -> Option<(usize, u8)> {
    let mut room = [0u8; 4];
    let count = device.read(&mut room).ok()?;
    let [first, 0, 0, 0] = room else {
        return None;
    };
    Some((count, first))
}

/// The answer to a call.
fn answer(device: &mut Counted<Recovering>, call: &Call) -> Option<(usize, u8)> {
    match call {
        Call::Read => read(device),
        Call::Write(bytes) => match device.write(bytes) {
            Ok(count) => Some((count, 0)),
            Err(_) => None,
        },
        Call::Flush => match device.flush() {
            Ok(()) => Some((0, 0)),
            Err(_) => None,
        },
        Call::ReadUnit => match read_unit(device) {
            Err(ReadFault::ReadFailed) => None,
            _ => Some((0, 0)),
        },
        Call::WriteUnit => match write_unit(&Unit::ResetQuery, device) {
            Ok(()) => Some((0, 0)),
            Err(_) => None,
        },
    }
}

/// Makes calls of a new device, one after the other.
fn expect_counted<R: Abort>(rt: &R, rows: &[Row]) {
    let mut device = Counted::new(Recovering::new());
    for (call, want, came, asked, counted) in rows {
        assert!(rt; answer(&mut device, call) == *want);
        assert!(rt; device.device().came() == *came);
        assert!(rt; device.device().asked == *asked);
        assert!(rt; (device.calls(), device.failures()) == *counted);
    }
}

#[test]
fn each_call_is_handed_on_once(rt: HostRuntime) {
    expect_counted(&rt, A_READ_IS_HANDED_ON_ONCE);
    expect_counted(&rt, A_WRITE_IS_HANDED_ON_ONCE);
    expect_counted(&rt, A_FLUSH_IS_HANDED_ON_ONCE);
    expect_counted(&rt, A_FAILED_UNIT_IS_NOT_READ_AGAIN);
    expect_counted(&rt, A_FAILED_UNIT_IS_NOT_WRITTEN_AGAIN);
}

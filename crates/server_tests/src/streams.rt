//! Streams over memory: what comes from a cache, and what went to it.
ghost use Rattle.std.specs.Prelude.{Option, ℕ};
ghost use Rattle.rtr_server.specs.Streams.{IsWithin};

use rtr_server::{Progress, Stream};
use std::cell::RefCell;
use test_values::hex::{Bytes, bytes};

/// The bytes that went to a cache, on all connections of a test.
pub(crate) type Sent = RefCell<Bytes>;

/// What one call of a stream comes to that moves nothing.
#[derive(Clone, Copy)]
pub(crate) enum Bad {
    Wait,
    Interrupt,
    Fail,
    End,
}

/// What comes from a cache. This many bytes go at a call; one call, counted from 1, is bad. After the last byte it would block, or is at its
/// end.
#[derive(Drop)]
pub(crate) struct Script<'a> {
    pub(crate) input: Bytes,
    /// How many were read.
    pub(crate) place: usize,
    pub(crate) output: &'a Sent,
    pub(crate) size: usize,
    pub(crate) calls: u32,
    pub(crate) bad_call: u32,
    pub(crate) bad: Bad,
    pub(crate) stays_open: bool,
}

/// Counts a call. Whether it is the bad one.
fn is_bad(calls: &mut u32, bad_call: u32) -> bool {
    *calls = calls.saturating_add(1);
    *calls == bad_call
}

/// What a bad call comes to.
fn bad_progress(bad: &Bad) -> Progress
    ensures { (room : ℕ) → IsWithin room result }
{
    match bad {
        Bad::Wait => Progress::Waits,
        Bad::Interrupt => Progress::Interrupted,
        Bad::Fail => Progress::Failed,
        Bad::End => Progress::Bytes(0),
    }
}

impl<'a> Stream for Script<'a> {
    ghost remaining = { λ s. Option.None };

    ghost contents = { λ s. Option.None };

    ghost answers = { λ s. Option.None };

    fn read(&mut self, buf: &mut [u8]) -> Progress {
        if is_bad(&mut self.calls, self.bad_call) {
            return bad_progress(&self.bad);
        }
        let Some(rest) = self.input.as_slice().get(self.place..) else {
            return Progress::Failed;
        };
        if rest.is_empty() && self.stays_open {
            return Progress::Waits;
        }
        let count = self.size.min(buf.len()).min(rest.len());
        buf[..count].copy_from_slice(&rest[..count]);
        self.place = self.place.saturating_add(count);
        Progress::Bytes(count)
    }

    fn write(&mut self, buf: &[u8]) -> Progress {
        if is_bad(&mut self.calls, self.bad_call) {
            return bad_progress(&self.bad);
        }
        let count = self.size.min(buf.len());
        if add(self.output, &buf[..count]) {
            Progress::Bytes(count)
        } else {
            Progress::Failed
        }
    }
}

fn add(sent: &Sent, bytes: &[u8]) -> bool {
    match sent.try_borrow_mut() {
        Err(_) => false,
        Ok(mut sent) => sent.try_extend_from_slice(bytes).is_ok(),
    }
}

/// Whether what went to the cache has these bytes at this place.
pub(crate) fn has_at(sent: &Sent, at: usize, bytes: &[u8]) -> bool {
    match sent.try_borrow() {
        Err(_) => false,
        Ok(sent) => match sent.as_slice().get(at..) {
            Some(rest) => rest.starts_with(bytes),
            None => false,
        },
    }
}

/// Whether these bytes went to the cache, and no others.
pub(crate) fn is_all(sent: &Sent, bytes: &[u8]) -> bool {
    match sent.try_borrow() {
        Err(_) => false,
        Ok(sent) => sent.as_slice() == bytes,
    }
}

/// All bytes at once, and then it would block.
pub(crate) fn plain<'a>(text: &str, output: &'a Sent) -> Script<'a> {
    Script {
        input: bytes(text),
        place: 0,
        output,
        size: 4096,
        calls: 0,
        bad_call: 0,
        bad: Bad::Wait,
        stays_open: true,
    }
}

/// The first of these bytes, and then the cache closes the connection.
pub(crate) fn cut<'a>(text: &str, count: usize, output: &'a Sent) -> Script<'a> {
    let mut input = bytes(text);
    input.truncate(count);
    Script {
        input,
        stays_open: false,
        ..plain("", output)
    }
}

/// These bytes and as many zeros as there is room for, twelve at a call.
pub(crate) fn slow<'a>(text: &str, output: &'a Sent) -> Script<'a> {
    let mut input = bytes(text);
    for _zero in 0..256u32 {
        let _fits = input.try_push(0);
    }
    Script {
        input,
        size: 12,
        ..plain("", output)
    }
}

/// These bytes, five at a call, of which this call is bad.
pub(crate) fn with_bad<'a>(text: &str, bad_call: u32, bad: &Bad, output: &'a Sent) -> Script<'a> {
    Script {
        size: 5,
        bad_call,
        bad: *bad,
        ..plain(text, output)
    }
}

//! The parts of a log by themselves.
use log_output::{ClientLineLimit, LogBuffer};
use std::alloc::Global;

/// How many of 1,000 lines are let through at a moment.
fn passed(limit: &mut ClientLineLimit, millis: u64) -> u64 {
    let mut passed = 0;
    for _ in 0..1000u16 {
        if limit.admit(millis) {
            passed = u64::saturating_add(passed, 1);
        }
    }
    passed
}

/// Whether two lines more are suppressed, and reported after the window.
fn suppresses(limit: &mut ClientLineLimit) -> bool {
    !limit.admit(7)
        && !limit.admit(10_006)
        && limit.suppressed() == 2
        && limit.take_suppressed(10_006) == 0
        && limit.is_open(10_006)
        && !limit.is_open(10_007)
        && limit.take_suppressed(10_007) == 2
        && limit.take_suppressed(10_007) == 0
        && limit.admit(10_007)
}

/// The limit at both sides of each boundary: 1,000 lines in 10,000 milliseconds.
#[test]
fn a_window_lets_1000_lines_through(rt: HostRuntime) {
    let mut limit = ClientLineLimit::new();
    assert!(rt; !limit.is_open(0));
    assert!(rt; passed(&mut limit, 7) == 1000);
    assert!(rt; suppresses(&mut limit));
}

/// A line of 65,536 bytes.
fn long_line(alloc: Global) -> Option<Vec<u8>> {
    let Ok(mut line) = vec![in alloc; b'a'; 65_535] else {
        return None;
    };
    match line.push(b'\n') {
        Ok(()) => Some(line),
        Err(_) => None,
    }
}

/// Whether the line fits, and then not even a newline.
fn is_filled(buffer: &mut LogBuffer, line: &[u8]) -> bool {
    buffer.is_empty()
        && buffer.add_line(line)
        && !buffer.add_line(b"\n")
        && buffer.len() == 65_536
        && buffer.dropped() == 1
        && buffer.is_report_due()
        && !buffer.add_report(b"b\n")
}

/// Whether a report fits after a chunk is consumed, and a line after it.
fn is_consumed(buffer: &mut LogBuffer) -> bool {
    let count = buffer.chunk(4096).len();
    if count != 4096 {
        return false;
    }
    buffer.consume(count);
    !buffer.add_line(b"\n")
        && buffer.add_report(b"b\n")
        && !buffer.is_report_due()
        && buffer.add_line(b"c\n")
}

/// Whether what is given up after the rest of the long line is a line and a report.
fn is_given_up(buffer: &mut LogBuffer) -> bool {
    buffer.lose_line();
    buffer.give_up();
    buffer.len() == 61_440 && buffer.lost() == 4 && buffer.dropped() == 4 && buffer.is_report_due()
}

/// Whether all of it holds of a new buffer.
fn is_bounded(alloc: Global) -> bool {
    match (LogBuffer::new(alloc), long_line(alloc)) {
        (Ok(mut buffer), Some(line)) => {
            is_filled(&mut buffer, line.as_slice())
                && is_consumed(&mut buffer)
                && is_given_up(&mut buffer)
        }
        _ => false,
    }
}

#[test]
fn a_buffer_has_room_for_65536_bytes(rt: HostRuntime) {
    assert!(rt; is_bounded(rt.alloc()));
}

//! The report of dropped lines that waits among the bytes of a buffer.
ghost use Rattle.std.specs.Prelude.{◌≡◌};
ghost use Rattle.log_output.specs.Buffers.{lines_reported, report_behind, report_within, reported_within, reports_behind};

/// A pending report of dropped lines.
#[derive(Clone, Copy, Debug, PartialEq, Eq)]
pub struct WaitingReport {
    /// The number of dropped lines that it reports.
    pub lines: u64,
    /// The position of its last byte among the pending bytes, from 0.
    pub last: usize,
}

/// How many dropped lines the report reports.
pub(crate) fn lines_reported(report: Option<WaitingReport>) -> u64
    ensures { result ≡ lines_reported report }
{
    match report {
        None => 0,
        Some(waiting) => waiting.lines,
    }
}

/// How many dropped lines the report reports if it is among the first bytes.
pub(crate) fn reported_within(count: usize, report: Option<WaitingReport>) -> u64
    ensures { result ≡ reported_within count report }
{
    let Some(waiting) = report else {
        return 0;
    };
    if waiting.last < count {
        return waiting.lines;
    }
    0
}

/// The report without the first bytes. There is none if it is among them.
pub(crate) fn report_behind(count: usize, report: Option<WaitingReport>) -> Option<WaitingReport>
    ensures { result ≡ report_behind count report }
{
    let Some(waiting) = report else {
        return None;
    };
    if waiting.last < count {
        return None;
    }
    Some(WaitingReport {
        lines: waiting.lines,
        last: waiting.last - count,
    })
}

/// The report if it is among the first bytes.
pub(crate) fn report_within(count: usize, report: Option<WaitingReport>) -> Option<WaitingReport>
    ensures { result ≡ report_within count report }
{
    let Some(waiting) = report else {
        return None;
    };
    if waiting.last < count {
        return Some(waiting);
    }
    None
}

/// How many reports are not among the first bytes: one or none.
pub(crate) fn reports_behind(count: usize, report: Option<WaitingReport>) -> usize
    ensures { result ≡ reports_behind count report }
{
    let Some(waiting) = report else {
        return 0;
    };
    if waiting.last < count {
        return 0;
    }
    1
}

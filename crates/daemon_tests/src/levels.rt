//! The levels of the log. Their words and severities, as they are written, are in the lines of the log that `page_texts` prints.
use event_log::LogLevel;

/// Whether each word has its level, and another text has none.
fn are_read() -> bool {
    LogLevel::parse("error") == Some(LogLevel::Error)
        && LogLevel::parse("warning") == Some(LogLevel::Warning)
        && LogLevel::parse("notice") == Some(LogLevel::Notice)
        && LogLevel::parse("info") == Some(LogLevel::Info)
}

/// Whether none of these lines is the word of a level.
fn none_is_read(lines: &str) -> bool {
    for word in lines.lines() {
        if LogLevel::parse(word).is_some() {
            return false;
        }
    }
    true
}

/// Texts that are no words of levels. The first is empty.
const NONE: &str = "\nError\nerrors\ndebug";

/// The most severe is the least, and each has its severity (RFC 5424 section 6.2.1).
#[test]
fn levels_are_read(rt: HostRuntime) {
    assert!(rt; are_read());
    assert!(rt; none_is_read(NONE));
    assert!(rt; LogLevel::Error < LogLevel::Warning && LogLevel::Warning < LogLevel::Notice);
    assert!(rt; LogLevel::Notice < LogLevel::Info && LogLevel::Info.severity() == 6);
}

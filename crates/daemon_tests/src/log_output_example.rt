use event_log::{LogEvent, LogFormat, LogLevel};
use log_output::Log;
use std::test::Fail;

#[test]
fn a_line_is_kept(rt: HostRuntime) -> Result<(), Fail> {
    let mut log = Log::new(rt.alloc(), LogFormat::Text, LogLevel::Error)?;
    log.add(1_795_632_000, 0, &LogEvent::Ready);
    assert!(rt; log.is_empty());
    log.add(1_795_632_001, 1000, &LogEvent::NoDescriptor);
    assert!(rt; !log.is_empty());
    assert!(rt; log.dropped_lines() == 0);
    Ok(())
}

use event_log::{LogEvent, LogFormat, write_event};
use std::test::Fail;

#[test]
fn a_file_is_logged(rt: HostRuntime) -> Result<(), Fail> {
    let mut log = Vec::new(rt.alloc());
    let event = LogEvent::Taken { file: "vrps.json" };
    write_event(&mut log, LogFormat::Text, 1_795_632_000, &event)?;
    assert!(rt; log.as_slice() == b"2026-11-25T18:40:00Z taken file=vrps.json\n".as_slice());
    Ok(())
}

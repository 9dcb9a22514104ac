use der_lite::{Cursor, DerWriter, Moment};
use std::test::Fail;

#[test]
fn a_time_is_written_and_read(rt: HostRuntime) -> Result<(), Fail> {
    let moment: Moment = "20250101120000Z".parse()?;
    let mut writer = DerWriter::new(rt.alloc());
    writer.time(&moment)?;
    let mut cursor = Cursor::new(writer.as_slice());
    assert!(rt; cursor.time()? == moment);
    cursor.finish()?;
    Ok(())
}

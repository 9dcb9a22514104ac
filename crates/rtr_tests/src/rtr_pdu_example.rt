use rtr_pdu::{Next, Unit, UnitBuffer, UnitReader, encode};

#[test]
fn a_pdu_is_written_and_read(rt: HostRuntime) {
    let mut buffer = UnitBuffer::new();
    encode(&Unit::ResetQuery, &mut buffer);
    let mut piece = buffer.as_slice();
    match UnitReader::for_cache().next(&mut piece) {
        Next::Unit(unit) => assert!(rt; unit == Unit::ResetQuery),
        Next::NeedMore | Next::Fault(_) => assert!(rt; false),
    }
}

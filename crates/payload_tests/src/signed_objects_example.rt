use signed_objects::{ObjectFault, read_der_object};
use std::test::Fail;

#[test]
fn an_object_is_refused(rt: HostRuntime) -> Result<(), Fail> {
    match read_der_object(rt.alloc(), b"\x30\x03\x06\x01\x00") {
        Err(ObjectFault::At(fault)) => assert!(rt; fault.kind.number() == 6 && fault.offset == 2),
        _ => assert!(rt; false),
    }
    Ok(())
}

use std::test::Fail;
use trust_anchors::{TalFault, TalFaultKind, read_tal};

#[test]
fn a_locator_has_a_uri(rt: HostRuntime) -> Result<(), Fail> {
    match read_tal(rt.alloc(), b"# a trust anchor\n\nMIIB") {
        Err(TalFault::At(kind, line)) => assert!(rt; kind == TalFaultKind::NoUri && line == 2),
        _ => assert!(rt; false),
    }
    Ok(())
}

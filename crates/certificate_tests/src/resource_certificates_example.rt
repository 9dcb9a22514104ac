use resource_certificates::{CertificateFaultKind, Role, read_certificate};
use std::test::Fail;

#[test]
fn another_element_is_refused(rt: HostRuntime) -> Result<(), Fail> {
    match read_certificate(Role::Authority, b"\x30\x04\x30\x02\x05\x00") {
        Err(fault) => assert!(rt; fault.kind == CertificateFaultKind::Version && fault.offset == 4),
        Ok(_) => assert!(rt; false),
    }
    Ok(())
}

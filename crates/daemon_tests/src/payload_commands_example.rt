use payload_commands::print_roa;
use payloads::{Roa, RoaEntry};
use prefixes::Asn;
use std::test::Fail;

#[test]
fn a_roa_is_printed(rt: HostRuntime) -> Result<(), Fail> {
    let mut entries = Vec::new(rt.alloc());
    entries.push(RoaEntry {
        prefix: "192.0.2.0/24".parse()?,
        max_len: None,
    })?;
    let mut out = Vec::new(rt.alloc());
    print_roa(&Roa::new(Asn(64496), entries)?, &mut out)?;
    assert!(rt; out.as_slice() == b"192.0.2.0/24 24 64496\n".as_slice());
    Ok(())
}

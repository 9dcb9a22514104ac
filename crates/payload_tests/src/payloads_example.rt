use payloads::{Roa, RoaEntry, decode_roa, encode_roa};
use prefixes::Asn;
use std::test::Fail;

#[test]
fn a_roa_is_written_and_read(rt: HostRuntime) -> Result<(), Fail> {
    let mut entries = Vec::new(rt.alloc());
    entries.push(RoaEntry {
        prefix: "192.0.2.0/24".parse()?,
        max_len: None,
    })?;
    let roa = Roa::new(Asn(64496), entries)?;
    let payload = encode_roa(rt.alloc(), &roa)?;
    assert!(rt; decode_roa(rt.alloc(), payload.as_slice())?.entries() == roa.entries());
    Ok(())
}

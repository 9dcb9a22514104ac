use ccr::{encode_vrps, vrps_digest};
use prefixes::{Asn, Vrp};
use std::test::Fail;
use vrps::VrpSet;

#[test]
fn a_set_has_a_digest(rt: HostRuntime) -> Result<(), Fail> {
    let mut list = Vec::new(rt.alloc());
    list.push(Vrp::new("192.0.2.0/24".parse()?, 24, Asn(64496))?)?;
    let set = VrpSet::try_from(list)?;
    assert!(rt; encode_vrps(rt.alloc(), &set)?.len() == 27);
    assert!(rt; vrps_digest(rt.alloc(), &set)?[0] == 0x22);
    Ok(())
}

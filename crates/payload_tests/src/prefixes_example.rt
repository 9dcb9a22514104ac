use prefixes::{Asn, IpPrefix, PrefixFault, Vrp};
use std::test::Fail;

#[test]
fn a_prefix_covers_another(rt: HostRuntime) -> Result<(), Fail> {
    let prefix: IpPrefix = "192.0.2.0/24".parse()?;
    let vrp = Vrp::new(prefix, 25, Asn(64496))?;
    assert!(rt; vrp.to_string(rt.alloc())?.as_str() == "192.0.2.0/24 25 64496");
    assert!(rt; vrp.prefix().covers(&"192.0.2.128/25".parse()?));
    assert!(rt; Vrp::new(prefix, 23, Asn(64496)) == Err(PrefixFault::MaxLength));
    Ok(())
}

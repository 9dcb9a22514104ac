use prefixes::{Asn, IpPrefix, Vrp};
use status_pages::{Validity, read_query};
use std::test::Fail;
use vrps::{OriginIndex, OriginState, VrpSet};

#[test]
fn a_query_is_judged(rt: HostRuntime) -> Result<(), Fail> {
    let mut list = Vec::new(rt.alloc());
    list.push(Vrp::new(IpPrefix::parse("192.0.2.0/24")?, 24, Asn(64496))?)?;
    let index = OriginIndex::over(rt.alloc(), &VrpSet::from_list(list)?)?;
    let route = read_query(rt.alloc(), "asn=AS64496&prefix=192.0.2.0/25")?;
    let validity = Validity::of_route(rt.alloc(), &index, &route)?;
    assert!(rt; validity.state == OriginState::Invalid);
    assert!(rt; validity.matched.is_empty());
    assert!(rt; validity.unmatched_length.len() == 1);
    Ok(())
}

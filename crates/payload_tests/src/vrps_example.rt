use prefixes::{Asn, Route, Vrp};
use std::test::Fail;
use vrps::{OriginIndex, OriginState, VrpSet};

#[test]
fn a_route_is_judged(rt: HostRuntime) -> Result<(), Fail> {
    let mut list = Vec::new(rt.alloc());
    list.push(Vrp::new("192.0.2.0/24".parse()?, 24, Asn(64496))?)?;
    let index = OriginIndex::over(rt.alloc(), &VrpSet::try_from(list)?)?;
    let route = Route {
        prefix: "192.0.2.0/24".parse()?,
        origin: Some(64497),
    };
    assert!(rt; index.state(&route) == OriginState::Invalid);
    assert!(rt; index.state(&route).to_string(rt.alloc())?.as_str() == "invalid");
    Ok(())
}

use feed::route_from_payloads;
use prefixes::Route;
use std::test::Fail;
use vrps::OriginState;

#[test]
fn a_route_over_no_payloads(rt: HostRuntime) -> Result<(), Fail> {
    let route = Route {
        prefix: "192.0.2.0/24".parse()?,
        origin: Some(64496),
    };
    let fed = route_from_payloads(rt.alloc(), &[], "20250101000000Z".parse()?, &route)?;
    assert!(rt; fed.state == OriginState::NotFound);
    Ok(())
}

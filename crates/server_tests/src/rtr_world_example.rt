use rtr_pdu::Version;
use rtr_world::{Event, World};
use std::test::Fail;
use vrps::{Serial, VrpSet};

#[test]
fn a_router_catches_up(rt: HostRuntime) -> Result<(), Fail> {
    let mut world = World::new(rt.alloc(), 1, 4660, 4660, 5, 16)?;
    world.step(&Event::Publish(VrpSet::empty(rt.alloc())))?;
    world.catch_up(0)?;
    assert!(rt; world.committed(0) == Some((Version::V1, 4660, Serial(5))));
    Ok(())
}

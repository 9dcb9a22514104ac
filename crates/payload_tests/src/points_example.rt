use der_lite::Moment;
use payloads::{Manifest, encode_manifest};
use points::{Offered, Point};
use std::test::Fail;

#[test]
fn a_manifest_is_offered_twice(rt: HostRuntime) -> Result<(), Fail> {
    let from: Moment = "20250101000000Z".parse()?;
    let to: Moment = "20250102000000Z".parse()?;
    let mut number = Vec::new(rt.alloc());
    number.push(1)?;
    let manifest = Manifest::new(rt.alloc(), number, from, to, Vec::new(rt.alloc()))?;
    let payload = encode_manifest(rt.alloc(), &manifest)?;
    let mut point = Point::new(rt.alloc());
    assert!(rt; point.offer(payload.as_slice(), &[], from) == Ok(Offered::New));
    assert!(rt; point.offer(payload.as_slice(), &[], to) == Ok(Offered::Same));
    Ok(())
}

use constraints::{ConstraintRefusal, read_constraints};
use resources::{ResourceRange, ResourceSet};
use std::test::Fail;

#[test]
fn an_address_that_is_not_allowed_is_refused(rt: HostRuntime) -> Result<(), Fail> {
    let constraints = read_constraints(rt.alloc(), b"allow 2001:db8::/32 # IPv6 alone\n")?;
    let none = ResourceSet::empty(rt.alloc());
    // 192.0.2.0/24
    let range = ResourceRange {
        low: 0xc0000200,
        high: 0xc00002ff,
    };
    let v4 = none.with(rt.alloc(), range)?;
    assert!(rt; constraints.judge(&v4, &none) == Err(ConstraintRefusal::NotAllowed));
    Ok(())
}

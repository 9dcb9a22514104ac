use slurm::{apply, read_slurm};
use std::test::Fail;
use vrps::VrpSet;

#[test]
fn exceptions_are_read_and_applied(rt: HostRuntime) -> Result<(), Fail> {
    let text = br#"{"slurmVersion":1,
        "validationOutputFilters":{"prefixFilters":[{"asn":64497}],"bgpsecFilters":[]},
        "locallyAddedAssertions":{"prefixAssertions":[{"asn":64496,"prefix":"198.51.100.0/24"}],"bgpsecAssertions":[]}}"#;
    let slurm = read_slurm(rt.alloc(), text)?;
    let set = apply(&slurm, rt.alloc(), &VrpSet::empty(rt.alloc()))?;
    assert!(rt; set.len() == 1);
    Ok(())
}

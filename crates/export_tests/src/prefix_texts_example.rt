use prefix_texts::parse_prefix;
use prefixes::PrefixFault;
use std::test::Fail;

#[test]
fn a_prefix_in_mixed_notation(rt: HostRuntime) -> Result<(), Fail> {
    let mixed = parse_prefix("::ffff:192.0.2.0/120")?;
    assert!(rt; mixed == parse_prefix("::ffff:c000:200/120")?);
    assert!(rt; parse_prefix("::ffff:192.0.2.1/120") == Err(PrefixFault::HostBits));
    Ok(())
}

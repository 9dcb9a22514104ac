use der_lite::Moment;
use sources::{Sources, TakeFault};
use std::test::Fail;

#[test]
fn an_export_is_taken_and_served(rt: HostRuntime) -> Result<(), Fail> {
    let mut sources = Sources::new(rt.alloc(), 1)?;
    let text = br#"[{"asn":64496,"prefix":"192.0.2.0/24","maxLength":24}]"#;
    sources.take_export(0, text, 1_700_000_000)?;
    assert!(rt; sources.take_export(1, text, 1_700_000_000) == Err(TakeFault::NoSuchFile));
    let now = Moment::parse("20231114221320Z").ok_or("no moment")?;
    let served = sources.served(now)?;
    assert!(rt; served.set.len() == 1);
    Ok(())
}

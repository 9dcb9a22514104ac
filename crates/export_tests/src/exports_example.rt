use exports::read_export;
use std::test::Fail;

#[test]
fn an_export_is_read(rt: HostRuntime) -> Result<(), Fail> {
    let text = br#"{"metadata":{"generated":1700000000},"roas":[
        {"asn":"AS64496","prefix":"192.0.2.0/24","maxLength":24,"ta":"ripe","expires":1700003600},
        {"asn":64497,"prefix":"2001:db8::/32","maxLength":48,"ta":"arin","expires":1700000000}]}"#;
    let export = read_export(rt.alloc(), text, 1_700_000_060)?;
    assert!(rt; export.set.len() == 1);
    assert!(rt; export.expired == 1);
    assert!(rt; export.built == Some(1_700_000_000));
    Ok(())
}

use file_kinds::FileKind;
use std::test::Fail;

#[test]
fn a_name_promises_a_content(rt: HostRuntime) -> Result<(), Fail> {
    let kind = FileKind::of_file("a.roa").ok_or("no kind")?;
    assert!(rt; kind.extension() == "roa");
    assert!(rt; FileKind::with_extension("roa") == Some(FileKind::Roa));
    // id-ct-routeOriginAuthz (RFC 9582 section 3)
    let content_type = b"\x2a\x86\x48\x86\xf7\x0d\x01\x09\x10\x01\x18".as_slice();
    assert!(rt; FileKind::Roa.content_type() == Some(content_type));
    assert!(rt; FileKind::of_content_type(content_type) == Some(FileKind::Roa));
    Ok(())
}

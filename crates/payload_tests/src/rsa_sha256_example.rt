use rsa_sha256::{ModulusFault, PublicKey};
use std::test::Fail;

#[test]
fn a_signature_is_refused(rt: HostRuntime) -> Result<(), Fail> {
    let mut modulus = [0xff; 256];
    let key = PublicKey::new(&modulus)?;
    assert!(rt; !key.verify(b"message", &[0; 256]));
    modulus[0] = 0x7f;
    assert!(rt; matches!(PublicKey::new(&modulus), Err(ModulusFault::TopBit)));
    Ok(())
}

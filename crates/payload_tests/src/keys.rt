//! Moduli that make a key, and moduli that do not.
use rsa_sha256::{ModulusFault, PublicKey};
use std::alloc::Global;

/// The fault of a modulus, if it makes no key.
fn fault_of(modulus: &[u8]) -> Option<ModulusFault> {
    PublicKey::new(modulus).err()
}

/// Whether a key has this modulus.
fn has_modulus(modulus: &[u8]) -> bool {
    match PublicKey::new(modulus) {
        Ok(key) => key.modulus() == modulus,
        Err(_) => false,
    }
}

#[test]
fn a_key_has_its_modulus(rt: HostRuntime) {
    assert!(rt; has_modulus(&[0xff; 300]));
}

#[test]
fn moduli_have_lengths(rt: HostRuntime) {
    let octets = [0xff; 513];
    assert!(rt; fault_of(&octets[..255]) == Some(ModulusFault::Length));
    assert!(rt; fault_of(&octets[..256]).is_none());
    assert!(rt; fault_of(&octets[..257]).is_none());
    assert!(rt; fault_of(&octets[..512]).is_none());
    assert!(rt; fault_of(&octets) == Some(ModulusFault::Length));
    assert!(rt; fault_of(&[]) == Some(ModulusFault::Length));
}

#[test]
fn first_and_last_bits(rt: HostRuntime) {
    let mut octets = [0; 256];
    octets[0] = 0x80;
    octets[255] = 0x01;
    assert!(rt; fault_of(&octets).is_none());
    octets[255] = 0xfe;
    assert!(rt; fault_of(&octets) == Some(ModulusFault::Even));
    octets[0] = 0x7f;
    assert!(rt; fault_of(&octets) == Some(ModulusFault::TopBit));
    // of two faults the first, and of three
    assert!(rt; fault_of(&octets[..255]) == Some(ModulusFault::Length));
}

/// Whether this is the text of a fault.
fn is_text(alloc: Global, fault: ModulusFault, text: &str) -> bool {
    match fault.to_string(alloc) {
        Ok(shown) => shown.as_str() == text,
        Err(_) => false,
    }
}

#[test]
fn texts_of_faults(rt: HostRuntime) {
    let length = "the modulus does not have 2048 to 4096 bits (fault 1)";
    assert!(rt; is_text(rt.alloc(), ModulusFault::Length, length));
    let top_bit = "the first bit of the modulus is 0 (fault 2)";
    assert!(rt; is_text(rt.alloc(), ModulusFault::TopBit, top_bit));
    assert!(rt;
        is_text(
            rt.alloc(),
            ModulusFault::Even,
            "the modulus is even (fault 3)"
        )
    );
}

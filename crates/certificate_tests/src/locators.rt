//! Trust anchor locators: one of an RIR.
use std::alloc::Global;
use std::test::Fail;
use trust_anchors::read_tal;

/// The locator of RIPE NCC.
const RIPE: &str = "https://rpki.ripe.net/ta/ripe-ncc-ta.cer\r
rsync://rpki.ripe.net/ta/ripe-ncc-ta.cer\r
\r
MIIBIjANBgkqhkiG9w0BAQEFAAOCAQ8AMIIBCgKCAQEA0URYSGqUz2myBsOzeW1j\r
Q6NsxNvlLMyhWknvnl8NiBCs/T/S2XuNKQNZ+wBZxIgPPV2pFBFeQAvoH/WK83Hw\r
A26V2siwm/MY2nKZ+Olw+wlpzlZ1p3Ipj2eNcKrmit8BwBC8xImzuCGaV0jkRB0G\r
Z0hoH6Ml03umLprRsn6v0xOP0+l6Qc1ZHMFVFb385IQ7FQQTcVIxrdeMsoyJq9eM\r
kE6DoclHhF/NlSllXubASQ9KUWqJ0+Ot3QCXr4LXECMfkpkVR2TZT+v5v658bHVs\r
6ZxRD1b6Uk1uQKAyHUbn/tXvP8lrjAibGzVsXDT2L0x4Edx+QdixPgOji3gBMyL2\r
VwIDAQAB\r
";

/// The first and the last bytes of a modulus, and how many URIs there are.
fn shown(alloc: Global, bytes: &[u8]) -> Option<(u8, u8, usize)> {
    let Ok(tal) = read_tal(alloc, bytes) else {
        return None;
    };
    match (tal.modulus.first(), tal.modulus.last()) {
        (Some(first), Some(last)) => Some((*first, *last, tal.uris.len())),
        _ => None,
    }
}

#[test]
fn the_locator_of_an_rir_is_read(rt: HostRuntime) -> Result<(), Fail> {
    // openssl rsa -pubin -modulus: Modulus=D14458486A94CF69.. ..33 22F657
    assert!(rt; shown(rt.alloc(), RIPE.as_bytes()) == Some((0xd1, 0x57, 2)));
    Ok(())
}

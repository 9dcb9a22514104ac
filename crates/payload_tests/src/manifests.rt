//! Manifests that are written, and manifests of values. What is read is a row of the command `manifest`.

use der_lite::Moment;
use payloads::{
    ListedFile, Manifest, ManifestFault, PayloadFault, decode_manifest, encode_manifest,
};
use std::alloc::{AllocError, Global};
use std::process::Abort;
use test_values::hex::Bytes;

/// Number 1, from 2025-01-01 to 2025-01-02, of the one file `a.crl`, whose object is `abc`.
const WHOLE: &[u8] = b"\
    \x30\x5e\x02\x01\x01\
    \x18\x0f20250101000000Z\
    \x18\x0f20250102000000Z\
    \x06\x09\x60\x86\x48\x01\x65\x03\x04\x02\x01\
    \x30\x2c\x30\x2a\x16\x05a.crl\
    \x03\x21\x00\xba\x78\x16\xbf\x8f\x01\xcf\xea\x41\x41\x40\xde\x5d\xae\x22\x23\xb0\x03\x61\xa3\x96\x17\x7a\x9c\xb4\x10\xff\x61\xf2\x00\x15\xad";

/// The same of the one file `a.roa`, whose object is the ROA of AS64496 and 192.0.2.0/24.
const OF_ROA: &[u8] = b"\
    \x30\x5e\x02\x01\x01\
    \x18\x0f20250101000000Z\
    \x18\x0f20250102000000Z\
    \x06\x09\x60\x86\x48\x01\x65\x03\x04\x02\x01\
    \x30\x2c\x30\x2a\x16\x05a.roa\
    \x03\x21\x00\xda\x32\xbf\xbe\x0d\x8e\xea\x0f\x5d\x3b\x56\x02\x3c\x55\xd1\xc2\x3a\xa9\x1d\xf5\x02\x33\xf8\x9c\x32\x50\x86\xb2\xb2\x06\xd5\xa2";

/// The number and the offset of a fault, if there is one.
type Refusal = Option<(u8, usize)>;

/// Whether a manifest is written as these bytes.
fn is_written(alloc: Global, manifest: &Manifest, payload: &[u8]) -> bool {
    match encode_manifest(alloc, manifest) {
        Ok(written) => written.as_slice() == payload,
        Err(_) => false,
    }
}

/// The whole manifest with this byte at this place.
fn changed(whole: &[u8], at: usize, byte: u8) -> Bytes {
    let mut payload = Bytes::new();
    let _fits = payload.try_extend_from_slice(whole);
    if let Some(place) = payload.as_mut_slice().get_mut(at) {
        *place = byte;
    }
    payload
}

/// Whether bytes are accepted as a manifest, which has to be written as they are, and otherwise have a fault that is reported inside them.
fn is_taken(alloc: Global, payload: &[u8]) -> Option<bool> {
    match decode_manifest(alloc, payload) {
        Ok(manifest) => is_written(alloc, &manifest, payload).then_some(true),
        Err(PayloadFault::At(fault)) => (fault.offset <= payload.len()).then_some(false),
        Err(PayloadFault::Memory) => None,
    }
}

/// How many bytes there may be at this place of the whole manifest, as far as each is judged.
fn taken_at(alloc: Global, whole: &[u8], at: usize) -> Option<usize> {
    let mut count = 0usize;
    for byte in 0..=255u8 {
        if is_taken(alloc, changed(whole, at, byte).as_slice())? {
            count = count.saturating_add(1);
        }
    }
    Some(count)
}

/// The same of all places.
fn taken(alloc: Global, whole: &[u8]) -> Option<usize> {
    let mut count = 0usize;
    for at in 0..whole.len() {
        count = count.saturating_add(taken_at(alloc, whole, at)?);
    }
    Some(count)
}

#[test]
fn writes_each_manifest_with_one_other_byte(rt: HostRuntime) {
    // The number: 0 to 127. thisUpdate before nextUpdate: 61, and nextUpdate behind it: 99. The name: 64 before the dot, 26 for each letter
    // behind it. The hash: 256 for each byte. At each of the 29 other bytes only the one that is there.
    let spelled = 128 + 61 + 99 + 64 + 3 * 26 + 32 * 256 + 29;
    assert!(rt; taken(rt.alloc(), WHOLE) == Some(spelled));
    assert!(rt; is_taken(rt.alloc(), OF_ROA) == Some(true));
}

/// The number of the whole manifest.
const ONE: &[u8] = b"\x01";

/// The number, the moments, the names of the files, which blanks part, and the number of the fault and its index.
type Values = (
    &'static [u8],
    (&'static str, &'static str),
    &'static str,
    Refusal,
);

const DAY: (&str, &str) = ("20250101000000Z", "20250102000000Z");

const NO_TIME: (&str, &str) = ("20250101000000Z", "20250101000000Z");

const VALUES: &[Values] = &[
    (ONE, DAY, "a.crl b.roa", None),
    (ONE, DAY, "", None),
    (b"", NO_TIME, "a", Some((13u8, 0usize))),
    (b"\x00\x01", DAY, "", Some((13, 0))),
    (b"\xff", DAY, "", Some((13, 0))),
    (b"\x7f0123456789abcdefghij", DAY, "", Some((13, 0))),
    (ONE, NO_TIME, "a", Some((14, 0))),
    (ONE, DAY, "a.crl a.CRL", Some((16, 1))),
    (ONE, DAY, "a.crl b.roa a.crl", Some((18, 2))),
    (ONE, DAY, "a.crl A.crl a-_9.crl", None),
    (ONE, DAY, ".crl", Some((16, 0))),
    (ONE, DAY, "a.b.crl", Some((16, 0))),
    (ONE, DAY, "a.cr", Some((16, 0))),
    (ONE, DAY, "a.crls", Some((16, 0))),
];

/// Lists a file of this name.
fn list(files: &mut Vec<ListedFile>, alloc: Global, name: &str) -> Result<(), AllocError> {
    let name = String::from_str(alloc, name)?;
    Ok(files.push(ListedFile::new(name, [7; 32]))?)
}

/// Files of these names, which blanks part.
fn files_of(alloc: Global, names: &str) -> Result<Vec<ListedFile>, AllocError> {
    let mut files = Vec::new(alloc);
    for name in names.split_whitespace() {
        list(&mut files, alloc, name)?;
    }
    Ok(files)
}

/// Whether a manifest is made, and has these values, or is refused so.
fn is_made(
    made: Result<Manifest, ManifestFault>,
    (number, _moments, names, refusal): &Values,
) -> bool {
    match made {
        Ok(manifest) => {
            refusal.is_none()
                && manifest.number() == *number
                && manifest.files().len() == names.split_whitespace().count()
        }
        Err(ManifestFault::Value(fault)) => { *refusal == Some((fault.kind.number(), fault.index)) }
        Err(ManifestFault::Memory) => false,
    }
}

/// Whether a manifest of these values comes to what it has to.
fn is_judged(alloc: Global, values: &Values) -> bool {
    let (number, (this_update, next_update), names, _refusal) = values;
    let (Some(this_update), Some(next_update)) = (
        Moment::parse(this_update),
        Moment::parse(next_update),
    ) else {
        return false;
    };
    match (number.to_vec(alloc), files_of(alloc, names)) {
        (Ok(number), Ok(files)) => {
            is_made(
                Manifest::new(alloc, number, this_update, next_update, files),
                values,
            )
        }
        _ => false,
    }
}

fn expect_judged<R: Abort>(rt: &R, alloc: Global, rows: &[Values]) {
    for values in rows {
        assert!(rt; is_judged(alloc, values));
    }
}

#[test]
fn makes_manifests_of_values(rt: HostRuntime) {
    expect_judged(&rt, rt.alloc(), VALUES);
}

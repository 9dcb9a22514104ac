use crate::telling::{begin, no_memory, tell, tell_payloads, tell_record};
use der_lite::Moment;
use payloads::{
    ListedFile, Manifest, ManifestFault, PayloadFault, Roa, decode_manifest, decode_roa,
    encode_manifest, encode_roa,
};
use points::{FileIn, Offered, PointFault, Repository};
use std::alloc::{AllocError, Global};

/// AS64496 and 192.0.2.0/24.
pub(crate) const ONE_PREFIX: &[u8] = b"\
    \x30\x17\x02\x03\x00\xfb\xf0\
    \x30\x10\x30\x0e\x04\x02\x00\x01\
    \x30\x08\x30\x06\x03\x04\x00\xc0\x00\x02";

/// AS64496 and 2001:db8::/32 up to 48.
const IPV6: &[u8] = b"\
    \x30\x1b\x02\x03\x00\xfb\xf0\
    \x30\x14\x30\x12\x04\x02\x00\x02\
    \x30\x0c\x30\x0a\x03\x05\x00\x20\x01\x0d\xb8\
    \x02\x01\x30";

/// A manifest of number 1, 20250101000000Z to 20250102000000Z, with the file `a.crl`, whose object is `abc`.
const OF_A_LIST: &[u8] = b"\
    \x30\x5e\x02\x01\x01\
    \x18\x0f\x32\x30\x32\x35\x30\x31\x30\x31\x30\x30\x30\x30\x30\x30\x5a\
    \x18\x0f\x32\x30\x32\x35\x30\x31\x30\x32\x30\x30\x30\x30\x30\x30\x5a\
    \x06\x09\x60\x86\x48\x01\x65\x03\x04\x02\x01\
    \x30\x2c\x30\x2a\x16\x05\x61\x2e\x63\x72\x6c\
    \x03\x21\x00\xba\x78\x16\xbf\x8f\x01\xcf\xea\x41\x41\x40\xde\x5d\xae\x22\x23\xb0\x03\x61\xa3\x96\x17\x7a\x9c\xb4\x10\xff\x61\xf2\x00\x15\xad";

/// The same with the file `a.roa`, the ROA of one prefix.
pub(crate) const FIRST: &[u8] = b"\
    \x30\x5e\x02\x01\x01\
    \x18\x0f\x32\x30\x32\x35\x30\x31\x30\x31\x30\x30\x30\x30\x30\x30\x5a\
    \x18\x0f\x32\x30\x32\x35\x30\x31\x30\x32\x30\x30\x30\x30\x30\x30\x5a\
    \x06\x09\x60\x86\x48\x01\x65\x03\x04\x02\x01\
    \x30\x2c\x30\x2a\x16\x05\x61\x2e\x72\x6f\x61\
    \x03\x21\x00\xda\x32\xbf\xbe\x0d\x8e\xea\x0f\x5d\x3b\x56\x02\x3c\x55\xd1\xc2\x3a\xa9\x1d\xf5\x02\x33\xf8\x9c\x32\x50\x86\xb2\xb2\x06\xd5\xa2";

/// A manifest of number 2, 20250101120000Z to 20250103000000Z, with `a.roa` and `b.roa`, both with the hash of that ROA.
const SECOND: &[u8] = b"\
    \x30\x81\x8a\x02\x01\x02\
    \x18\x0f20250101120000Z\
    \x18\x0f20250103000000Z\
    \x06\x09\x60\x86\x48\x01\x65\x03\x04\x02\x01\
    \x30\x58\x30\x2a\x16\x05a.roa\
    \x03\x21\x00\xda\x32\xbf\xbe\x0d\x8e\xea\x0f\x5d\x3b\x56\x02\x3c\x55\xd1\xc2\x3a\xa9\x1d\xf5\x02\x33\xf8\x9c\x32\x50\x86\xb2\xb2\x06\xd5\xa2\
    \x30\x2a\x16\x05b.roa\
    \x03\x21\x00\xda\x32\xbf\xbe\x0d\x8e\xea\x0f\x5d\x3b\x56\x02\x3c\x55\xd1\xc2\x3a\xa9\x1d\xf5\x02\x33\xf8\x9c\x32\x50\x86\xb2\xb2\x06\xd5\xa2";

/// Prints the entries of a ROA.
fn tell_roa(rt: &HostRuntime, roa: &Roa) {
    for it in roa.entries() {
        tell_record(rt, &it.prefix, it.greatest_length(), roa.asn());
    }
}

/// Decodes a ROA and prints its entries, the fault, or that memory ran out.
fn is_decoded(rt: &HostRuntime, payload: &[u8]) -> bool {
    match decode_roa(rt.alloc(), payload) {
        Ok(roa) => tell_roa(rt, &roa),
        Err(PayloadFault::Memory) => return no_memory(rt),
        Err(PayloadFault::At(fault)) => {
            let _printed = println!(rt; "{} at {}", fault.kind.number(), fault.offset);
        }
    }
    true
}

/// Decodes a ROA, and once more if memory ran out.
pub(crate) fn tell_decoded(rt: &HostRuntime, payload: &[u8]) {
    let _done = is_decoded(rt, payload) || is_decoded(rt, payload);
}

/// Prints whether what is written is the payload, or that memory ran out.
fn is_same(rt: &HostRuntime, written: Result<Vec<u8>, AllocError>, payload: &[u8]) -> bool {
    match written {
        Ok(bytes) => {
            let is_same = bytes.as_slice() == payload;
            tell(rt, if is_same { "same" } else { "other" });
            true
        }
        Err(_) => no_memory(rt),
    }
}

/// Writes the ROA that a payload holds, and once more if memory ran out.
fn tell_written(rt: &HostRuntime, payload: &[u8]) {
    let alloc = rt.alloc();
    if let Ok(roa) = decode_roa(alloc, payload) {
        begin(alloc);
        let _done = is_same(rt, encode_roa(alloc, &roa), payload)
            || is_same(rt, encode_roa(alloc, &roa), payload);
    }
}

#[test]
fn encode_one_prefix(rt: HostRuntime) {
    tell_written(&rt, ONE_PREFIX);
}

#[test]
fn encode_ipv6(rt: HostRuntime) {
    tell_written(&rt, IPV6);
}

/// Prints what a manifest says.
fn tell_manifest(rt: &HostRuntime, manifest: &Manifest) {
    let (this_update, next_update) = (manifest.this_update(), manifest.next_update());
    let _printed = println!(rt; "{this_update} {next_update}");
    for it in manifest.files() {
        tell(rt, it.name());
    }
}

/// Lists a file of this name and this hash.
fn list(
    files: &mut Vec<ListedFile>,
    alloc: Global,
    name: &str,
    hash: &[u8; 32],
) -> Result<(), AllocError> {
    let name = String::from_str(alloc, name)?;
    Ok(files.push(ListedFile::new(name, *hash))?)
}

/// The files of a manifest, to be supplied again.
fn files_of(alloc: Global, manifest: &Manifest) -> Result<Vec<ListedFile>, AllocError> {
    let mut files = Vec::new(alloc);
    for it in manifest.files() {
        list(&mut files, alloc, it.name(), it.hash())?;
    }
    Ok(files)
}

/// The number and the files of a manifest, to be supplied again.
fn parts_of(alloc: Global, given: &Manifest) -> Option<(Vec<u8>, Vec<ListedFile>)> {
    match (given.number().to_vec(alloc), files_of(alloc, given)) {
        (Ok(number), Ok(files)) => Some((number, files)),
        _ => None,
    }
}

/// Makes a manifest of its parts and of the moments of another, and prints what it says, or that memory ran out.
fn is_made(
    rt: &HostRuntime,
    given: &Manifest,
    (number, files): (Vec<u8>, Vec<ListedFile>),
) -> bool {
    let (this_update, next_update) = (*given.this_update(), *given.next_update());
    match Manifest::new(rt.alloc(), number, this_update, next_update, files) {
        Ok(manifest) => tell_manifest(rt, &manifest),
        Err(ManifestFault::Memory) => return no_memory(rt),
        Err(ManifestFault::Value(_)) => tell(rt, "refused"),
    }
    true
}

/// Makes a manifest of the parts of another, and once more if memory ran out.
fn tell_made(rt: &HostRuntime, given: &Manifest) {
    let alloc = rt.alloc();
    if let (Some(parts), Some(again)) = (parts_of(alloc, given), parts_of(alloc, given)) {
        begin(alloc);
        if !is_made(rt, given, parts) {
            is_made(rt, given, again);
        }
    }
}

#[test]
fn make_a_manifest(rt: HostRuntime) {
    if let Ok(given) = decode_manifest(rt.alloc(), OF_A_LIST) {
        tell_made(&rt, &given);
    }
}

#[test]
fn encode_a_manifest(rt: HostRuntime) {
    let alloc = rt.alloc();
    if let Ok(manifest) = decode_manifest(alloc, OF_A_LIST) {
        begin(alloc);
        let _done = is_same(&rt, encode_manifest(alloc, &manifest), OF_A_LIST)
            || is_same(&rt, encode_manifest(alloc, &manifest), OF_A_LIST);
    }
}

pub(crate) fn file<'a>(name: &'a str, object: &'a [u8], content: &'a [u8]) -> FileIn<'a> {
    FileIn {
        name,
        object,
        content,
    }
}

/// What an offer is answered.
fn told(answer: Result<Offered, PointFault>) -> &'static str {
    match answer {
        Ok(Offered::New) => "new",
        Ok(Offered::Same) => "same",
        Err(PointFault::Memory) => "memory",
        Err(PointFault::HashDiffers(1)) => "the second object differs",
        Err(_) => "refused",
    }
}

/// Prints what is in use at a moment, or that memory ran out.
fn is_listed(rt: &HostRuntime, repository: &Repository, now: Moment) -> bool {
    match repository.payloads(now) {
        Ok(payloads) => {
            tell(rt, "in use:");
            tell_payloads(rt, payloads.as_slice());
            true
        }
        Err(_) => no_memory(rt),
    }
}

/// Prints what is in use at a moment, for which memory may run out once.
fn tell_in_use(rt: &HostRuntime, repository: &Repository, now: Moment) {
    let _done = is_listed(rt, repository, now) || is_listed(rt, repository, now);
}

/// Offers, prints the answer and what is in use then, and returns whether there was memory for the offer.
fn is_judged(
    rt: &HostRuntime,
    repository: &mut Repository,
    manifest: &[u8],
    files: &[FileIn],
    now: Moment,
) -> bool {
    let answer = told(repository.offer("point", manifest, files, now));
    tell(rt, answer);
    tell_in_use(rt, repository, now);
    answer != "memory"
}

/// Offers, and once more if memory ran out.
fn tell_offered(
    rt: &HostRuntime,
    repository: &mut Repository,
    manifest: &[u8],
    files: &[FileIn],
    now: Moment,
) {
    let _done = is_judged(rt, repository, manifest, files, now)
        || is_judged(rt, repository, manifest, files, now);
}

/// The moments of the manifests: both thisUpdates, the first nextUpdate, and a second later.
pub(crate) const START: &str = "20250101000000Z";

const NOON: &str = "20250101120000Z";

const END: &str = "20250102000000Z";

const LATE: &str = "20250102000001Z";

#[test]
fn offer_the_first(rt: HostRuntime) {
    let mut repository = Repository::new(rt.alloc());
    let files = [file("a.roa", ONE_PREFIX, ONE_PREFIX)];
    if let Some(start) = Moment::parse(START) {
        begin(rt.alloc());
        tell_offered(&rt, &mut repository, FIRST, &files, start);
    }
}

/// Offers the second manifest with another object at noon, and prints what is in use at the end of the first and after it.
fn tell_another(rt: &HostRuntime, repository: &mut Repository) {
    let files = [
        file("a.roa", ONE_PREFIX, ONE_PREFIX),
        file("b.roa", IPV6, ONE_PREFIX),
    ];
    if let (Some(noon), Some(end), Some(late)) = (
        Moment::parse(NOON),
        Moment::parse(END),
        Moment::parse(LATE),
    ) {
        begin(rt.alloc());
        tell_offered(rt, repository, SECOND, &files, noon);
        tell_in_use(rt, repository, end);
        tell_in_use(rt, repository, late);
    }
}

#[test]
fn offer_another_object(rt: HostRuntime) {
    let mut repository = Repository::new(rt.alloc());
    let files = [file("a.roa", ONE_PREFIX, ONE_PREFIX)];
    if let Some(start) = Moment::parse(START) {
        let _new = repository.offer("point", FIRST, &files, start);
        tell_another(&rt, &mut repository);
    }
}

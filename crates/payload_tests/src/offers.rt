//! Offers by hand, after a first one. First offers are rows of the command `payloads`.

use crate::roas::is_alone;
use der_lite::Moment;
use payloads::{ListedFile, Manifest, encode_manifest};
use points::{FileIn, Offered, Point, PointFault, Repository};
use prefixes::Vrp;
use sha2::{Digest, Sha256};
use std::alloc::{AllocError, Global};
use std::process::Abort;
use test_values::scripts::Words;

/// The payload of a ROA: AS64496 and 192.0.2.0/24.
const ROA: &[u8] = b"\
    \x30\x17\x02\x03\x00\xfb\xf0\
    \x30\x10\x30\x0e\x04\x02\x00\x01\
    \x30\x08\x30\x06\x03\x04\x00\xc0\x00\x02";

/// The same with a version, which is refused at offset 2.
const WITH_VERSION: &[u8] = b"\
    \x30\x1c\xa0\x03\x02\x01\x00\
    \x02\x03\x00\xfb\xf0\
    \x30\x10\x30\x0e\x04\x02\x00\x01\
    \x30\x08\x30\x06\x03\x04\x00\xc0\x00\x02";

/// The same with the maximum 24, which is refused at offset 25.
const SUPERFLUOUS: &[u8] = b"\
    \x30\x1a\x02\x03\x00\xfb\xf0\
    \x30\x13\x30\x11\x04\x02\x00\x01\
    \x30\x0b\x30\x09\x03\x04\x00\xc0\x00\x02\
    \x02\x01\x18";

/// The payload of a manifest: number 1, 20250101000000Z to 20250102000000Z, the file `a.roa` with the
/// SHA-256 of that ROA.
const FIRST: &[u8] = b"\
    \x30\x5e\x02\x01\x01\
    \x18\x0f20250101000000Z\
    \x18\x0f20250102000000Z\
    \x06\x09\x60\x86\x48\x01\x65\x03\x04\x02\x01\
    \x30\x2c\x30\x2a\x16\x05a.roa\
    \x03\x21\x00\xda\x32\xbf\xbe\x0d\x8e\xea\x0f\x5d\x3b\x56\x02\x3c\x55\xd1\xc2\x3a\xa9\x1d\xf5\x02\x33\xf8\x9c\x32\x50\x86\xb2\xb2\x06\xd5\xa2";

/// The moments of that manifest, one between them at which the next is offered, and the seconds before and after.
const EARLY: &str = "20241231235959Z";

const START: &str = "20250101000000Z";

const NOON: &str = "20250101120000Z";

const END: &str = "20250102000000Z";

const LATE: &str = "20250102000001Z";

/// The nextUpdate of the next manifest.
const NEXT_END: &str = "20250103000000Z";

/// The object of a file that has this name.
fn object_of(name: &str) -> Option<&'static [u8]> {
    match name {
        "ROA" => Some(ROA),
        "WITH_VERSION" => Some(WITH_VERSION),
        "SUPERFLUOUS" => Some(SUPERFLUOUS),
        "abc" => Some(b"abc"),
        "abb" => Some(b"abb"),
        "signed" => Some(b"signed"),
        "empty" => Some(b""),
        _ => None,
    }
}

/// A file, as `a.roa=ROA`. Its content is its object, but that of `signed` is the ROA.
fn file_of(file: &'static str) -> Option<FileIn<'static>> {
    let (name, object) = file.split_once('=')?;
    let content = object_of(if object == "signed" { "ROA" } else { object })?;
    Some(FileIn {
        name,
        object: object_of(object)?,
        content,
    })
}

/// Files with blanks between them.
fn files_of(alloc: Global, files: &'static str) -> Option<Vec<FileIn<'static>>> {
    let mut list = Vec::new(alloc);
    for file in files.split_whitespace() {
        if list.push(file_of(file)?).is_err() {
            return None;
        }
    }
    Some(list)
}

const FILES: &str = "a.roa=ROA";

/// What an offer is answered: of a fault its number and its index.
type Answer = Result<Offered, (u8, Option<usize>)>;

/// The entry of a file that a manifest lists, with the SHA-256 of its object.
fn entry_of(alloc: Global, file: &FileIn<'static>) -> Result<ListedFile, AllocError> {
    let name = String::from_str(alloc, file.name)?;
    Ok(ListedFile::new(name, Sha256::digest(file.object)))
}

/// The entries of files.
fn listed(alloc: Global, files: &[FileIn<'static>]) -> Result<Vec<ListedFile>, AllocError> {
    let mut list = Vec::new(alloc);
    for file in files {
        list.push(entry_of(alloc, file)?)?;
    }
    Ok(list)
}

/// A manifest of this number and these times, which lists files.
fn made(
    alloc: Global,
    number: u8,
    (this_update, next_update): (Moment, Moment),
    files: &[FileIn<'static>],
) -> Option<Manifest> {
    match (Vec::from_slice(alloc, &[number]), listed(alloc, files)) {
        (Ok(number), Ok(files)) => {
            Manifest::new(alloc, number, this_update, next_update, files).ok()
        }
        _ => None,
    }
}

/// The payload of a manifest of this number and this thisUpdate, which lists files.
fn manifest(alloc: Global, number: u8, this_update: &str, files: &'static str) -> Option<Vec<u8>> {
    let moments = (Moment::parse(this_update)?, Moment::parse(NEXT_END)?);
    let files = files_of(alloc, files)?;
    match made(alloc, number, moments, files.as_slice()) {
        Some(manifest) => encode_manifest(alloc, &manifest).ok(),
        None => None,
    }
}

/// The number and the index of a fault.
fn answer(offered: Result<Offered, PointFault>) -> Answer {
    match offered {
        Ok(offered) => Ok(offered),
        Err(fault) => Err((fault.number(), fault.index())),
    }
}

/// Whether this was answered, and it is that.
fn is(answer: Option<Answer>, want: &Answer) -> bool {
    answer == Some(*want)
}

/// What a point answers.
fn offer(point: &mut Point, manifest: &[u8], files: &[FileIn], now: &str) -> Option<Answer> {
    let now = Moment::parse(now)?;
    Some(answer(point.offer(manifest, files, now)))
}

/// A point that accepted the first manifest.
fn accepted(alloc: Global) -> Option<Point> {
    let files = files_of(alloc, FILES)?;
    let mut point = Point::new(alloc);
    match offer(&mut point, FIRST, files.as_slice(), START) {
        Some(Ok(Offered::New)) => Some(point),
        _ => None,
    }
}

/// Offers of the first manifest without files, and of what is none, to a point that holds it.
const HELD_OFFERS: &[(&[u8], &str, Answer)] = &[
    (FIRST, NOON, Ok(Offered::Same)),
    (FIRST, LATE, Err((3, None))),
    (b"\x30", NOON, Err((1, None))),
    (FIRST, NOON, Ok(Offered::Same)),
];

fn expect_held<R: Abort>(rt: &R, point: &mut Point, rows: &[(&[u8], &str, Answer)]) {
    for (manifest, now, want) in rows {
        assert!(rt; is(offer(point, manifest, &[], now), want));
    }
}

#[test]
fn knows_what_it_holds(rt: HostRuntime) {
    match accepted(rt.alloc()) {
        Some(mut point) => expect_held(&rt, &mut point, HELD_OFFERS),
        None => assert!(rt; false),
    }
}

/// Offers at noon to a point that accepted the first manifest. Each has the number of its manifest, and whether its thisUpdate is noon or that
/// of the first. Then come the files that it lists, those that are supplied, and the answer: `new`, or a fault's number and index.
const LATER_OFFERS: &str = "1 noon; a.roa=ROA; a.roa=ROA; 4
    1 first; a.roa=ROA; a.roa=ROA; 4
    2 first; a.roa=ROA; a.roa=ROA; 5
    2 noon; a.roa=ROA; a.roa=ROA a.roa=ROA; 6 1
    2 noon; a.roa=ROA; ; 7 0
    2 noon; a.roa=ROA; a.roa=WITH_VERSION; 8 0
    2 noon; a.roa=WITH_VERSION; a.roa=WITH_VERSION; 9 0
    2 noon; a.roa=ROA; a.roa=ROA b.roa=empty; new
    2 noon; a.crl=abc; a.crl=abc; new";

/// The hash of the first listed file is judged before the second, which is missing, and so is its content. Two files of one name come before all
/// that is listed, also if neither is listed, and if they are equal. The object is hashed, and the content is read.
const LEAST: &str = "2 noon; a.roa=ROA b.roa=ROA; a.roa=WITH_VERSION; 8 0
    2 noon; a.roa=WITH_VERSION b.roa=ROA; a.roa=WITH_VERSION b.roa=WITH_VERSION; 9 0
    2 noon; a.roa=ROA b.roa=ROA; a.roa=ROA a.roa=ROA; 6 1
    2 noon; a.roa=ROA; a.roa=ROA x=empty x=empty a.roa=ROA; 6 2
    2 noon; a.roa=signed; a.roa=signed; new";

/// The payload of the manifest of a row, whose files are these.
fn next_of(alloc: Global, row: &str, files: &'static str) -> Option<Vec<u8>> {
    match row {
        "1 noon" => manifest(alloc, 1, NOON, files),
        "1 first" => manifest(alloc, 1, START, files),
        "2 first" => manifest(alloc, 2, START, files),
        "2 noon" => manifest(alloc, 2, NOON, files),
        _ => None,
    }
}

/// What a row says is answered.
fn want_of(text: &str) -> Option<Answer> {
    if text == "new" {
        return Some(Ok(Offered::New));
    }
    let mut words = Words { rest: text };
    let number = words.next().parse::<u8>().ok()?;
    Some(Err((number, words.next().parse::<usize>().ok())))
}

/// What an offer at noon is answered.
fn offer_next(alloc: Global, next: &[u8], files: &[FileIn]) -> Option<Answer> {
    match accepted(alloc) {
        Some(mut point) => offer(&mut point, next, files, NOON),
        None => None,
    }
}

/// Whether a row's offer is answered so.
fn is_offered(alloc: Global, line: &'static str) -> Option<bool> {
    let mut parts = line.split(';');
    let (row, listed) = (parts.next()?, parts.next()?);
    let (files, want) = (parts.next()?, parts.next()?);
    let want = want_of(want.trim())?;
    let files = files_of(alloc, files)?;
    let next = next_of(alloc, row, listed)?;
    Some(is(offer_next(alloc, next.as_slice(), files.as_slice()), &want))
}

fn are_offered(alloc: Global, rows: &'static str) -> bool {
    for line in rows.lines() {
        if is_offered(alloc, line.trim()) != Some(true) {
            return false;
        }
    }
    true
}

#[test]
fn judges_later_offers(rt: HostRuntime) {
    assert!(rt; are_offered(rt.alloc(), LATER_OFFERS));
}

#[test]
fn judges_the_least_file_and_its_first_fault(rt: HostRuntime) {
    assert!(rt; are_offered(rt.alloc(), LEAST));
}

/// The index of the file that is no ROA, and the number and the offset of its fault.
fn roa_fault(offered: Result<Offered, PointFault>) -> Option<(usize, u8, usize)> {
    match offered {
        Err(PointFault::Roa(index, fault)) => Some((index, fault.kind.number(), fault.offset)),
        _ => None,
    }
}

/// What a repository answers for a point.
fn offer_to(
    repository: &mut Repository,
    name: &str,
    manifest: &[u8],
    files: &[FileIn],
    now: &str,
) -> Option<Answer> {
    let now = Moment::parse(now)?;
    Some(answer(repository.offer(name, manifest, files, now)))
}

/// The payloads that are in use at a moment.
fn in_use(repository: &Repository, now: &str) -> Option<Vec<Vrp>> {
    repository.payloads(Moment::parse(now)?).ok()
}

/// Whether the payload of the ROA, and no other, is in use at a moment.
fn uses_the_roa(repository: &Repository, now: &str) -> bool {
    match in_use(repository, now) {
        Some(vrps) => is_alone(vrps.as_slice(), "192.0.2.0/24", 24),
        None => false,
    }
}

/// Whether no payload is in use at a moment.
fn uses_nothing(repository: &Repository, now: &str) -> bool {
    match in_use(repository, now) {
        Some(vrps) => vrps.is_empty(),
        None => false,
    }
}

/// Whether the first manifest is accepted for a point at a moment.
fn accepts_first(repository: &mut Repository, files: &[FileIn], name: &str, now: &str) -> bool {
    is(
        offer_to(repository, name, FIRST, files, now),
        &Ok(Offered::New),
    )
}

/// The fault of a maximum that is the prefix's length, at noon at a point that accepted the first manifest.
fn fault_of_superfluous(alloc: Global, repository: &mut Repository) -> Option<(usize, u8, usize)> {
    let noon = Moment::parse(NOON)?;
    let files = files_of(alloc, "a.roa=SUPERFLUOUS")?;
    let next = manifest(alloc, 2, NOON, "a.roa=SUPERFLUOUS")?;
    roa_fault(repository.offer("one", next.as_slice(), files.as_slice(), noon))
}

/// Whether a repository refuses that file, and uses the first one.
fn refuses_superfluous(alloc: Global, repository: &mut Repository) -> bool {
    let Some(files) = files_of(alloc, FILES) else {
        return false;
    };
    accepts_first(repository, files.as_slice(), "one", START)
        && fault_of_superfluous(alloc, repository) == Some((0, 20, 25))
        && uses_the_roa(repository, NOON)
}

#[test]
fn refuses_a_superfluous_maximum(rt: HostRuntime) {
    let mut repository = Repository::new(rt.alloc());
    assert!(rt; refuses_superfluous(rt.alloc(), &mut repository));
}

/// Whether the next manifest, which lists a second file of another object, is refused.
fn refuses_second(alloc: Global, repository: &mut Repository, files: &[FileIn]) -> bool {
    match manifest(alloc, 2, NOON, "a.roa=ROA b.roa=abc") {
        Some(next) => {
            let later = offer_to(repository, "one", next.as_slice(), files, NOON);
            is(later, &Err((8, Some(1))))
        }
        None => false,
    }
}

/// Whether a repository accepts the first manifest for two points, and in between refuses the next one for the first point.
fn refuses_the_next(alloc: Global, repository: &mut Repository) -> bool {
    let Some(files) = files_of(alloc, "a.roa=ROA b.roa=abb") else {
        return false;
    };
    accepts_first(repository, files.as_slice(), "one", START)
        && refuses_second(alloc, repository, files.as_slice())
        && accepts_first(repository, files.as_slice(), "two", NOON)
}

#[test]
fn keeps_what_is_in_use(rt: HostRuntime) {
    let mut repository = Repository::new(rt.alloc());
    assert!(rt; refuses_the_next(rt.alloc(), &mut repository));
    assert!(rt; uses_the_roa(&repository, END));
    assert!(rt; uses_nothing(&repository, LATE));
}

/// Whether only nextUpdate is looked at, and an offer that is refused, here as too late, removes nothing.
fn uses_until_next_update(alloc: Global, repository: &mut Repository) -> bool {
    let Some(files) = files_of(alloc, FILES) else {
        return false;
    };
    accepts_first(repository, files.as_slice(), "one", NOON)
        && uses_the_roa(repository, EARLY)
        && is(
            offer_to(repository, "one", FIRST, &[], LATE),
            &Err((3, None)),
        )
        && uses_the_roa(repository, END)
}

#[test]
fn uses_a_point_until_its_next_update(rt: HostRuntime) {
    let mut repository = Repository::new(rt.alloc());
    assert!(rt; uses_until_next_update(rt.alloc(), &mut repository));
}

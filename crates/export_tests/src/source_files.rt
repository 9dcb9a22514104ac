//! What sources serve of files whose records expire, of sets that end, and with several files of local exceptions.
use crate::slurm_files::file;
use der_lite::Moment;
use slurm::{SlurmFault, UniteFault};
use sources::{SlurmSetFault, Sources, TakeFault, TakeSetFault};
use std::alloc::Global;
use std::test::Fail;
use test_values::sets::set_of;
use vrps::VrpSet;

/// 14 November 2023, 22:13:20 UTC.
const NOW: u64 = 1_700_000_000;

/// Two records, of which the first expires two seconds later.
const TWO: &str = r#"{"roas":[{"asn":1,"prefix":"10.0.0.0/8","maxLength":8,"expires":1700000002},
    {"asn":2,"prefix":"10.0.0.0/8","maxLength":8}]}"#;

/// How many records are served at a moment.
fn served(sources: &Sources, text: &str) -> Option<usize> {
    let now = Moment::parse(text)?;
    match sources.served(now) {
        Ok(served) => Some(served.set.len()),
        Err(_) => None,
    }
}

/// Whether this many records are served at a moment.
fn serves(sources: &Sources, text: &str, count: usize) -> bool {
    served(sources, text) == Some(count)
}

/// Sources of this many lists, the first of which is this export.
fn taken(alloc: Global, lists: usize, text: &[u8]) -> Result<Sources, Fail> {
    let mut sources = Sources::new(alloc, lists)?;
    sources.take_export(0, text, NOW)?;
    Ok(sources)
}

/// Whether the first of the two records leaves at its expiry.
fn leaves(sources: &Sources) -> bool {
    serves(sources, "20231114221321Z", 2) && serves(sources, "20231114221322Z", 1)
}

#[test]
fn a_record_leaves_at_its_expiry(rt: HostRuntime) -> Result<(), Fail> {
    let sources = taken(rt.alloc(), 1, TWO.as_bytes())?;
    assert!(rt; leaves(&sources));
    assert!(rt; sources.expired(0, NOW + 1) == 0);
    assert!(rt; sources.expired(0, NOW + 2) == 1);
    Ok(())
}

/// Whether a bad file is refused, and the first record leaves even so.
fn leaves_refused(sources: &mut Sources) -> bool {
    let refused = sources.take_export(0, b"{", NOW + 2);
    matches!(&refused, Err(TakeFault::Export(_))) && leaves(sources)
}

#[test]
fn it_leaves_too_if_its_file_is_bad_by_then(rt: HostRuntime) -> Result<(), Fail> {
    let mut sources = taken(rt.alloc(), 1, TWO.as_bytes())?;
    assert!(rt; leaves_refused(&mut sources));
    Ok(())
}

/// Whether another file keeps the record.
fn keeps(sources: &mut Sources) -> bool {
    let list = br#"[{"asn":1,"prefix":"10.0.0.0/8","maxLength":8}]"#;
    sources.take_export(1, list, NOW).is_ok() && serves(sources, "20231114221322Z", 2)
}

#[test]
fn another_file_keeps_its_record(rt: HostRuntime) -> Result<(), Fail> {
    let mut sources = taken(rt.alloc(), 2, TWO.as_bytes())?;
    assert!(rt; keeps(&mut sources));
    assert!(rt; sources.expired(1, NOW + 2) == 0);
    assert!(rt; sources.expired(2, NOW + 2) == 0);
    Ok(())
}

/// Two records of one AS.
fn two_records(alloc: Global) -> Result<VrpSet, Fail> {
    Ok(set_of(alloc, &[("10.0.0.0/8", 8, 1), ("11.0.0.0/8", 8, 1)])?)
}

/// Whether a set beside the two records counts until its end.
fn ends(sources: &mut Sources, set: &VrpSet) -> bool {
    sources.take_set(1, set, Some(NOW + 2)).is_ok()
        && serves(sources, "20231114221321Z", 3)
        && sources.expired(1, NOW + 1) == 0
        && serves(sources, "20231114221322Z", 1)
        && sources.expired(1, NOW + 2) == 2
}

#[test]
fn a_set_counts_until_its_end(rt: HostRuntime) -> Result<(), Fail> {
    let set = two_records(rt.alloc())?;
    let mut sources = taken(rt.alloc(), 2, TWO.as_bytes())?;
    assert!(rt; ends(&mut sources, &set));
    Ok(())
}

/// Whether a set without an end counts until it is dropped.
fn counts_until_dropped(sources: &mut Sources, set: &VrpSet) -> bool {
    sources.take_set(0, set, None).is_ok()
        && serves(sources, "99991231235959Z", 2)
        && sources.take_set(1, set, None) == Err(TakeSetFault::NoSuchList)
        && !sources.drop_set(1)
        && serves(sources, "99991231235959Z", 2)
        && sources.drop_set(0)
        && serves(sources, "99991231235959Z", 0)
}

#[test]
fn a_set_without_an_end_counts_until_it_is_dropped(rt: HostRuntime) -> Result<(), Fail> {
    let set = two_records(rt.alloc())?;
    let mut sources = Sources::new(rt.alloc(), 1)?;
    assert!(rt; counts_until_dropped(&mut sources, &set));
    Ok(())
}

/// A file of local exceptions with one prefix filter.
fn filtering(alloc: Global, prefix: &str) -> Result<Vec<u8>, Fail> {
    let filters = format!(in alloc; r#"[{{"prefix":"{prefix}"}}]"#)?;
    let text = file(alloc, &[filters.as_str(), "[]", "[]", "[]"])?;
    Ok(text.into_bytes())
}

/// Files of local exceptions with a prefix filter each.
fn each_filtering(alloc: Global, prefixes: &[&str]) -> Result<Vec<Vec<u8>>, Fail> {
    let mut files = Vec::new(alloc);
    for prefix in prefixes {
        files.push(filtering(alloc, prefix)?)?;
    }
    Ok(files)
}

/// Whether files replace the local exceptions, and this many records are served then.
fn is_filtered(sources: &mut Sources, files: &[Vec<u8>], count: usize) -> bool {
    sources.take_slurms(files).is_ok() && serves(sources, THEN, count)
}

/// Two records, of 10.0.0.0/8 and of 11.0.0.0/8.
const PAIR: &[u8] =
    br#"[{"asn":1,"prefix":"10.0.0.0/8","maxLength":8},{"asn":1,"prefix":"11.0.0.0/8","maxLength":8}]"#;

const THEN: &str = "20231114221321Z";

#[test]
fn exceptions_of_two_files(rt: HostRuntime) -> Result<(), Fail> {
    let two = each_filtering(rt.alloc(), &["10.0.0.0/8", "11.0.0.0/8"])?;
    let one = each_filtering(rt.alloc(), &["10.0.0.0/8"])?;
    let mut sources = taken(rt.alloc(), 1, PAIR)?;
    assert!(rt; is_filtered(&mut sources, two.as_slice(), 0));
    assert!(rt; is_filtered(&mut sources, one.as_slice(), 1));
    assert!(rt; is_filtered(&mut sources, &[], 2));
    Ok(())
}

/// Whether files are refused, as the first and the third overlap.
fn overlap(sources: &mut Sources, files: &[Vec<u8>]) -> bool {
    let refused = sources.take_slurms(files);
    matches!(
        &refused,
        Err(SlurmSetFault::Unite(UniteFault::Overlap {
            first: 0,
            second: 2,
            ..
        }))
    )
}

#[test]
fn exceptions_that_overlap_change_nothing(rt: HostRuntime) -> Result<(), Fail> {
    let one = each_filtering(rt.alloc(), &["10.0.0.0/8"])?;
    let bad = each_filtering(rt.alloc(), &["11.0.0.0/8", "12.0.0.0/8", "11.0.0.0/16"])?;
    let mut sources = taken(rt.alloc(), 1, PAIR)?;
    assert!(rt; is_filtered(&mut sources, one.as_slice(), 1));
    assert!(rt; overlap(&mut sources, bad.as_slice()));
    assert!(rt; serves(&sources, THEN, 1));
    Ok(())
}

/// Files of which the second and the fourth cannot be read, and the first and the third overlap.
fn spoiled(alloc: Global) -> Result<Vec<Vec<u8>>, Fail> {
    let mut files = each_filtering(alloc, &["11.0.0.0/8"])?;
    files.push(Vec::from_slice(alloc, b"{")?)?;
    files.push(filtering(alloc, "11.0.0.0/8")?)?;
    files.push(Vec::from_slice(alloc, b"{}")?)?;
    Ok(files)
}

/// Whether files are refused, as the second is not JSON.
fn is_second_refused(sources: &mut Sources, files: &[Vec<u8>]) -> bool {
    sources.take_slurms(files)
        == Err(SlurmSetFault::File {
            index: 1,
            fault: SlurmFault::NotJson,
        })
}

#[test]
fn a_file_that_cannot_be_read_is_told_first(rt: HostRuntime) -> Result<(), Fail> {
    let files = spoiled(rt.alloc())?;
    let mut sources = Sources::new(rt.alloc(), 0)?;
    assert!(rt; is_second_refused(&mut sources, files.as_slice()));
    Ok(())
}

//! What sources serve of canonical cache representations, whose records end at a maximum age.
use der_lite::Moment;
use sources::{Sources, TakeCcrFault, TakeFault};
use std::alloc::Global;
use std::test::Fail;
use test_values::ccrs::{CACHE, MADE};

/// An hour, in seconds.
const HOUR: u64 = 3600;

/// A moment up to a maximum age of an hour, and the next second.
const LAST: &str = "20261201014119Z";

const LATER: &str = "20261201014120Z";

/// The representation.
fn cache(alloc: Global) -> Result<Vec<u8>, Fail> {
    match hex::decode(alloc, CACHE) {
        Ok(bytes) => Ok(bytes),
        Err(_) => Err(Fail::from("no hexadecimal digits")),
    }
}

/// Sources of two files, with a maximum age of an hour.
fn aged(alloc: Global) -> Result<Sources, Fail> {
    let mut sources = Sources::new(alloc, 2)?;
    sources.set_max_age(HOUR);
    Ok(sources)
}

/// How many records are served at a moment.
fn served(sources: &Sources, text: &str) -> Option<usize> {
    let now = Moment::parse(text)?;
    match sources.served(now) {
        Ok(served) => Some(served.set.len()),
        Err(_) => None,
    }
}

/// Whether the twelve records of a file leave when they are older than an hour.
fn leaves(sources: &Sources, file: usize) -> bool {
    served(sources, LAST) == Some(12)
        && sources.expired(file, MADE + HOUR) == 0
        && served(sources, LATER) == Some(0)
        && sources.expired(file, MADE + HOUR + 1) == 12
}

#[test]
fn records_leave_at_the_maximum_age(rt: HostRuntime) -> Result<(), Fail> {
    let bytes = cache(rt.alloc())?;
    let mut sources = aged(rt.alloc())?;
    assert!(rt; sources.take_export(0, bytes.as_slice(), MADE) == Ok(0));
    assert!(rt; leaves(&sources, 0));
    assert!(rt; sources.built(0) == Some(MADE));
    assert!(rt; sources.records(0) == 12);
    assert!(rt; sources.anchors(0).is_empty());
    Ok(())
}

#[test]
fn the_second_file_too(rt: HostRuntime) -> Result<(), Fail> {
    let bytes = cache(rt.alloc())?;
    let mut sources = aged(rt.alloc())?;
    assert!(rt; sources.take_export(1, bytes.as_slice(), MADE + HOUR) == Ok(0));
    assert!(rt; leaves(&sources, 1));
    Ok(())
}

#[test]
fn an_old_one_has_expired_at_its_load(rt: HostRuntime) -> Result<(), Fail> {
    let bytes = cache(rt.alloc())?;
    let mut sources = aged(rt.alloc())?;
    assert!(rt; sources.take_export(0, bytes.as_slice(), MADE + HOUR + 1) == Ok(12));
    assert!(rt; served(&sources, LAST) == Some(0));
    assert!(rt; sources.built(0) == Some(MADE));
    Ok(())
}

#[test]
fn without_a_maximum_age_it_is_refused(rt: HostRuntime) -> Result<(), Fail> {
    let bytes = cache(rt.alloc())?;
    let mut sources = Sources::new(rt.alloc(), 1)?;
    let Err(fault) = sources.take_export(0, bytes.as_slice(), MADE) else {
        return Err(Fail::from("it is not refused"));
    };
    assert!(rt; fault == TakeFault::Ccr(TakeCcrFault::NoMaxAge));
    let reason = "canonical cache representation: its records have no expiry: give --max-age";
    assert!(rt; fault.to_string(rt.alloc())?.as_str() == reason);
    Ok(())
}

/// Whether the first octets are refused with a fault of this number.
fn refuses(sources: &mut Sources, bytes: &[u8], number: u8) -> bool {
    match sources.take_export(0, bytes, MADE) {
        Err(TakeFault::Ccr(TakeCcrFault::Read(fault))) => fault.kind.number() == number,
        _ => false,
    }
}

#[test]
fn a_faulty_one_is_refused_and_the_last_is_served(rt: HostRuntime) -> Result<(), Fail> {
    let bytes = cache(rt.alloc())?;
    let mut sources = aged(rt.alloc())?;
    sources.take_export(0, bytes.as_slice(), MADE)?;
    let Some(cut) = bytes.as_slice().get(..655) else {
        return Err(Fail::from("it is shorter"));
    };
    assert!(rt; refuses(&mut sources, cut, 1));
    assert!(rt; leaves(&sources, 0));
    Ok(())
}

#[test]
fn json_is_read_beside_it(rt: HostRuntime) -> Result<(), Fail> {
    let bytes = cache(rt.alloc())?;
    let mut sources = aged(rt.alloc())?;
    sources.take_export(0, bytes.as_slice(), MADE)?;
    let list = br#"[{"asn":1,"prefix":"10.0.0.0/8","maxLength":8}]"#;
    assert!(rt; sources.take_export(1, list, MADE) == Ok(0));
    assert!(rt; served(&sources, LAST) == Some(13));
    assert!(rt; served(&sources, LATER) == Some(1));
    Ok(())
}

#[test]
fn a_json_text_is_none(rt: HostRuntime) -> Result<(), Fail> {
    let mut sources = aged(rt.alloc())?;
    assert!(rt;
        matches!(
            sources.take_export(0, b"0", MADE),
            Err(TakeFault::Export(_))
        )
    );
    assert!(rt;
        matches!(
            sources.take_export(0, &[0x30, 0x7f], MADE),
            Err(TakeFault::Export(_))
        )
    );
    assert!(rt;
        matches!(
            sources.take_export(0, &[0x30, 0x80], MADE),
            Err(TakeFault::Ccr(_))
        )
    );
    Ok(())
}

//! Walks over tables: circles, chains that meet, and the greatest depth.

use crate::table::Table;
use authority_walk::laws::one_answer;
use authority_walk::{MAX_DEPTH, Validation, validate};
use prefixes::{Asn, IpPrefix, Vrp};
use std::alloc::{AllocError, Global};
use std::test::Fail;

/// A VRP for each authority below this number: 192.0.2.0/24 of the AS with its number.
fn vrps_of(alloc: Global, count: u8) -> Result<Vec<(u8, Vrp)>, Fail> {
    let prefix = IpPrefix::parse("192.0.2.0/24")?;
    let mut vrps = Vec::new(alloc);
    for number in 0..count {
        vrps.push((number, Vrp::new(prefix, 24, Asn(u32::from(number)))?))?;
    }
    Ok(vrps)
}

/// A chain from authority 0 to this one.
fn chain_to(alloc: Global, last: u8) -> Result<Vec<(u8, u8)>, AllocError> {
    let mut issued = Vec::new(alloc);
    for number in 0..last {
        issued.push((number, number + 1))?;
    }
    Ok(issued)
}

/// The AS numbers of VRPs, ascending, each once.
fn numbers(alloc: Global, vrps: &[Vrp]) -> Result<Vec<u32>, AllocError> {
    let mut numbers = Vec::new(alloc);
    for vrp in vrps {
        numbers.push(vrp.asn().0)?;
    }
    numbers.sort_unstable();
    numbers.dedup();
    Ok(numbers)
}

#[test]
fn a_circle_ends(rt: HostRuntime) -> Result<(), Fail> {
    let vrps = vrps_of(rt.alloc(), 5)?;
    let mut table = Table {
        anchors: &[0],
        issued: &[(0, 1), (1, 2), (2, 0), (2, 2), (3, 4)],
        vrps: &vrps,
        begun: None,
    };
    let validated = validate(rt.alloc(), &mut table)?;
    assert_eq!(rt;
        numbers(rt.alloc(), &validated.vrps)?.as_slice(),
        [0, 1, 2].as_slice()
    );
    assert!(rt; !validated.has_deeper);
    Ok(())
}

#[test]
fn the_shorter_of_two_chains_counts(rt: HostRuntime) -> Result<(), Fail> {
    let vrps = vrps_of(rt.alloc(), 41)?;
    // 32 is at depth 32 by the chain, and at depth 1 by trust anchor 40; 34 is below it
    let mut issued = chain_to(rt.alloc(), 34)?;
    issued.push((40, 32))?;
    let mut table = Table {
        anchors: &[0, 40],
        issued: &issued,
        vrps: &vrps,
        begun: None,
    };
    let validated = validate(rt.alloc(), &mut table)?;
    let numbers = numbers(rt.alloc(), &validated.vrps)?;
    assert_eq!(rt; numbers.len(), 36);
    assert!(rt; numbers.contains(&34));
    assert!(rt; !validated.has_deeper);
    Ok(())
}

#[test]
fn a_chain_of_32_is_validated(rt: HostRuntime) -> Result<(), Fail> {
    let vrps = vrps_of(rt.alloc(), 34)?;
    let issued = chain_to(rt.alloc(), 32)?;
    let table = Table {
        anchors: &[0],
        issued: &issued,
        vrps: &vrps,
        begun: None,
    };
    let mut validation = Validation::new(rt.alloc(), table)?;
    assert!(rt; validation.steps(rt.alloc(), 200)?);
    assert_eq!(rt; (validation.depth(), validation.visited()), (MAX_DEPTH, 33));
    assert!(rt; !validation.has_deeper());
    let (_, validated) = validation.finish();
    assert_eq!(rt; validated.map(|v| v.vrps.len()), Some(33));
    Ok(())
}

#[test]
fn a_chain_of_33_is_cut(rt: HostRuntime) -> Result<(), Fail> {
    let vrps = vrps_of(rt.alloc(), 34)?;
    let issued = chain_to(rt.alloc(), 33)?;
    let table = Table {
        anchors: &[0],
        issued: &issued,
        vrps: &vrps,
        begun: None,
    };
    let mut validation = Validation::new(rt.alloc(), table)?;
    assert!(rt; !validation.steps(rt.alloc(), 1)?);
    assert_eq!(rt; (validation.waiting(), validation.visited()), (1, 0));
    assert!(rt; validation.vrps().is_none());
    assert!(rt; !validation.has_deeper());
    assert!(rt; validation.steps(rt.alloc(), 200)?);
    assert!(rt; validation.is_done());
    assert!(rt; validation.step(rt.alloc())?);
    assert_eq!(rt; validation.vrps().map(|vrps| vrps.len()), Some(33));
    assert!(rt; validation.has_deeper());
    Ok(())
}

#[test]
fn without_anchors_there_are_no_vrps(rt: HostRuntime) -> Result<(), Fail> {
    let vrps = vrps_of(rt.alloc(), 2)?;
    let mut table = Table {
        anchors: &[],
        issued: &[(0, 1)],
        vrps: &vrps,
        begun: None,
    };
    let validated = validate(rt.alloc(), &mut table)?;
    assert!(rt; validated.vrps.is_empty());
    one_answer::<Table>();
    Ok(())
}

use crate::telling::{V, begin, is_told, no_memory, set_of, tell, tell_payloads};
use der_lite::Moment;
use slurm::{SlurmFault, UniteFault, apply, read_slurm};
use sources::{SlurmSetFault, Sources};
use std::alloc::{AllocError, Global};

/// Filters of each kind, of which one matches the first payload, and an assertion of the second.
const FILE: &str = r#"{
    "slurmVersion": 1,
    "validationOutputFilters": {
        "prefixFilters": [{"asn": 1}, {"prefix": "192.0.0.0/16", "asn": 64496}, {"prefix": "2001:db8::/32"}],
        "bgpsecFilters": [{"asn": 1}]
    },
    "locallyAddedAssertions": {
        "prefixAssertions": [{"asn": 64497, "prefix": "198.51.100.0/24", "comment": "ours"}],
        "bgpsecAssertions": [{"asn": 1, "SKI": "Zm9v", "routerPublicKey": "Zm9v"}]
    }
}"#;

/// Reads the file and prints its assertions, or that memory ran out.
fn is_read(rt: &HostRuntime) -> bool {
    match read_slurm(rt.alloc(), FILE.as_bytes()) {
        Ok(slurm) => tell_payloads(rt, slurm.assertions.as_slice()),
        Err(SlurmFault::Memory) => return no_memory(rt),
        Err(_) => tell(rt, "another fault"),
    }
    true
}

#[test]
fn read_exceptions(rt: HostRuntime) {
    begin(rt.alloc());
    let _done = is_read(&rt) || is_read(&rt);
}

#[test]
fn apply_exceptions(rt: HostRuntime) {
    let alloc = rt.alloc();
    if let (Some(set), Ok(slurm)) = (set_of(alloc, &[V]), read_slurm(alloc, FILE.as_bytes())) {
        begin(alloc);
        let _done = is_told(&rt, apply(&slurm, alloc, &set))
            || is_told(&rt, apply(&slurm, alloc, &set));
    }
}

/// A file that is about nothing that the first one is about.
const OTHER: &str = r#"{
    "slurmVersion": 1,
    "validationOutputFilters": {
        "prefixFilters": [{"prefix": "10.0.0.0/8"}],
        "bgpsecFilters": [{"SKI": "Zm9v"}, {"asn": 2}]
    },
    "locallyAddedAssertions": {
        "prefixAssertions": [{"asn": 64498, "prefix": "203.0.113.0/24"}],
        "bgpsecAssertions": []
    }
}"#;

/// An assertion that the sources have before, and that the two files replace.
const BEFORE: &str = r#"{
    "slurmVersion": 1,
    "validationOutputFilters": {"prefixFilters": [], "bgpsecFilters": []},
    "locallyAddedAssertions": {
        "prefixAssertions": [{"asn": 64499, "prefix": "192.0.2.0/24"}],
        "bgpsecAssertions": []
    }
}"#;

fn files(alloc: Global, texts: &[&str]) -> Result<Vec<Vec<u8>>, AllocError> {
    let mut files = Vec::new(alloc);
    for text in texts {
        files.push(Vec::from_slice(alloc, text.as_bytes())?)?;
    }
    Ok(files)
}

/// Sources that have the assertion before.
fn sources_before(alloc: Global) -> Option<Sources> {
    let Ok(mut sources) = Sources::new(alloc, 0) else {
        return None;
    };
    if sources.take_slurm(BEFORE.as_bytes()).is_err() {
        return None;
    }
    Some(sources)
}

/// Prints what is served, or that there was no memory for it.
fn is_served(rt: &HostRuntime, sources: &Sources, now: Moment) -> bool {
    match sources.served(now) {
        Ok(served) => is_told(rt, Ok(served.set)),
        Err(fault) => is_told(rt, Err(fault)),
    }
}

/// Replaces the exceptions by those of the files, and prints the result.
fn are_taken(rt: &HostRuntime, sources: &mut Sources, files: &[Vec<u8>]) -> bool {
    match sources.take_slurms(files) {
        Ok(()) => tell(rt, "taken"),
        Err(
            SlurmSetFault::File {
                fault: SlurmFault::Memory,
                ..
            },
        ) => return no_memory(rt),
        Err(SlurmSetFault::Unite(UniteFault::Memory)) => return no_memory(rt),
        Err(_) => tell(rt, "another fault"),
    }
    true
}

/// Replaces the exceptions, prints what is served, and does so once more if memory ran out.
fn tell_taken(rt: &HostRuntime, sources: &mut Sources, files: &[Vec<u8>], now: Moment) {
    let taken = are_taken(rt, sources, files);
    let _told = is_served(rt, sources, now) || is_served(rt, sources, now);
    if !taken {
        let _again = are_taken(rt, sources, files);
        let _told = is_served(rt, sources, now);
    }
}

#[test]
fn take_files_of_exceptions(rt: HostRuntime) {
    let alloc = rt.alloc();
    if let (Some(now), Ok(two), Some(mut sources)) = (
        Moment::parse("20231114221320Z"),
        files(alloc, &[FILE, OTHER]),
        sources_before(alloc),
    ) {
        begin(alloc);
        tell_taken(&rt, &mut sources, two.as_slice(), now);
    }
}

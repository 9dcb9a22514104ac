//! Files of local exceptions. The rows of files, of faults and of results are in `tests/file_rows.py`.
use prefixes::{Asn, IpPrefix};
use slurm::{
    Ignored, Overlap, PrefixFilter, ScopedSlurm, Slurm, SlurmArray, SlurmEntryFault, SlurmFault,
    UniteFault, apply, fault_text, read_slurm, read_slurm_scoped, unite,
};
use std::alloc::Global;
use std::test::Fail;
use test_values::sets::{payload, set_in};

/// The full example of RFC 8416 section 3.5.
const FULL: &str = r#"{
  "slurmVersion": 1,
  "validationOutputFilters": {
    "prefixFilters": [
      {
        "prefix": "192.0.2.0/24",
        "comment": "All VRPs encompassed by prefix"
      },
      {
        "asn": 64496,
        "comment": "All VRPs matching ASN"
      },
      {
        "prefix": "198.51.100.0/24",
        "asn": 64497,
        "comment": "All VRPs encompassed by prefix, matching ASN"
      }
    ],
    "bgpsecFilters": [
      {
        "asn": 64496,
        "comment": "All keys for ASN"
      },
      {
        "SKI": "Zm9v",
        "comment": "Key matching Router SKI"
      },
      {
        "asn": 64497,
        "SKI": "YmFy",
        "comment": "Key for ASN 64497 matching Router SKI"
      }
    ]
  },
  "locallyAddedAssertions": {
    "prefixAssertions": [
      {
        "asn": 64496,
        "prefix": "198.51.100.0/24",
        "comment": "My other important route"
      },
      {
        "asn": 64496,
        "prefix": "2001:DB8::/32",
        "maxPrefixLength": 48,
        "comment": "My other important de-aggregated routes"
      }
    ],
    "bgpsecAssertions": [
      {
        "asn": 64496,
        "comment": "My known key for my important ASN",
        "SKI": "<some base64 SKI>",
        "routerPublicKey": "<some base64 public key>"
      }
    ]
  }
}
"#;

/// A file of these entries.
pub(crate) fn file(alloc: Global, arrays: &[&str; 4]) -> Result<String, Fail> {
    let [filters, bgpsec, assertions, keys] = *arrays;
    Ok(format!(in alloc;
        "{{\"slurmVersion\":1,\"validationOutputFilters\":{{\"prefixFilters\":{filters},\"bgpsecFilters\":{bgpsec}}},\"locallyAddedAssertions\":{{\"prefixAssertions\":{assertions},\"bgpsecAssertions\":{keys}}}}}"
    )?)
}

/// A filter of a prefix, of an AS, or of both.
fn filter(prefix: &str, asn: Option<u32>) -> PrefixFilter {
    PrefixFilter {
        prefix: IpPrefix::parse(prefix).ok(),
        asn: asn.map(Asn),
    }
}

/// Whether these are the filters of the example.
fn are_filters(filters: &[PrefixFilter]) -> bool {
    let wanted = [
        filter("192.0.2.0/24", None),
        filter("", Some(64496)),
        filter("198.51.100.0/24", Some(64497)),
    ];
    *filters == *wanted.as_slice()
}

/// Whether these are the exceptions of the example.
fn are_full(alloc: Global, slurm: &Slurm) -> bool {
    let rows = [("198.51.100.0/24", 24, 64496), ("2001:db8::/32", 48, 64496)];
    match set_in(alloc, &rows) {
        Some(assertions) => {
            slurm.assertions.is_same(&assertions) && are_filters(slurm.filters.as_slice())
        }
        None => false,
    }
}

/// Whether the example is read.
fn is_read(alloc: Global) -> bool {
    match read_slurm(alloc, FULL.as_bytes()) {
        Ok(slurm) => are_full(alloc, &slurm),
        Err(_) => false,
    }
}

/// Whether what is not applied of the example is counted.
fn counts(full: &ScopedSlurm) -> bool {
    let filters = [Some(Asn(64496)), None, Some(Asn(64497))];
    let ignored = Ignored {
        bgpsec_filters: 3,
        bgpsec_assertions: 1,
    };
    full.bgpsec_filters.as_slice() == filters.as_slice()
        && full.bgpsec_assertions.as_slice() == [Asn(64496)].as_slice()
        && full.ignored() == ignored
}

/// Whether the example is read with what is not applied of it, and without it.
fn is_read_scoped(alloc: Global) -> bool {
    match read_slurm_scoped(alloc, FULL.as_bytes()) {
        Ok(full) => counts(&full) && are_full(alloc, &full.into_exceptions()),
        Err(_) => false,
    }
}

#[test]
fn the_full_example_is_read(rt: HostRuntime) {
    assert!(rt; is_read(rt.alloc()));
    assert!(rt; is_read_scoped(rt.alloc()));
}

/// Whether a text has this fault, which is reported so.
fn is_refused(alloc: Global, text: &str, fault: SlurmFault, words: &str) -> bool {
    match read_slurm(alloc, text.as_bytes()) {
        Ok(_) => false,
        Err(found) => match fault_text(alloc, text.as_bytes(), found) {
            Ok(told) => found == fault && told.as_str() == words,
            Err(_) => false,
        },
    }
}

/// A file whose second filter is a number.
const SEVEN: &str =
    r#"{"slurmVersion":1,"validationOutputFilters":{"prefixFilters":[{"asn":1},7],"bgpsecFilters":[]},"locallyAddedAssertions":{"prefixAssertions":[],"bgpsecAssertions":[]}}"#;

#[test]
fn a_fault_has_its_place(rt: HostRuntime) {
    let fault = SlurmFault::Entry(SlurmArray::PrefixFilters, 1, SlurmEntryFault::NoObject);
    let words = "prefixFilters[1]: 7 is not an object (fault 5)";
    assert!(rt; is_refused(rt.alloc(), SEVEN, fault, words));
    assert!(rt; fault.number() == 5);
}

#[test]
fn a_filter_matches_what_its_keys_say(rt: HostRuntime) -> Result<(), Fail> {
    let vrp = payload("10.1.0.0/16", 24, 64497)?;
    assert!(rt; filter("10.0.0.0/8", Some(64497)).matches(&vrp));
    assert!(rt; !filter("10.0.0.0/8", Some(64496)).matches(&vrp));
    Ok(())
}

/// Reads files whose first array is each of these, and whose second is this one.
fn filtering(alloc: Global, filters: &[&str], keys: &str) -> Result<Vec<ScopedSlurm>, Fail> {
    let mut files = Vec::new(alloc);
    for entries in filters {
        let text = file(alloc, &[entries, keys, "[]", "[]"])?;
        files.push(read_slurm_scoped(alloc, text.as_bytes())?)?;
    }
    Ok(files)
}

/// Whether files as one leave this many of two records, of 192.0.2.0/25 and of 10.0.0.0/8.
fn leave(alloc: Global, files: &[ScopedSlurm], count: usize) -> bool {
    let rows = [("192.0.2.0/25", 25, 64496), ("10.0.0.0/8", 8, 64496)];
    match (unite(alloc, files), set_in(alloc, &rows)) {
        (Ok(slurm), Some(set)) => match apply(&slurm, alloc, &set) {
            Ok(left) => left.len() == count,
            Err(_) => false,
        },
        _ => false,
    }
}

/// Whether this is the prefix of a text.
fn is_prefix(prefix: &IpPrefix, text: &str) -> bool {
    match IpPrefix::parse(text) {
        Ok(other) => other == *prefix,
        Err(_) => false,
    }
}

/// Whether these overlap: 192.0.2.0/25 with 192.0.2.0/24, or entries of AS64496.
fn are_these(what: &Overlap) -> bool {
    match what {
        Overlap::Prefixes(first, second) => {
            is_prefix(first, "192.0.2.0/25") && is_prefix(second, "192.0.2.0/24")
        }
        Overlap::Bgpsec(asn) => asn.0 == 64496,
    }
}

/// Whether the first of these files overlaps with the one at this index.
fn overlap(alloc: Global, files: &[ScopedSlurm], other: usize) -> bool {
    let united = unite(alloc, files);
    match &united {
        Err(
            UniteFault::Overlap {
                first,
                second,
                what,
            },
        ) => *first == 0 && *second == other && are_these(what),
        _ => false,
    }
}

#[test]
fn files_are_united(rt: HostRuntime) -> Result<(), Fail> {
    assert!(rt; leave(rt.alloc(), &[], 2));
    let apart = [r#"[{"prefix":"192.0.2.0/25"}]"#, r#"[{"asn":64497}]"#];
    let files = filtering(rt.alloc(), &apart, "[]")?;
    assert!(rt; leave(rt.alloc(), files.as_slice(), 1));
    Ok(())
}

#[test]
fn files_overlap(rt: HostRuntime) -> Result<(), Fail> {
    let three = [
        r#"[{"prefix":"192.0.2.0/25"}]"#,
        r#"[{"prefix":"198.51.100.0/24"}]"#,
        r#"[{"prefix":"192.0.2.0/24"}]"#,
    ];
    let files = filtering(rt.alloc(), &three, "[]")?;
    assert!(rt; overlap(rt.alloc(), files.as_slice(), 2));
    let files = filtering(rt.alloc(), &["[]", "[]"], r#"[{"asn":64496}]"#)?;
    assert!(rt; overlap(rt.alloc(), files.as_slice(), 1));
    Ok(())
}

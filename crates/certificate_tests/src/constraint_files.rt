//! Constraints of a trust anchor: what each line says, and which resources pass.
use constraints::{
    ConstraintAction, ConstraintFaultKind, ConstraintRefusal, ConstraintsError, read_constraints,
};
use resources::{ResourceKind, ResourceRange, ResourceSet};
use std::alloc::Global;
use std::test::Fail;

/// A file with a fault, its kind and its line.
struct Faulty {
    file: &'static str,
    kind: ConstraintFaultKind,
    line: usize,
}

/// Each fault, with its line. Of two faults the first counts.
const WORDS: [Faulty; 9] = [
    Faulty {
        file: "allow 1\n\n# c\nblock 2\n",
        kind: ConstraintFaultKind::Word,
        line: 4,
    },
    Faulty {
        file: "Allow 1",
        kind: ConstraintFaultKind::Word,
        line: 1,
    },
    Faulty {
        file: "allow1\n",
        kind: ConstraintFaultKind::Word,
        line: 1,
    },
    Faulty {
        file: "deny\n",
        kind: ConstraintFaultKind::NoValue,
        line: 1,
    },
    Faulty {
        file: "deny # 10.0.0.0/8\n",
        kind: ConstraintFaultKind::NoValue,
        line: 1,
    },
    Faulty {
        file: "allow 10.0.0.0 - \n",
        kind: ConstraintFaultKind::NoValue,
        line: 1,
    },
    Faulty {
        file: "allow 10.0.0.0/8 11.0.0.0/8\n",
        kind: ConstraintFaultKind::SecondValue,
        line: 1,
    },
    Faulty {
        file: "allow 1 - 2 3\nallow 4 - 3\n",
        kind: ConstraintFaultKind::SecondValue,
        line: 1,
    },
    Faulty {
        file: "deny 10.0.0.0/8\u{a0}\n",
        kind: ConstraintFaultKind::NotAscii,
        line: 1,
    },
];

/// Faults of a value.
const VALUES: [Faulty; 14] = [
    Faulty {
        file: "allow 192.0.2.1\n",
        kind: ConstraintFaultKind::Value,
        line: 1,
    },
    Faulty {
        file: "allow 192.0.2/24\n",
        kind: ConstraintFaultKind::Value,
        line: 1,
    },
    Faulty {
        file: "allow 192.0.2.0/24 - 192.0.3.0/24\n",
        kind: ConstraintFaultKind::Value,
        line: 1,
    },
    Faulty {
        file: "allow AS1\n",
        kind: ConstraintFaultKind::Value,
        line: 1,
    },
    Faulty {
        file: "allow 192.0.2.0/33\n",
        kind: ConstraintFaultKind::TooLong,
        line: 1,
    },
    Faulty {
        file: "allow 2001:db8::/129\n",
        kind: ConstraintFaultKind::TooLong,
        line: 1,
    },
    Faulty {
        file: "allow 192.0.2.1/24\n",
        kind: ConstraintFaultKind::HostBits,
        line: 1,
    },
    Faulty {
        file: "allow 2001:db8::1/127\n",
        kind: ConstraintFaultKind::HostBits,
        line: 1,
    },
    Faulty {
        file: "deny 4294967296\n",
        kind: ConstraintFaultKind::AsNumber,
        line: 1,
    },
    Faulty {
        file: "deny 1 - 01\n",
        kind: ConstraintFaultKind::AsNumber,
        line: 1,
    },
    Faulty {
        file: "allow 192.0.2.0 - 2001:db8::\n",
        kind: ConstraintFaultKind::Families,
        line: 1,
    },
    Faulty {
        file: "allow 192.0.2.0 - 64496\n",
        kind: ConstraintFaultKind::Families,
        line: 1,
    },
    Faulty {
        file: "allow 192.0.2.1 - 192.0.2.0\n",
        kind: ConstraintFaultKind::Order,
        line: 1,
    },
    Faulty {
        file: "allow 1\r\nallow 64497 - 64496\r\n",
        kind: ConstraintFaultKind::Order,
        line: 2,
    },
];

/// Whether a file has this first fault.
fn has_fault(alloc: Global, faulty: &Faulty) -> bool {
    match read_constraints(alloc, faulty.file.as_bytes()) {
        Err(ConstraintsError::At(kind, line)) => kind == faulty.kind && line == faulty.line,
        _ => false,
    }
}

/// Whether each file has its first fault.
fn have_faults(alloc: Global, all: &[Faulty]) -> bool {
    for faulty in all {
        if !has_fault(alloc, faulty) {
            return false;
        }
    }
    true
}

#[test]
fn words_have_faults(rt: HostRuntime) -> Result<(), Fail> {
    assert!(rt; have_faults(rt.alloc(), WORDS.as_slice()));
    Ok(())
}

#[test]
fn values_have_faults(rt: HostRuntime) -> Result<(), Fail> {
    assert!(rt; have_faults(rt.alloc(), VALUES.as_slice()));
    Ok(())
}

/// What the last entry of a file says.
fn last_entry(
    alloc: Global,
    file: &[u8],
) -> Option<(usize, ConstraintAction, ResourceKind, ResourceRange)> {
    let Ok(constraints) = read_constraints(alloc, file) else {
        return None;
    };
    match constraints.as_slice().last() {
        Some(entry) => Some((entry.line, entry.action, entry.kind, entry.range)),
        None => None,
    }
}

/// A line, and what it says: whether it allows, of what kind, and the ends of its range.
struct Said {
    file: &'static str,
    line: usize,
    action: ConstraintAction,
    kind: ResourceKind,
    low: u128,
    high: u128,
}

/// Forms of an entry, at both ends of what may be written.
const SAID: [Said; 8] = [
    Said {
        file: "allow 192.0.2.0/24",
        line: 1,
        action: ConstraintAction::Allow,
        kind: ResourceKind::Ipv4,
        low: 0xc0000200,
        high: 0xc00002ff,
    },
    Said {
        file: "\n \t# c\n\tdeny\t0.0.0.0/0 \t# all\r\n",
        line: 3,
        action: ConstraintAction::Deny,
        kind: ResourceKind::Ipv4,
        low: 0,
        high: 0xffffffff,
    },
    Said {
        file: "deny 192.0.2.0-192.0.2.0\n",
        line: 1,
        action: ConstraintAction::Deny,
        kind: ResourceKind::Ipv4,
        low: 0xc0000200,
        high: 0xc0000200,
    },
    Said {
        file: "allow ::/0",
        line: 1,
        action: ConstraintAction::Allow,
        kind: ResourceKind::Ipv6,
        low: 0,
        high: 0xffffffffffffffffffffffffffffffff,
    },
    Said {
        file: "allow ::ffff:192.0.2.0 - ::ffff:192.0.2.1",
        line: 1,
        action: ConstraintAction::Allow,
        kind: ResourceKind::Ipv6,
        low: 0xffffc0000200,
        high: 0xffffc0000201,
    },
    Said {
        file: "deny ::1/128\n",
        line: 1,
        action: ConstraintAction::Deny,
        kind: ResourceKind::Ipv6,
        low: 1,
        high: 1,
    },
    Said {
        file: "allow 0\nallow 4294967295\n\n",
        line: 2,
        action: ConstraintAction::Allow,
        kind: ResourceKind::As,
        low: 4294967295,
        high: 4294967295,
    },
    Said {
        file: "deny 64496 - 64511#c",
        line: 1,
        action: ConstraintAction::Deny,
        kind: ResourceKind::As,
        low: 64496,
        high: 64511,
    },
];

/// Whether each file says this.
fn all_say(alloc: Global, all: &[Said]) -> bool {
    for said in all {
        let range = ResourceRange {
            low: said.low,
            high: said.high,
        };
        if last_entry(alloc, said.file.as_bytes())
            != Some((said.line, said.action, said.kind, range))
        {
            return false;
        }
    }
    true
}

#[test]
fn entries_are_read(rt: HostRuntime) -> Result<(), Fail> {
    assert!(rt; all_say(rt.alloc(), SAID.as_slice()));
    Ok(())
}

/// A file, resources, and the verdict. No range: its second number is below its first.
struct Case {
    file: &'static str,
    v4: (u128, u128),
    v6: (u128, u128),
    verdict: Result<(), ConstraintRefusal>,
}

/// No range.
const NONE: (u128, u128) = (1, 0);

/// 192.0.2.0/24.
const NET: (u128, u128) = (0xc0000200, 0xc00002ff);

/// 2001:db8::/32.
const NET6: (u128, u128) = (
    0x20010db8000000000000000000000000,
    0x20010db8ffffffffffffffffffffffff,
);

/// The verdict on addresses, on both sides of each end.
const CASES: [Case; 17] = [
    Case {
        file: "",
        v4: NET,
        v6: NET6,
        verdict: Ok(()),
    },
    Case {
        file: "deny 198.51.100.0/24\nallow 64496\n",
        v4: NET,
        v6: NONE,
        verdict: Ok(()),
    },
    Case {
        file: "allow 2001:db8::/32 # IPv6 alone\n",
        v4: NET,
        v6: NONE,
        verdict: Err(ConstraintRefusal::NotAllowed),
    },
    Case {
        file: "allow 2001:db8::/32 # IPv6 alone\n",
        v4: NONE,
        v6: NET6,
        verdict: Ok(()),
    },
    Case {
        file: "allow 0.0.0.0/0\n",
        v4: NET,
        v6: NET6,
        verdict: Err(ConstraintRefusal::NotAllowed),
    },
    Case {
        file: "deny 192.0.3.0/24\n",
        v4: NET,
        v6: NONE,
        verdict: Ok(()),
    },
    Case {
        file: "deny 192.0.3.0/24\n",
        v4: (0xc0000200, 0xc0000300),
        v6: NONE,
        verdict: Err(ConstraintRefusal::Denied { line: 1 }),
    },
    Case {
        file: "deny 192.0.1.0 - 192.0.2.0\n",
        v4: NET,
        v6: NONE,
        verdict: Err(ConstraintRefusal::Denied { line: 1 }),
    },
    Case {
        file: "deny 192.0.1.0 - 192.0.2.0\n",
        v4: (0xc0000201, 0xc00002ff),
        v6: NONE,
        verdict: Ok(()),
    },
    Case {
        file: "allow 192.0.2.0/25\nallow 192.0.2.128 - 192.0.2.255",
        v4: NET,
        v6: NONE,
        verdict: Ok(()),
    },
    Case {
        file: "allow 192.0.2.0/25\nallow 192.0.2.128 - 192.0.2.255",
        v4: (0xc0000200, 0xc0000300),
        v6: NONE,
        verdict: Err(ConstraintRefusal::NotAllowed),
    },
    Case {
        file: "allow 192.0.2.0/25\nallow 192.0.2.128 - 192.0.2.255",
        v4: (0xc00001ff, 0xc00002ff),
        v6: NONE,
        verdict: Err(ConstraintRefusal::NotAllowed),
    },
    Case {
        file: "allow 192.0.2.100 - 192.0.2.255\nallow 192.0.2.0 - 192.0.2.200\n",
        v4: NET,
        v6: NONE,
        verdict: Ok(()),
    },
    Case {
        file: "allow 192.0.2.0/24\ndeny 10.0.0.0/8\ndeny 192.0.2.7/32\ndeny 192.0.2.0/24\n",
        v4: NET,
        v6: NONE,
        verdict: Err(ConstraintRefusal::Denied { line: 3 }),
    },
    Case {
        file: "deny ::/0\n",
        v4: NET,
        v6: NONE,
        verdict: Ok(()),
    },
    Case {
        file: "deny 2001:db8:ffff::/48\n",
        v4: NET,
        v6: NET6,
        verdict: Err(ConstraintRefusal::Denied { line: 1 }),
    },
    // 192.0.2.0 as an AS number
    Case {
        file: "deny 3221225984\n",
        v4: NET,
        v6: NONE,
        verdict: Ok(()),
    },
];

/// The set of one range.
fn set_of(alloc: Global, range: (u128, u128)) -> Option<ResourceSet> {
    let none = ResourceSet::empty(alloc);
    let range = ResourceRange {
        low: range.0,
        high: range.1,
    };
    match none.with(alloc, range) {
        Ok(set) => Some(set),
        Err(_) => None,
    }
}

/// Whether a file judges as it should.
fn judges(alloc: Global, case: &Case) -> bool {
    let Ok(constraints) = read_constraints(alloc, case.file.as_bytes()) else {
        return false;
    };
    let Some(v4) = set_of(alloc, case.v4) else {
        return false;
    };
    let Some(v6) = set_of(alloc, case.v6) else {
        return false;
    };
    constraints.judge(&v4, &v6) == case.verdict
}

/// Whether each file judges as it should.
fn all_judge(alloc: Global, all: &[Case]) -> bool {
    for case in all {
        if !judges(alloc, case) {
            return false;
        }
    }
    true
}

#[test]
fn addresses_are_judged(rt: HostRuntime) -> Result<(), Fail> {
    assert!(rt; all_judge(rt.alloc(), CASES.as_slice()));
    Ok(())
}

/// What a file says of AS numbers.
fn judge_as(
    alloc: Global,
    file: &[u8],
    numbers: (u128, u128),
) -> Option<Result<(), ConstraintRefusal>> {
    let Ok(constraints) = read_constraints(alloc, file) else {
        return None;
    };
    let numbers = set_of(alloc, numbers)?;
    Some(constraints.judge_as(&numbers))
}

#[test]
fn as_numbers_are_judged(rt: HostRuntime) -> Result<(), Fail> {
    let file = b"allow 192.0.2.0/24\ndeny 64500\nallow 64496 - 64511\n";
    assert!(rt; judge_as(rt.alloc(), file, (64511, 64511)) == Some(Ok(())));
    assert!(rt;
        judge_as(rt.alloc(), file, (64511, 64512)) == Some(Err(ConstraintRefusal::NotAllowed))
    );
    assert!(rt;
        judge_as(rt.alloc(), file, (64496, 64500))
            == Some(Err(ConstraintRefusal::Denied { line: 2 }))
    );
    assert!(rt; judge_as(rt.alloc(), b"allow 192.0.2.0/24\n", (64496, 64496)) == Some(Ok(())));
    Ok(())
}

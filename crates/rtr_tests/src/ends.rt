//! Ends of links, and faults of routers.
use rtr_ends::{AskFault, End, StreamFault};

/// Ends of links, and their numbers.
const ENDS: &[(End, u8)] = &[
    (End::Reported(7), 1),
    (End::Told(2), 2),
    (End::Malformed, 3),
    (End::Memory, 4),
    (End::Expired, 5),
    (End::TooMany, 6),
];

fn have_numbers(ends: &[(End, u8)]) -> bool {
    for (end, number) in ends {
        if end.number() != *number {
            return false;
        }
    }
    true
}

/// The numbers of all faults are printed by `page_texts`.
#[test]
fn ends_and_faults_have_numbers(rt: HostRuntime) {
    assert!(rt; have_numbers(ENDS));
    assert!(rt; AskFault::NotConnected.number() == 2 && StreamFault::Memory.number() == 3);
}

//! The search for the groups that cover a prefix, the longest first.
ghost use Rattle.std.specs.Prelude.{◌≡◌, ◌+◌, ◌*◌, ◌≤◌, ◌<◌, ◌^◌, length, option_map};
ghost use Rattle.vrps.specs.Found.{IsLastOf};
ghost use Rattle.vrps.specs.Keys.{key_prefix};
ghost use Rattle.vrps.specs.Search.{CostsDigits, CostsLengths, IsLeft, IsNext, IsUpTo, digit_count};

use crate::groups::{Group, Groups};
use crate::key::Key;
use prefixes::{IpPrefix, Vrp};

/// What is left of a search: the groups at the first places, and the lengths from 0 on.
#[derive(Clone, Copy)]
pub(crate) struct Rest {
    pub(crate) places: usize,
    pub(crate) lengths: u8,
}

/// The longest group, of those that are left, that covers the prefix. A group that doesn't cover it shows by the bits that both
/// share which lengths need no try.
pub(crate) fn next_covering<'a>(
    groups: &'a Groups,
    prefix: &IpPrefix,
    rest: &mut Rest,
    probes: &mut u32,
) -> Option<&'a [Vrp]>
    requires left { IsLeft groups.now.records.items groups.now.starts.items prefix.now rest.old.places rest.old.lengths }
    requires probes { probes.old + rest.old.lengths * digit_count (length groups.now.starts.items) + length groups.now.starts.items < 2 ^ 32 }
    ensures next { IsNext groups.now.records.items groups.now.starts.items prefix.now rest.old.places rest.old.lengths rest.new.places rest.new.lengths (option_map (λ group. group.now) result) }
    ensures cost { CostsLengths (length groups.now.starts.items) rest.old.lengths rest.new.lengths probes.old probes.new }
    ensures some { 0 < rest.old.places → 0 < rest.old.lengths → probes.old < probes.new }
{
    while rest.lengths > 0 {
        rest.lengths -= 1;
        let key = Key::cut(prefix, rest.lengths);
        let found = last_up_to(groups, rest.places, &key, probes);
        rest.places = found.places;
        let Some(group) = found.last else {
            rest.lengths = 0;
            return None;
        };
        let other = group.key();
        if other.covers(prefix) {
            rest.places -= 1;
            rest.lengths = other.len();
            return Some(group.records());
        }
        rest.lengths = rest.lengths.min(other.shared_lengths(prefix));
    }
    None
}

/// The groups up to a key.
#[derive(Clone, Copy)]
struct UpTo<'a> {
    /// How many there are.
    places: usize,
    last: Option<Group<'a>>,
}

/// Of the groups at the first places those that are not after the key.
fn last_up_to<'a>(groups: &'a Groups, places: usize, key: &Key, probes: &mut u32) -> UpTo<'a>
    requires places { places ≤ length groups.now.starts.items }
    requires probes { probes.old + places < 2 ^ 32 }
    ensures found { IsUpTo groups.now.records.items groups.now.starts.items places (key_prefix key.now) result.places }
    ensures last { IsLastOf groups.now result.places result.last }
    ensures cost { CostsDigits places probes.old probes.new }
    ensures some { 0 < places → probes.old < probes.new }
{
    let mut low = 0;
    let mut high = places;
    let mut last = None;
    while low < high {
        let middle = low + (high - low) / 2;
        let group = groups.at(middle, probes);
        if group.key().is_up_to(key) {
            low = middle + 1;
            last = Some(group);
        } else {
            high = middle;
        }
    }
    UpTo { places: low, last }
}

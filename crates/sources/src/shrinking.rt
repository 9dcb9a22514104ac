//! Whether an export is far shorter than what its file has given so far.
ghost use Rattle.std.specs.Prelude.{◌≡◌, ℕ, false, true, Some, IfNone, IfSome};
ghost use Rattle.sources.specs.Shrinking.{is_guarded, is_too_short};
ghost use Rattle.sources.specs.declared.fault.TakeFault.TheVariants.{Shrank};

use crate::fault::TakeFault;

/// A file that had fewer records may lose them all.
const LEAST: u64 = 1000;

/// Why an export is refused that is too short: there were `had` records of its file, and `has` are left. Without a percentage nothing is too short.
pub(crate) fn shrinking(guard: Option<u8>, had: u64, has: u64) -> Option<TakeFault>
    ensures some { IfSome result (λ fault. (percent : ℕ) × (guard ≡ Some percent) × (fault ≡ Shrank percent had has) × (is_too_short percent had has ≡ true)) }
    ensures none { IfNone result (is_guarded guard had has ≡ false) }
{
    let percent = guard?;
    if is_too_short(percent, had, has) {
        return Some(TakeFault::Shrank { percent, had, has });
    }
    None
}

/// Returns whether an export has too few records. `had` is the number of records before, and `has` the number now.
///
/// It is true if `had` is 1,000 or more, and more than `percent` percent of them are gone. It is false if `percent` is 100 or more.
pub fn is_too_short(percent: u8, had: u64, has: u64) -> bool
    ensures { result ≡ is_too_short percent had has }
{
    let least = 100_u8.saturating_sub(percent);
    had >= LEAST && u128::from(has) * 100 < u128::from(had) * u128::from(least)
}

//! What a point accepted last.

ghost use Rattle.std.specs.Prelude.{◌≡◌, ◌++◌, OnOk};
ghost use Rattle.std.specs.Option.{option_copied};
ghost use Rattle.points.specs.Accepted.{IsPoint};
ghost use Rattle.points.specs.InUse.{held_payloads, used_payloads};

use crate::judging::is_before;
use der_lite::Moment;
use payloads::{Manifest, Roa};
use prefixes::Vrp;
use std::alloc::{AllocError, Global};
use std::marker::Model;

/// A manifest with its bytes, and the ROAs that it lists.
#[derive(Debug, Drop)]
pub(crate) struct Accepted {
    pub(crate) bytes: Vec<u8>,
    pub(crate) manifest: Manifest,
    pub(crate) roas: Vec<Roa>,
}

impl Model for Accepted {
    ghost use Rattle.payloads.specs.Manifest.{ManifestSpells};
    ghost use Rattle.points.specs.Accepted.{Accepted as Held};

    ghost Value = { Held };

    ghost view = { λ a. record { bytes = a.bytes.items; manifest = a.manifest; roas = a.roas.items } };

    ghost invariant = { λ a. ManifestSpells a.manifest a.bytes.items };
}

impl Accepted {
    /// Adds the payloads that are in use at a moment: all of them, or none if nextUpdate is before
    /// it.
    pub(crate) fn add_used(
        &self,
        alloc: Global,
        now: &Moment,
        vrps: &mut Vec<Vrp>,
    ) -> Result<(), AllocError>
        ensures { OnOk result (vrps.new.items ≡ vrps.old.items ++ used_payloads now.now self.now) }
    {
        if is_before(self.manifest.next_update(), now) {
            return Ok(());
        }
        self.add_payloads(alloc, vrps)
    }

    /// Adds the payloads that the ROAs validate, a ROA after the other.
    fn add_payloads(&self, alloc: Global, vrps: &mut Vec<Vrp>) -> Result<(), AllocError>
        ensures { OnOk result (vrps.new.items ≡ vrps.old.items ++ held_payloads self.now) }
    {
        for roa in &self.roas {
            let more = roa.vrps(alloc)?;
            vrps.extend_from_slice(more.as_slice())?;
        }
        Ok(())
    }
}

/// Looks at what was accepted. That its bytes spell its manifest is known of a value that is looked
/// at.
pub(crate) fn know_accepted(before: Option<&Accepted>)
    ensures { IsPoint (option_copied before.entry) }
{
    if let Some(last) = before {
        let _bytes = &last.bytes;
    }
}

//! A reader of tables.

ghost use Rattle.std.specs.Prelude.{◌≡◌, ◌↔◌, ℕ, List, Option, Some, IfOk};
ghost use Rattle.std.specs.List.{Contains};
ghost use Rattle.prefixes.specs.Payload.{Payload};
ghost use Rattle.authority_tests.specs.Tables.{Table as Rows, hierarchy_of, parts_left};
ghost use Rattle.authority_tests.specs.Numbers.{same_number};

use authority_walk::{Found, Reader};
use prefixes::Vrp;
use std::alloc::{AllocError, Global};

/// Authorities by their numbers. A publication point is read in two parts.
#[derive(Debug, Drop)]
pub struct Table<'a> {
    /// Those of the trust anchors.
    pub anchors: &'a [u8],
    /// Pairs of which the first issued the second.
    pub issued: &'a [(u8, u8)],
    /// Pairs of which the first validates the second.
    pub vrps: &'a [(u8, Vrp)],
    /// The authority of which the first part was read.
    pub begun: Option<u8>,
}

/// The second of each pair with this number.
fn of<T: Copy>(alloc: Global, pairs: &[(u8, T)], number: u8) -> Result<Vec<T>, AllocError>
    ensures { IfOk result (λ found. (x : T) → Contains found.items x ↔ Contains pairs.now (number, x)) }
{
    let mut found = Vec::new(alloc);
    for pair in pairs {
        if pair.0 == number {
            found.push(pair.1)?;
        }
    }
    Ok(found)
}

impl<'a> Reader for Table<'a> {
    type Authority = u8;

    ghost Files = { Rows };

    ghost files = { λ t. record { anchors = t.anchors.now; issued = t.issued.now; vrps = t.vrps.now } };

    ghost Value = { ℕ };

    ghost value = { λ a. a };

    ghost hierarchy = { hierarchy_of };

    ghost left = { λ t by. parts_left t.begun by };

    fn anchors(&mut self, alloc: Global) -> Result<Vec<u8>, AllocError> {
        self.anchors.to_vec(alloc)
    }

    fn read(&mut self, alloc: Global, by: &u8) -> Result<Option<Found<u8>>, AllocError> {
        if self.begun != Some(*by) {
            self.begun = Some(*by);
            return Ok(None);
        }
        let issued = of(alloc, self.issued, *by)?;
        let vrps = of(alloc, self.vrps, *by)?;
        Ok(Some(Found { issued, vrps }))
    }

    ghost same_value = { same_number };
}

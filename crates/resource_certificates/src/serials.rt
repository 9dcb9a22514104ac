//! The serial numbers that a CRL revokes.

ghost use Rattle.std.specs.Prelude.{◌≡◌, ◌++◌, ◌∷◌, ◌↔◌, [], IsTrue, IfOk, map};
ghost use Rattle.std.specs.List.{Contains};
ghost use Rattle.resource_certificates.specs.Revocations.{SameMembers};

use std::alloc::{AllocError, Global};
use std::marker::Model;

/// Serial numbers of revoked certificates, in the order of the file. A number may come twice.
#[derive(Debug, Drop)]
pub struct Serials<'a> {
    list: Vec<&'a [u8]>,
}

impl<'a> Model for Serials<'a> {
    ghost use Rattle.std.specs.Prelude.{ℕ, List, map};

    ghost Value = { List (List ℕ) };

    ghost view = { λ s. map (λ serial. serial.now) s.list.items };
}

impl<'a> Serials<'a> {
    /// No serial numbers.
    pub(crate) fn new(alloc: Global) -> Serials<'a>
        ensures { result ≡ [] }
    {
        Serials {
            list: Vec::new(alloc),
        }
    }

    /// One more, after the others.
    pub(crate) fn push(&mut self, serial: &'a [u8]) -> Result<(), AllocError>
        ensures { IfOk result (λ _. self.new ≡ self.old ++ serial.now ∷ []) }
    {
        self.list.push(serial)?;
        Ok(())
    }

    /// Returns the serial numbers in the order of the file. Each is the content of its INTEGER, of at most 20 bytes, most significant byte first.
    pub fn as_slice(&self) -> &[&'a [u8]]
        ensures { map (λ serial. serial.now) result.now ≡ self.now }
    {
        self.list.as_slice()
    }
}

/// The serial numbers of a CRL, sorted once, so that each question is one binary search.
#[derive(Debug, Drop)]
pub struct Revocations<'a> {
    sorted: Vec<&'a [u8]>,
}

impl<'a> Model for Revocations<'a> {
    ghost use Rattle.std.specs.Prelude.{ℕ, List, map};
    ghost use Rattle.std.specs.List.Sorted.{IsSorted};
    ghost use Rattle.std.specs.Cmp.Lexicographic.{slice_cmp};
    ghost use Rattle.std.specs.Ordering.{nat_cmp};

    ghost Value = { List (List ℕ) };

    ghost view = { λ r. map (λ serial. serial.now) r.sorted.items };

    ghost invariant = { λ r. IsSorted (λ a b. slice_cmp nat_cmp a.now b.now) r.sorted.items };
}

impl<'a> Revocations<'a> {
    /// Sorts the serial numbers of a CRL, for [`Revocations::has`]. Only references are copied: the bytes stay in the file. A number that is listed
    /// twice stays twice. `Err`: memory ran out.
    pub fn of(alloc: Global, serials: &Serials<'a>) -> Result<Revocations<'a>, AllocError>
        ensures { IfOk result (λ r. SameMembers r serials.now) }
    {
        let mut sorted = Vec::new(alloc);
        sorted.extend_from_slice(serials.as_slice())?;
        sorted.sort_unstable();
        Ok(Revocations { sorted })
    }

    /// Returns whether the CRL lists this serial number. `serial` is the content of the certificate's INTEGER, compared byte by byte.
    pub fn has(&self, serial: &[u8]) -> bool
        ensures { IsTrue result ↔ Contains self.now serial.now }
    {
        self.sorted.binary_search(&serial).is_ok()
    }
}

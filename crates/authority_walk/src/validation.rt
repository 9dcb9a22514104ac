//! A validation, in steps.

ghost use Rattle.std.specs.Prelude.{◌≡◌, ◌↔◌, ℕ, IfOk, IfSome, IsSome, IsTrue, OnOk, OnErr};
ghost use Rattle.authority_walk.specs.Hierarchy.{HasDeeper, Gives, Lists};
ghost use Rattle.authority_walk.specs.Progress.{first_place, Fails, IsDone, Step, Steps};

use crate::reader::Reader;
use crate::walk::{Walk, deepen, has_unvisited, start, visit, visit_all};
use prefixes::Vrp;
use std::alloc::{AllocError, Global};
use std::fmt::{self, Debug};
use std::marker::Model;

/// The greatest depth. The authority of a trust anchor is at depth 0, and what an authority issues is one deeper.
pub const MAX_DEPTH: u32 = 32;

/// What a validation gives.
#[derive(Debug, Drop)]
pub struct Validated {
    /// The VRPs, in any order. A VRP that two authorities validate is here twice.
    pub vrps: Vec<Vrp>,
    /// Whether some authority is at depth 33 and at no lesser depth. Such authorities were not visited.
    pub has_deeper: bool,
}

/// A validation of what a reader reads. It is done in steps. The reader's files are the same in all of them.
#[derive(Drop)]
pub struct Validation<R: Reader> {
    reader: R,
    walk: Walk<R::Authority>,
}

impl<R: Reader> Model for Validation<R> {
    ghost use Rattle.std.specs.Prelude.{◌≤◌};
    ghost use Rattle.authority_walk.specs.Progress.{Progress, left_of};
    ghost use Rattle.authority_walk.specs.Stands.{Stands, place_of};

    ghost Value = { Progress R };

    ghost view = { λ v. record { reader = v.reader; place = place_of v.walk; left = left_of (R.left v.reader) R.value v.walk.waiting.items } };

    ghost invariant = { λ v. Stands R.Authority.cmp R.value (R.hierarchy (R.files v.reader)) v.walk × (v.walk.depth ≤ 32) };
}

impl<R: Reader> Validation<R> {
    /// A validation that has read the trust anchors, and visited no authority. `Err`: memory ran out.
    pub fn new(alloc: Global, reader: R) -> Result<Self, AllocError>
        ensures files { IfOk result (λ v. R.files v.reader ≡ R.files reader) }
        ensures place { IfOk result (λ v. (anchors : ℕ) × (v.place ≡ first_place anchors)) }
    {
        let mut reader = reader;
        let walk = start(alloc, &mut reader)?;
        Ok(Validation { reader, walk })
    }

    /// Reads one part of the publication point of an authority, or goes one deeper. Returns whether nothing is left to do. `Err`: memory ran out. The
    /// place of the validation stays, and the next step does what this one did not.
    pub fn step(&mut self, alloc: Global) -> Result<bool, AllocError>
        ensures files { R.files self.new.reader ≡ R.files self.old.reader }
        ensures step { OnOk result (Step self.old self.new) }
        ensures done { IfOk result (λ done. IsTrue done ↔ IsDone self.new.place) }
        ensures err { OnErr result (self.new.place ≡ self.old.place) }
    {
        if !self.walk.waiting.is_empty() {
            visit(alloc, &mut self.reader, &mut self.walk)?;
        } else if self.walk.depth < MAX_DEPTH {
            deepen::<R>(&mut self.walk);
        }
        Ok(self.is_done())
    }

    /// Does `budget` steps, or fewer if nothing is left to do. Returns whether nothing is left to do. `Err`: memory ran out in one of the steps, and
    /// the place is that after the step before.
    pub fn steps(&mut self, alloc: Global, budget: u32) -> Result<bool, AllocError>
        ensures files { R.files self.new.reader ≡ R.files self.old.reader }
        ensures steps { OnOk result (Steps budget self.old self.new) }
        ensures done { IfOk result (λ done. IsTrue done ↔ IsDone self.new.place) }
        ensures err { OnErr result (Fails budget self.old self.new) }
    {
        for _step in 0..budget {
            if self.step(alloc)? {
                return Ok(true);
            }
        }
        Ok(self.is_done())
    }

    /// The depth of the authorities that wait.
    pub fn depth(&self) -> u32
        ensures { result ≡ self.now.place.depth }
    {
        self.walk.depth
    }

    /// How many authorities of this depth wait to be visited. An authority that was issued twice counts twice.
    pub fn waiting(&self) -> usize
        ensures { result ≡ self.now.place.waiting }
    {
        self.walk.waiting.len()
    }

    /// How many authorities were visited. An authority counts once, however many chains lead to it.
    pub fn visited(&self) -> usize
        ensures { result ≡ self.now.place.visited }
    {
        self.walk.visited.len()
    }

    /// Whether nothing is left to do.
    pub fn is_done(&self) -> bool
        ensures { IsTrue result ↔ IsDone self.now.place }
    {
        self.walk.depth == MAX_DEPTH && self.walk.waiting.is_empty()
    }

    /// The VRPs, if nothing is left to do: exactly those that an authority within depth 32 validates, in any order.
    pub fn vrps(&self) -> Option<&[Vrp]>
        ensures some { IsSome result ↔ IsDone self.now.place }
        ensures vrps { IfSome result (λ vrps. Lists (R.hierarchy (R.files self.now.reader)) vrps.now) }
    {
        if !self.is_done() {
            return None;
        }
        Some(&self.walk.vrps)
    }

    /// Whether nothing is left to do, and some authority is at depth 33 and at no lesser depth. Such authorities were not visited.
    pub fn has_deeper(&self) -> bool
        ensures { IsTrue result ↔ (IsDone self.now.place × HasDeeper (R.hierarchy (R.files self.now.reader))) }
    {
        self.is_done() && has_unvisited::<R>(&self.walk)
    }

    /// Ends the validation. Returns its reader and, if nothing was left to do, what the validation gives.
    pub fn finish(self) -> (R, Option<Validated>)
        ensures reader { result.0 ≡ self.reader }
        ensures some { IsSome result.1 ↔ IsDone self.place }
        ensures gives { IfSome result.1 (λ v. Gives (R.hierarchy (R.files self.reader)) v.vrps.items v.has_deeper) }
    {
        let is_done = self.is_done();
        let has_deeper = self.has_deeper();
        let Validation { reader, walk } = self;
        if !is_done {
            return (reader, None);
        }
        let vrps = walk.vrps;
        (reader, Some(Validated { vrps, has_deeper }))
    }
}

/// How far it has come.
impl<R: Reader> Debug for Validation<R> {
    fn fmt<W: fmt::Write>(&self, f: &mut fmt::Formatter<W>) -> fmt::Result {
        write!(
            f,
            "Validation(depth {}, {} waiting, {} visited)",
            self.depth(),
            self.waiting(),
            self.visited()
        )
    }
}

/// Validates what a reader reads: the VRPs are exactly those that an authority within depth 32 validates. `Err`: memory ran out.
pub fn validate<R: Reader>(alloc: Global, reader: &mut R) -> Result<Validated, AllocError>
    ensures gives { IfOk result (λ v. Gives (R.hierarchy (R.files reader.old)) v.vrps.items v.has_deeper) }
    ensures files { R.files reader.new ≡ R.files reader.old }
{
    let mut walk = start(alloc, reader)?;
    for _depth in 0..MAX_DEPTH {
        visit_all(alloc, reader, &mut walk)?;
        deepen::<R>(&mut walk);
    }
    visit_all(alloc, reader, &mut walk)?;
    let has_deeper = has_unvisited::<R>(&walk);
    Ok(Validated {
        vrps: walk.vrps,
        has_deeper,
    })
}

//! What an answer under way has staged over its base.
ghost use Rattle.std.specs.Prelude.{◌≡◌, ℕ, IfOk, IsErrOf, true, false, ◌≤◌};
ghost use Rattle.vrps.specs.VrpSet.{VrpSet as Vrps, empty, has, size, set_of, union, without};
ghost use Rattle.rtr_ends.specs.Transcript.{Begun, base_of};

use crate::question::Question;
use crate::table::Table;
use prefixes::Vrp;
use rtr_pdu::error_code;
use std::alloc::{AllocError, Global};
use vrps::{Change, Gathered, SetFault, VrpSet};

/// The records of an answer that is not at its end: those withdrawn from its base, those announced over it, and how many records
/// its end would leave. The base stays as it is.
#[derive(Debug, Drop)]
pub struct Staging {
    pub withdrawn: Gathered,
    pub announced: Gathered,
    pub count: usize,
}

/// What a record does to an answer.
#[derive(Clone, Copy, Debug, PartialEq, Eq)]
pub enum Staged {
    /// It is staged.
    Stays,
    /// It acts wrongly, with this error code (RFC 8210 section 12).
    Wrong(u16),
}

impl Staging {
    ghost use Rattle.rtr_ends.specs.Staging.{GoesTo, LeadsToSet};
    ghost use Rattle.rtr_ends.specs.Seen.{IsStaged, seen_question};

    /// Returns a staging without records, over a base that has `count` records. It allocates no memory.
    pub fn over(alloc: Global, count: usize) -> Staging
        ensures { result ≡ record { withdrawn = empty; announced = empty; count = count } }
    {
        Staging {
            withdrawn: Gathered::new(alloc),
            announced: Gathered::new(alloc),
            count,
        }
    }

    /// Withdraws a record. `in_base`: the base has it. `Stays`: it is staged. `Wrong` with code 6: it is not in the base, or was withdrawn
    /// already. A record that only this answer announced is not in the base.
    /// `Memory` is the only error. Nothing is staged unless the result is `Stays`.
    pub fn withdraw(&mut self, in_base: bool, vrp: &Vrp) -> Result<Staged, SetFault>
        ensures { (most : ℕ) (base : Vrps) (b : Begun) → IsStaged base b.withdrawn b.announced self.old → in_base ≡ has base vrp.now
            → GoesTo most base b false vrp.now result self.new }
    {
        if !in_base {
            return Ok(Staged::Wrong(error_code::UNKNOWN_WITHDRAWAL));
        }
        match self.withdrawn.insert(*vrp) {
            Ok(true) => {
                self.count = self.count.saturating_sub(1);
                Ok(Staged::Stays)
            }
            Ok(false) => Ok(Staged::Wrong(error_code::UNKNOWN_WITHDRAWAL)),
            Err(_) => Err(SetFault::Memory),
        }
    }

    /// Announces a record. `in_base`: the base has it. `Stays`: it is staged. `Wrong` with code 7: it is in the base, or was announced already.
    /// A record that this answer withdrew is still in the base.
    /// `TooMany`: the table would have more records than `most`. `Memory`: out of memory. Nothing is staged unless the result is `Stays`.
    pub fn announce(&mut self, most: usize, in_base: bool, vrp: &Vrp) -> Result<Staged, SetFault>
        ensures { (base : Vrps) (b : Begun) → most ≤ 16777215 → IsStaged base b.withdrawn b.announced self.old → in_base ≡ has base vrp.now
            → GoesTo most base b true vrp.now result self.new }
    {
        if in_base {
            return Ok(Staged::Wrong(error_code::DUPLICATE_ANNOUNCEMENT));
        }
        if self.count >= most {
            if self.announced.contains(vrp) {
                return Ok(Staged::Wrong(error_code::DUPLICATE_ANNOUNCEMENT));
            }
            return Err(SetFault::TooMany);
        }
        match self.announced.insert(*vrp) {
            Ok(true) => {
                self.count += 1;
                Ok(Staged::Stays)
            }
            Ok(false) => Ok(Staged::Wrong(error_code::DUPLICATE_ANNOUNCEMENT)),
            Err(_) => Err(SetFault::Memory),
        }
    }

    /// Stages a record, or returns what is wrong with it. If `announce` is true, the result is that of `announce`, otherwise that of `withdraw`. The
    /// errors are theirs, too.
    pub fn take(
        &mut self,
        most: usize,
        in_base: bool,
        announce: bool,
        vrp: &Vrp,
    ) -> Result<Staged, SetFault>
        ensures { (base : Vrps) (b : Begun) → most ≤ 16777215 → IsStaged base b.withdrawn b.announced self.old → in_base ≡ has base vrp.now
            → GoesTo most base b announce vrp.now result self.new }
    {
        if announce {
            self.announce(most, in_base, vrp)
        } else {
            self.withdraw(in_base, vrp)
        }
    }

    /// Ends the answer: returns the base without the withdrawn records, together with the announced ones. The base is empty if `question` is a Reset
    /// Query, otherwise `table`, the router's table. All records must have been staged over this base. Then `Memory` is the only error. `table` does
    /// not change.
    pub fn end(self, alloc: Global, question: Question, table: &Table) -> Result<Table, SetFault>
        ensures { (b : Begun) → IsStaged (base_of (seen_question question) table.now) b.withdrawn b.announced self
            → LeadsToSet (base_of (seen_question question) table.now) b result }
    {
        let set = self.led(alloc, question, table.set())?;
        Ok(Table::of(alloc, set)?)
    }

    /// The set of the table to which `end` leads.
    fn led(self, alloc: Global, question: Question, table: &VrpSet) -> Result<VrpSet, SetFault>
        ensures { (b : Begun) → IsStaged (base_of (seen_question question) table.now) b.withdrawn b.announced self
            → LeadsToSet (base_of (seen_question question) table.now) b result }
    {
        match question {
            Question::Reset => self.lead_from_nothing(alloc),
            Question::Serial { .. } => self.lead(alloc, table),
        }
    }

    /// The set to which the records lead from `base`: without those withdrawn, together with those announced. `Memory` is the only error. The
    /// time is linear in the number of all of them.
    pub fn lead(self, alloc: Global, base: &VrpSet) -> Result<VrpSet, SetFault>
        ensures ok { IfOk result (λ table. table ≡ union (without base.now self.withdrawn) self.announced) }
        ensures too_many { (b : Begun) → IsStaged base.now b.withdrawn b.announced self → ¬ (IsErrOf result SetFault.TooMany) }
    {
        let Staging {
            withdrawn,
            announced,
            count: _,
        } = self;
        // A set that is looked at is known to be within the limit.
        let _records = base.len();
        let withdraw = withdrawn.into_set(alloc)?;
        let announce = announced.into_set(alloc)?;
        Change { withdraw, announce }.apply(alloc, base)
    }

    /// The set of the announced records, which is what the records lead to from the empty set. `Memory` is the only error.
    pub fn lead_from_nothing(self, alloc: Global) -> Result<VrpSet, SetFault>
        ensures ok { IfOk result (λ table. table ≡ self.announced) }
        ensures too_many { (b : Begun) → IsStaged empty b.withdrawn b.announced self → ¬ (IsErrOf result SetFault.TooMany) }
    {
        let Staging {
            withdrawn: _,
            announced,
            count: _,
        } = self;
        announced.into_set(alloc)
    }
}

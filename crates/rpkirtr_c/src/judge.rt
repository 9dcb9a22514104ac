//! The value of an index's handle.
ghost use Rattle.std.specs.Prelude.{◌≡◌, IfOk};
ghost use Rattle.vrps.specs.VrpSet.{size};

use std::alloc::{AllocError, Global};
use std::marker::Model;
use std::sync::Arc;
use vrps::OriginIndex;

/// An index, and how many records it is over.
#[derive(Debug, Drop)]
pub struct Judge {
    pub(crate) index: OriginIndex,
    pub(crate) count: usize,
    ghost counted: { count ≡ size index },
}

impl Judge {
    /// An index over this number of records.
    pub(crate) fn over(index: OriginIndex, count: usize) -> Judge
        requires { count ≡ size index }
        ensures { result.index ≡ index }
    {
        Judge { index, count }
    }
}

/// An index of which one or more handles are owners, in any threads. Contracts see the index.
#[derive(Debug, Drop)]
pub struct SharedJudge {
    owner: Arc<Judge, Global>,
}

impl Model for SharedJudge {
    ghost use Rattle.std.specs.Arc.{arc_value};
    ghost use Rattle.rpkirtr_c.specs.declared.judge.Judge.{Judge};
    ghost use Rattle.rpkirtr_c.specs.contracts.judge.Judge as judge;

    ghost Value = { Judge };

    ghost coded = { judge.the_row.coded };

    ghost view = { λ s. arc_value s.owner };
}

impl SharedJudge {
    /// The first owner of an index.
    pub(crate) fn over(alloc: Global, judge: Judge) -> Result<SharedJudge, AllocError>
        ensures { IfOk result (λ s. s ≡ judge) }
    {
        match Arc::new(alloc, judge) {
            Err(_) => Err(AllocError),
            Ok(owner) => Ok(SharedJudge { owner }),
        }
    }

    /// The index.
    pub(crate) fn judge(&self) -> &Judge
        ensures { result.now ≡ self.now }
    {
        &*self.owner
    }

    /// A further owner of the same index.
    pub(crate) fn share(&self) -> Result<SharedJudge, AllocError>
        ensures { IfOk result (λ s. s ≡ self.now) }
    {
        let owner = Arc::try_clone(&self.owner)?;
        Ok(SharedJudge { owner })
    }
}

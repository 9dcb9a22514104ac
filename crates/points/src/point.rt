//! Publication points.

ghost use Rattle.std.specs.Prelude.{◌≡◌, None, IfSome};
ghost use Rattle.points.specs.Offers.{Acceptable, Judged};
ghost use Rattle.points.specs.Answers.{told_by, NewExactly, Becomes};

use crate::accepted::Accepted;
use crate::judging::judge;
use crate::{FileIn, Offered, PointFault};
use der_lite::Moment;
use std::alloc::Global;
use std::marker::Model;

/// A publication point. It holds the manifest accepted last with its ROAs, or nothing.
#[derive(Debug, Drop)]
pub struct Point {
    alloc: Global,
    accepted: Option<Accepted>,
}

impl Model for Point {
    ghost use Rattle.std.specs.Prelude.{Option};
    ghost use Rattle.points.specs.Accepted.{Accepted as Held, IsPoint};

    ghost Value = { Option Held };

    ghost view = { λ p. p.accepted };

    ghost invariant = { λ p. IsPoint p.accepted };
}

impl Point {
    /// Returns a point that has accepted nothing. It allocates no memory.
    pub fn new(alloc: Global) -> Point
        ensures { result ≡ None }
    {
        Point {
            alloc,
            accepted: None,
        }
    }

    /// Offers a manifest payload with the files that were fetched with it. The caller has verified all signatures.
    /// `now` is the time of the offer, in UTC. The offer is accepted as a whole, or refused as a whole (RFC 9286 section 6).
    ///
    /// `New`: the point now holds the offer. `Same`: the manifest has the bytes that were accepted last, and the files are not checked.
    /// Err: the offer is refused, and the point is unchanged.
    ///
    /// The first case in this order decides: `Manifest`, `NotYet`, `Stale`, `Same`, `OldNumber`, `OldTime`, `FileTwice`.
    /// Then file by file of the manifest: `Missing`, `HashDiffers`, `Roa`. `Memory` may come at any step.
    ///
    /// Of a listed file whose name does not end in `.roa`, only the hash is checked. Supplied files that the manifest does not list are ignored.
    /// Only `FileTwice` counts them.
    pub fn offer(
        &mut self,
        manifest: &[u8],
        files: &[FileIn],
        now: Moment,
    ) -> Result<Offered, PointFault>
        ensures judged { IfSome (told_by result) (Judged self.old manifest.now files.now now) }
        ensures exact { NewExactly result (Acceptable self.old manifest.now files.now now) }
        ensures held { Becomes result self.old self.new manifest.now files.now }
    {
        match judge(self.alloc, self.accepted.as_ref(), manifest, files, &now)? {
            Some(accepted) => {
                self.accepted = Some(accepted);
                Ok(Offered::New)
            }
            None => Ok(Offered::Same),
        }
    }
}

//! Publication points by their names.

ghost use Rattle.std.specs.Prelude.{◌≡◌, ◌↔◌, flat_map, IfOk, IfSome};
ghost use Rattle.std.specs.List.{Contains};
ghost use Rattle.std.specs.List.Sorted.{IsStrictlySortedBy};
ghost use Rattle.std.specs.BTreeMap.{IsOrdered, values};
ghost use Rattle.std.specs.String.{string_cmp};
ghost use Rattle.prefixes.specs.Payload.{Payload, vrp_cmp};
ghost use Rattle.points.specs.Offers.{Acceptable, Judged};
ghost use Rattle.points.specs.Answers.{told_by, NewExactly, BecomesAt};
ghost use Rattle.points.specs.InUse.{no_points, accepted_at, used_payloads, Lists};

use crate::accepted::Accepted;
use crate::judging::judge;
use crate::{FileIn, Offered, PointFault};
use der_lite::Moment;
use prefixes::Vrp;
use std::alloc::{AllocError, Global};
use std::collections::BTreeMap;
use std::marker::Model;

/// Publication points by their names. A name without an accepted offer counts as a point that holds nothing.
#[derive(Debug, Drop)]
pub struct Repository {
    alloc: Global,
    points: BTreeMap<String, Accepted>,
}

impl Model for Repository {
    ghost use Rattle.std.specs.FinMap as map;
    ghost use Rattle.points.specs.InUse.{Points, points_of};
    ghost use Rattle.points.specs.Codes.{coded_bytes, coded_accepted};

    ghost Value = { Points };

    ghost coded = { map.code coded_bytes coded_accepted };

    ghost view = { λ r. points_of r.points.entries };
}

impl Repository {
    /// Returns a repository without points. It allocates no memory.
    pub fn new(alloc: Global) -> Repository
        ensures { result ≡ no_points }
    {
        Repository {
            alloc,
            points: BTreeMap::new(alloc),
        }
    }

    /// Makes an offer to the point `name`, with the results of [`Point::offer`](crate::Point::offer). If there is no such point, the offer is judged
    /// as by a point that has accepted nothing. On `New` the point then exists. No other point changes. On `Same` and on an error, no point changes.
    pub fn offer(
        &mut self,
        name: &str,
        manifest: &[u8],
        files: &[FileIn],
        now: Moment,
    ) -> Result<Offered, PointFault>
        ensures judged { IfSome (told_by result) (Judged (accepted_at self.old name.now) manifest.now files.now now) }
        ensures exact { NewExactly result (Acceptable (accepted_at self.old name.now) manifest.now files.now now) }
        ensures held { BecomesAt result name.now self.old self.new manifest.now files.now }
    {
        match judge(self.alloc, self.points.get(name), manifest, files, &now)? {
            Some(accepted) => {
                let name = String::from_str(self.alloc, name)?;
                if self.points.insert(name, accepted).is_err() {
                    return Err(PointFault::Memory);
                }
                Ok(Offered::New)
            }
            None => Ok(Offered::Same),
        }
    }

    /// Returns the VRPs in use at the time `now`, in UTC: those of the ROAs of each point whose nextUpdate is not before `now`. thisUpdate is not
    /// looked at.
    /// The VRPs ascend strictly, so each is listed once. `Err`: memory ran out.
    pub fn payloads(&self, now: Moment) -> Result<Vec<Vrp>, AllocError>
        ensures { IfOk result (λ vrps. Lists vrps.items self.now now) }
    {
        let vrps = used(self.alloc, &self.points, &now)?;
        Ok(ascending(vrps))
    }
}

/// The payloads that the points have in use, a point after the other.
fn used(
    alloc: Global,
    points: &BTreeMap<String, Accepted>,
    now: &Moment,
) -> Result<Vec<Vrp>, AllocError>
    ensures listed { IfOk result (λ vrps. vrps.items ≡ flat_map (used_payloads now.now) (values points.now)) }
    ensures ordered { IsOrdered string_cmp points.now }
{
    let mut vrps = Vec::new(alloc);
    for accepted in points.values() {
        accepted.add_used(alloc, now, &mut vrps)?;
    }
    Ok(vrps)
}

/// The same payloads in ascending order, each once.
fn ascending(list: Vec<Vrp>) -> Vec<Vrp>
    ensures ascending { IsStrictlySortedBy vrp_cmp result.items }
    ensures same { (vrp : Payload) → Contains result.items vrp ↔ Contains list.items vrp }
{
    let mut items = list;
    items.sort_unstable();
    items.dedup();
    items
}

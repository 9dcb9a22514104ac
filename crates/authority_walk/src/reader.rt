//! What a walk reads.

ghost use Rattle.std.specs.Prelude.{◌≡◌, ◌<◌, ◌↔◌, ℕ, IfOk, IfSome, IfNone};
ghost use Rattle.std.specs.List.{Contains};
ghost use Rattle.std.specs.declared.cmp.Ordering.TheVariants.{Equal};
ghost use Rattle.prefixes.specs.Payload.{Payload};
ghost use Rattle.authority_walk.specs.Hierarchy.{Hierarchy};
ghost use Rattle.authority_walk.specs.Walks.{HasExactly};

use prefixes::Vrp;
use std::alloc::{AllocError, Global};

/// What the publication point of an authority holds.
#[derive(Debug, Drop)]
pub struct Found<A> {
    /// The authorities that it issued: those to which it issued a certificate that is valid (RFC 6487 section 7.2). In any order.
    pub issued: Vec<A>,
    /// The VRPs of its valid ROAs (RFC 9582 section 4). In any order.
    pub vrps: Vec<Vrp>,
}

/// Reads the files of a repository as they are at a moment. It may remember which signatures held, and which part of a publication point it has read.
pub trait Reader: Drop {
    /// An authority: a certificate, with the resources that it holds. The order has no meaning.
    type Authority: Ord + Drop;

    /// Everything that answers depend on: files, trust anchor locators, the moment.
    ghost Files: { Type 0 };

    /// The files of this reader. No call changes them.
    ghost files: { Self → Files };

    /// What distinguishes authorities.
    ghost Value: { Type 0 };

    ghost value: { Self.Authority → Value };

    /// What the files say.
    ghost hierarchy: { Files → Hierarchy Value };

    /// How many parts are at most left to be read of the publication point of an authority, before the last one.
    ghost left: { Self → Value → ℕ };

    /// Returns the authorities of the trust anchors, in any order. `Err`: memory ran out.
    fn anchors(&mut self, alloc: Global) -> Result<Vec<Self::Authority>, AllocError>
        ensures anchors { IfOk result (λ anchors. HasExactly value anchors.items (hierarchy (files self.old)).IsAnchor) }
        ensures same { files self.new ≡ files self.old };

    /// Reads a part of the publication point of an authority. The reader chooses how long a part is, and so bounds the time of a call. Returns what
    /// the whole point holds, once all of it was read. `None`: more is left, and the next call for this authority continues. `Err`: memory ran out.
    fn read(
        &mut self,
        alloc: Global,
        by: &Self::Authority,
    ) -> Result<Option<Found<Self::Authority>>, AllocError>
        ensures issued { IfOk result (λ part. IfSome part (λ found. HasExactly value found.issued.items ((hierarchy (files self.old)).Issues (value by.now)))) }
        ensures vrps { IfOk result (λ part. IfSome part (λ found. (vrp : Payload) → Contains found.vrps.items vrp ↔ (hierarchy (files self.old)).Validates (value by.now) vrp)) }
        ensures part { IfOk result (λ part. IfNone part (left self.new (value by.now) < left self.old (value by.now))) }
        ensures same { files self.new ≡ files self.old };

    /// Law: two authorities compare as equal exactly if they have the same value.
    ghost same_value: { (a b : Self.Authority) → (Self.Authority.cmp a b ≡ Equal) ↔ (value a ≡ value b) };
}

//! Offers to publication points, one after the other.
ghost use Rattle.std.specs.Prelude.{IfOk, IfErr};
ghost use Rattle.points.specs.InUse.{no_points};
ghost use Rattle.feed.specs.Feed.{AreTaken, IsRefused};

use crate::FeedFault;
use der_lite::Moment;
use points::{FileIn, Repository};
use std::alloc::Global;

/// A manifest and files that are offered to a publication point.
#[derive(Clone, Copy, Debug, PartialEq, Eq)]
pub struct Offer<'a> {
    /// The name of the publication point. Offers with the same name go to the same point.
    pub name: &'a str,
    /// The payload of the manifest, in DER (RFC 9286 section 4.2). The caller has verified its signature.
    pub manifest: &'a [u8],
    /// The files supplied with the manifest.
    pub files: &'a [FileIn<'a>],
}

/// A repository that was empty, after all these offers at a moment. It stops at the first one that is refused.
pub(crate) fn take_all(
    alloc: Global,
    offers: &[Offer<'_>],
    now: Moment,
) -> Result<Repository, FeedFault>
    ensures taken { IfOk result (λ points. AreTaken now no_points offers.now points) }
    ensures refused { IfErr result (λ fault. IsRefused now offers.now fault) }
{
    let mut repository = Repository::new(alloc);
    for (i, offer) in offers.iter().enumerate() {
        match repository.offer(offer.name, offer.manifest, offer.files, now) {
            Ok(_) => {}
            Err(fault) => return Err(FeedFault::at(i, fault)),
        }
    }
    Ok(repository)
}

//! What files are about, arranged so that overlaps are side by side.
ghost use Rattle.std.specs.Prelude.{◌≡◌, ◌++◌, ◌∷◌, [], IfOk, OnOk, IfSome, IfNone, map};
ghost use Rattle.std.specs.List.{All, filter_map};
ghost use Rattle.std.specs.List.Sorted.{IsPermutation, IsSorted};
ghost use Rattle.slurm.specs.Claims.{AsnsAgree, AsnsClash, HasPrefix, PrefixesAgree, PrefixesClash, asn_claim, asn_claim_cmp, asn_claims, prefix_claim, prefix_claim_cmp, prefix_claims};
ghost use Rattle.slurm.specs.Scoped.{scoped_of};
ghost use Rattle.slurm.specs.Uniting.{asns_of, prefixes_of};

use crate::filter::PrefixFilter;
use crate::scoped::ScopedSlurm;
use crate::unite_fault::{Overlap, UniteFault};
use prefixes::{Asn, IpPrefix, Vrp};
use std::alloc::{AllocError, Global};

/// A prefix that an entry of a file has, and the index of the file.
#[derive(Clone, Copy, Debug, PartialEq, Eq, PartialOrd, Ord)]
pub(crate) struct PrefixClaim {
    prefix: IpPrefix,
    file: usize,
}

/// An AS that an entry on BGPsec of a file has, and the index of the file.
#[derive(Clone, Copy, Debug, PartialEq, Eq, PartialOrd, Ord)]
pub(crate) struct AsnClaim {
    asn: u32,
    file: usize,
}

impl PrefixClaim {
    ghost use Rattle.slurm.specs.Claims.{prefix_overlap};

    /// The overlap of two claims, the earlier file first.
    pub(crate) fn overlap(&self, other: &PrefixClaim) -> UniteFault
        ensures { result ≡ prefix_overlap self.now other.now }
    {
        if self.file < other.file {
            return UniteFault::Overlap {
                first: self.file,
                second: other.file,
                what: Overlap::Prefixes(self.prefix, other.prefix),
            };
        }
        UniteFault::Overlap {
            first: other.file,
            second: self.file,
            what: Overlap::Prefixes(other.prefix, self.prefix),
        }
    }
}

impl AsnClaim {
    ghost use Rattle.slurm.specs.Claims.{asn_overlap};

    /// The overlap of two claims, the earlier file first.
    pub(crate) fn overlap(&self, other: &AsnClaim) -> UniteFault
        ensures { result ≡ asn_overlap self.now other.now }
    {
        let what = Overlap::Bgpsec(Asn(self.asn));
        if self.file < other.file {
            return UniteFault::Overlap {
                first: self.file,
                second: other.file,
                what,
            };
        }
        UniteFault::Overlap {
            first: other.file,
            second: self.file,
            what,
        }
    }
}

/// Adds the claims of a file's prefix filters.
fn add_filters(
    claims: &mut Vec<PrefixClaim>,
    file: usize,
    filters: &[PrefixFilter],
) -> Result<(), AllocError>
    ensures { OnOk result (claims.new.items ≡ claims.old.items ++ map (prefix_claim file) (filter_map (λ f. f.prefix) filters.now)) }
{
    for filter in filters {
        if let Some(prefix) = filter.prefix {
            claims.push(PrefixClaim { prefix, file })?;
        }
    }
    Ok(())
}

/// Adds the claims of a file's prefix assertions.
fn add_assertions(
    claims: &mut Vec<PrefixClaim>,
    file: usize,
    records: &[Vrp],
) -> Result<(), AllocError>
    ensures { OnOk result (claims.new.items ≡ claims.old.items ++ map (prefix_claim file) (map (λ v. v.prefix) records.now)) }
{
    for vrp in records {
        let prefix = vrp.prefix();
        claims.push(PrefixClaim { prefix, file })?;
    }
    Ok(())
}

/// Adds the claims of a file's prefix filters and prefix assertions.
fn add_prefixes(
    claims: &mut Vec<PrefixClaim>,
    file: usize,
    scoped: &ScopedSlurm,
) -> Result<(), AllocError>
    ensures { OnOk result (claims.new.items ≡ claims.old.items ++ map (prefix_claim file) (prefixes_of (scoped_of scoped.now))) }
{
    add_filters(claims, file, scoped.slurm.filters.as_slice())?;
    add_assertions(claims, file, scoped.slurm.assertions.as_slice())
}

/// The claims of all files on prefixes, file by file.
fn gathered_prefixes(alloc: Global, files: &[ScopedSlurm]) -> Result<Vec<PrefixClaim>, AllocError>
    ensures { IfOk result (λ cs. cs.items ≡ prefix_claims (map scoped_of files.now)) }
{
    let mut claims = Vec::new(alloc);
    for (file, scoped) in files.iter().enumerate() {
        add_prefixes(&mut claims, file, scoped)?;
    }
    Ok(claims)
}

/// Looks at each claim once. That its prefix has no host bits is known of one that is looked at.
fn know_prefixes(claims: &[PrefixClaim])
    ensures { All HasPrefix claims.now }
{
    for claim in claims {
        let _len = claim.prefix.len();
    }
}

/// The claims of all files on prefixes, in ascending order.
pub(crate) fn prefix_claims(
    alloc: Global,
    files: &[ScopedSlurm],
) -> Result<Vec<PrefixClaim>, AllocError>
    ensures same { IfOk result (λ cs. IsPermutation (prefix_claims (map scoped_of files.now)) cs.items) }
    ensures ascending { IfOk result (λ cs. IsSorted prefix_claim_cmp cs.items) }
    ensures prefixes { IfOk result (λ cs. All HasPrefix cs.items) }
{
    let mut claims = gathered_prefixes(alloc, files)?;
    claims.sort_unstable();
    know_prefixes(claims.as_slice());
    Ok(claims)
}

/// Of ascending claims two of different files, the first of which covers the second. Each claim is compared with the last one that no other
/// covers. A prefix comes after what covers it, and what is between the two is covered too.
pub(crate) fn prefix_clash(claims: &[PrefixClaim]) -> Option<(PrefixClaim, PrefixClaim)>
    requires ascending { IsSorted prefix_claim_cmp claims.now }
    requires prefixes { All HasPrefix claims.now }
    ensures some { IfSome result (λ two. PrefixesClash claims.now two.0 two.1) }
    ensures none { IfNone result (PrefixesAgree claims.now) }
{
    let mut root = *claims.first()?;
    for claim in claims {
        if !root.prefix.covers(&claim.prefix) {
            root = *claim;
        } else if root.file != claim.file {
            return Some((root, *claim));
        }
    }
    None
}

/// Adds the claims of a file's filters on BGPsec.
fn add_key_filters(
    claims: &mut Vec<AsnClaim>,
    file: usize,
    filters: &[Option<Asn>],
) -> Result<(), AllocError>
    ensures { OnOk result (claims.new.items ≡ claims.old.items ++ map (asn_claim file) (filter_map (λ a. a) filters.now)) }
{
    for filter in filters {
        if let Some(asn) = filter {
            claims.push(AsnClaim { asn: asn.0, file })?;
        }
    }
    Ok(())
}

/// Adds the claims of a file's assertions on BGPsec.
fn add_key_assertions(
    claims: &mut Vec<AsnClaim>,
    file: usize,
    asns: &[Asn],
) -> Result<(), AllocError>
    ensures { OnOk result (claims.new.items ≡ claims.old.items ++ map (asn_claim file) asns.now) }
{
    for asn in asns {
        claims.push(AsnClaim { asn: asn.0, file })?;
    }
    Ok(())
}

/// Adds the claims of a file's entries on BGPsec.
fn add_asns(claims: &mut Vec<AsnClaim>, file: usize, scoped: &ScopedSlurm) -> Result<(), AllocError>
    ensures { OnOk result (claims.new.items ≡ claims.old.items ++ map (asn_claim file) (asns_of (scoped_of scoped.now))) }
{
    add_key_filters(claims, file, scoped.bgpsec_filters.as_slice())?;
    add_key_assertions(claims, file, scoped.bgpsec_assertions.as_slice())
}

/// The claims of all files on ASes, file by file.
fn gathered_asns(alloc: Global, files: &[ScopedSlurm]) -> Result<Vec<AsnClaim>, AllocError>
    ensures { IfOk result (λ cs. cs.items ≡ asn_claims (map scoped_of files.now)) }
{
    let mut claims = Vec::new(alloc);
    for (file, scoped) in files.iter().enumerate() {
        add_asns(&mut claims, file, scoped)?;
    }
    Ok(claims)
}

/// The claims of all files on ASes, in ascending order.
pub(crate) fn asn_claims(alloc: Global, files: &[ScopedSlurm]) -> Result<Vec<AsnClaim>, AllocError>
    ensures same { IfOk result (λ cs. IsPermutation (asn_claims (map scoped_of files.now)) cs.items) }
    ensures ascending { IfOk result (λ cs. IsSorted asn_claim_cmp cs.items) }
{
    let mut claims = gathered_asns(alloc, files)?;
    claims.sort_unstable();
    Ok(claims)
}

/// Of ascending claims two of one AS and of different files.
pub(crate) fn asn_clash(claims: &[AsnClaim]) -> Option<(AsnClaim, AsnClaim)>
    requires { IsSorted asn_claim_cmp claims.now }
    ensures some { IfSome result (λ two. AsnsClash claims.now two.0 two.1) }
    ensures none { IfNone result (AsnsAgree claims.now) }
{
    let mut root = *claims.first()?;
    for claim in claims {
        let next = *claim;
        if root.asn != next.asn {
            root = next;
        } else if root.file != next.file {
            return Some((root, next));
        }
    }
    None
}

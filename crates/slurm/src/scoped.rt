//! Files with their scopes: what the entries of each are about.
ghost use Rattle.std.specs.Prelude.{◌≡◌};

use crate::filter::Slurm;
use prefixes::Asn;

/// A SLURM file with its scope: the exceptions, and the ASes of its BGPsec entries. The scope is these ASes and the prefixes of its prefix
/// filters and prefix assertions (RFC 8416 section 4.2).
#[derive(Debug, Drop)]
pub struct ScopedSlurm {
    /// The exceptions.
    pub slurm: Slurm,
    /// The AS of each BGPsec filter, in the order of the file (section 3.3.2). `None`: the filter has no AS.
    pub bgpsec_filters: Vec<Option<Asn>>,
    /// The AS of each BGPsec assertion, in the order of the file (section 3.4.2).
    pub bgpsec_assertions: Vec<Asn>,
}

/// The numbers of entries of a SLURM file that are not applied: the BGPsec entries. This cache serves no router keys.
#[derive(Clone, Copy, Debug, Drop, PartialEq, Eq)]
pub struct Ignored {
    /// The number of elements of the array `bgpsecFilters` (RFC 8416 section 3.3.2).
    pub bgpsec_filters: u64,
    /// The number of elements of the array `bgpsecAssertions` (section 3.4.2).
    pub bgpsec_assertions: u64,
}

impl ScopedSlurm {
    ghost use Rattle.slurm.specs.Exceptions.{exceptions_of};
    ghost use Rattle.slurm.specs.Ignored.{ignored_of};
    ghost use Rattle.slurm.specs.Scoped.{scoped_of};

    /// Returns the exceptions without the ASes of the BGPsec entries. It allocates no memory.
    pub fn into_exceptions(self) -> Slurm
        ensures { exceptions_of result ≡ exceptions_of self.slurm }
    {
        let ScopedSlurm { slurm, .. } = self;
        slurm
    }

    /// Returns the numbers of BGPsec filters and BGPsec assertions in the file, which are not applied. It allocates no memory.
    pub fn ignored(&self) -> Ignored
        ensures { result ≡ ignored_of (scoped_of self.now) }
    {
        Ignored {
            bgpsec_filters: self.bgpsec_filters.len() as u64,
            bgpsec_assertions: self.bgpsec_assertions.len() as u64,
        }
    }
}

//! Why a query has no route.
ghost use Rattle.std.specs.Prelude.{◌≡◌};

use prefixes::PrefixFault;
use std::alloc::AllocError;
use thiserror::Error;

/// Why a query or path names no route. The message says what is wrong, or how to ask.
#[derive(Clone, Copy, Debug, Drop, PartialEq, Eq, Error)]
pub enum QueryFault {
    /// The query does not have exactly the keys `asn` and `prefix`, each once.
    #[error("usage: ?asn=NUMBER&prefix=PREFIX, each key once and no other, as in ?asn=64496&prefix=192.0.2.0/24")]
    Keys,
    /// The AS number is not a number from 0 to 4294967295.
    #[error("the AS number is not a decimal number from 0 to 4294967295, with AS before it or without")]
    Asn,
    /// The prefix is not an IPv4 or IPv6 prefix.
    #[error("the prefix is not an IPv4 or IPv6 prefix, as 192.0.2.0/24 or 2001:db8::/32: {0}")]
    Prefix(PrefixFault),
    /// The path has no slash between the AS number and the prefix.
    #[error("usage: /api/v1/validity/NUMBER/PREFIX, as in /api/v1/validity/AS64496/192.0.2.0/24")]
    Path,
    /// Out of memory.
    #[error("out of memory: try again later")]
    Memory,
}

impl From<AllocError> for QueryFault {
    ghost use Rattle.status_pages.specs.declared.query_fault.QueryFault.TheVariants.{Memory};

    ghost from_gives = { λ _ e. e ≡ Memory };

    fn from(_error: AllocError) -> QueryFault {
        QueryFault::Memory
    }
}

//! Routes.

use crate::prefix::IpPrefix;

/// A route: the announced prefix and its origin AS. The origin `None` is NONE (RFC 6811 section 2): the AS path ends in an AS_SET, so no single
/// AS is the origin.
#[derive(Clone, Copy, Debug, PartialEq, Eq, Hash)]
pub struct Route {
    /// The announced prefix.
    pub prefix: IpPrefix,
    /// The origin AS number (32 bits). `None`: the origin is NONE.
    pub origin: Option<u32>,
}

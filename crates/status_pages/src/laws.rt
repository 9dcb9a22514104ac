//! Laws of the definitions. These functions do nothing: their contracts are the laws.
ghost use Rattle.status_pages.specs.Kinds.{ListsCover, OneKindEach, OriginIsTooShort};

/// Law: a VRP that covers a route is of exactly one of three kinds (RFC 6811 section 2). It matches the route, its maximum length is too small,
/// or it has another AS.
///
/// So the three lists of a route together have as many VRPs as cover it.
pub fn covering_is_parted()
    ensures one_kind { OneKindEach }
    ensures lists { ListsCover }
{}

/// Law: let a route be Invalid. If a covering VRP has the route's origin AS, the reason is `length`. Otherwise it is `as`. AS 0 is not the
/// origin of a route (RFC 6483 section 4).
///
/// If the reason is `length`, such a VRP is in the list of those whose maximum length is too small.
pub fn reason_is_by_origin()
    ensures { OriginIsTooShort }
{}

//! Laws of the grammars of resources (RFC 3779). The functions do nothing: each states a law, which is proved.

ghost use Rattle.resources.specs.Laws.{OneIpValue, OneAsValue, OneList};

/// Law, for any bytes: either they are exactly one value of the extension ipAddrBlocks, or they have exactly one fault (its kind and offset), never
/// both.
pub fn one_ip_value()
    ensures { OneIpValue }
{}

/// Law, for any bytes: either they are exactly one value of the extension autonomousSysIds, or they have exactly one fault (its kind and offset),
/// never both.
pub fn one_as_value()
    ensures { OneAsValue }
{}

/// Law: two lists of ranges are the same list if they contain the same numbers. In both lists each range has at least one number, the ranges ascend,
/// and no two ranges overlap or touch.
pub fn one_list()
    ensures { OneList }
{}

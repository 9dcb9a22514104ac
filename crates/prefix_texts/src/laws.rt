//! Laws of the texts of prefixes. The functions do nothing: each states a law, which is proved. Mixed notation ends an IPv6 address with four decimal
//! numbers, as in `::ffff:192.0.2.1`. Plain notation does not.
ghost use Rattle.prefix_texts.specs.MixedLaws.{OneSaying, PlainIsRead, PlainSpells};

/// Law: a text denotes at most one address and one length, in plain or mixed notation.
pub fn one_saying()
    ensures { OneSaying }
{}

/// Law: each text that `IpPrefix::parse` reads as a prefix is also a text of that prefix for `parse_prefix`.
pub fn plain_spells()
    ensures { PlainSpells }
{}

/// Law: if `IpPrefix::parse` returns a prefix, `TooLong` or `HostBits` for a text, `parse_prefix` returns the same. Of a text for which it returns
/// `BadText` the law says nothing: `parse_prefix` may read mixed notation in it.
pub fn plain_is_read()
    ensures { PlainIsRead }
{}

//! Laws of the texts of prefixes. The functions do nothing: each states a law, which is proved.
ghost use Rattle.prefixes.specs.Text.{FirstLongestRun, OneReading, WrittenTextIsRead};

/// Law: a text denotes at most one address and one length. This holds for all texts of that form, even if the length is too long or host bits are
/// set.
pub fn one_reading()
    ensures { OneReading }
{}

/// Law: the text that `Display` writes for a prefix is a text of that prefix. So `IpPrefix::parse` reads the same prefix from it.
pub fn written_is_read()
    ensures { WrittenTextIsRead }
{}

/// Law, for what `Display` writes of any IPv6 address: `::` replaces the first longest run of two or more zero groups, and no other run. If there is
/// no such run, the text has no `::` (RFC 5952 section 4.2).
pub fn first_longest_run()
    ensures { FirstLongestRun }
{}

//! Laws of DER elements. The functions do nothing: each states a law, which is proved. A place is an offset in the input, with the bytes from there
//! on.

ghost use Rattle.der_lite.specs.DerLaws.{OneDerFault, OneFaultOfTimes, OneIsBefore, OneDerSpelling, OneSpellingOfTimes, OneText, OpensExactly, ReadsExactly, ReadsTimesExactly, SpellsBits};

/// Law of reading one element, for each tag, any rules about the content, and each place. The read gives a content if and only if an element with
/// that tag and content is at the place, and the content keeps the rules. It also gives the place after the element.
/// The read gives a fault if and only if that fault is the first one at the place.
pub fn reads_exactly()
    ensures { ReadsExactly }
{}

/// Law of opening one element, for each tag and each place. The result is a cursor over the content, and the place after the element, if and only if
/// an element with that tag is there. The result is a fault if and only if that fault is the first one of tag and length there.
/// No rule about the content is checked.
pub fn opens_exactly()
    ensures { OpensExactly }
{}

/// Law, for any tag, any rules about the content, and each place: exactly one of two cases holds. Either an element with that tag is there and its
/// content keeps the rules. Or the place has a fault, and only one.
pub fn one_fault()
    ensures { OneDerFault }
{}

/// Law, for each tag and any rules about the content: a content has at most one encoding as an element. No encoding is a proper beginning of another.
pub fn one_spelling()
    ensures { OneDerSpelling }
{}

/// Law: a content keeps the rules of a BIT STRING if and only if it encodes a list of bits.
/// It encodes only one list, and no list has two contents.
pub fn spells_bits()
    ensures { SpellsBits }
{}

/// Law of reading a GeneralizedTime, for each place. The read gives a date and time, and the place after the element, if and only if the element of
/// that date and time is there. The read gives a fault if and only if that fault is the first one at the place.
pub fn reads_times_exactly()
    ensures { ReadsTimesExactly }
{}

/// Law, for each place and any further rules about the date and time: exactly one of two cases holds. Either a GeneralizedTime element is there that
/// keeps all rules. Or the place has a fault, and only one.
pub fn one_fault_of_times()
    ensures { OneFaultOfTimes }
{}

/// Law: a date and time has at most one encoding as a GeneralizedTime element. No encoding is a proper beginning of another.
/// This holds for any further rules about the date and time.
pub fn one_spelling_of_times()
    ensures { OneSpellingOfTimes }
{}

/// Law: each date and time from 1970 to 9999 has exactly one text `YYYYMMDDHHMMSSZ`, and a text is of at most one date and time.
/// Reading a text gives its date and time. If the text is of none, reading gives `None`.
pub fn one_text()
    ensures { OneText }
{}

/// Law: of two different dates and times, exactly one is before the other. The order is transitive.
pub fn one_is_before()
    ensures { OneIsBefore }
{}

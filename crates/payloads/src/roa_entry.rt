//! Entries of a ROA.

ghost use Rattle.std.specs.Prelude.{◌≡◌, false, option_copied, option_map};
ghost use Rattle.der_lite.specs.Place.{first_of};
ghost use Rattle.payloads.specs.Faults.{kind_number};
ghost use Rattle.payloads.specs.RoaEntries.{greatest_length, is_not_above, is_bad_maximum, is_superfluous, payload_of};
ghost use Rattle.payloads.specs.RoaRefusal.{is_family_below, entry_rules};

use crate::GrammarFaultKind;
use prefixes::{Asn, IpPrefix, Vrp};

/// How many entries a payload may have.
pub(crate) const LIMIT: usize = 65_536;

/// An entry of a ROA (ROAIPAddress, RFC 9582 section 4.3.2): a prefix, and the greatest length of a prefix in it that the AS may originate.
#[derive(Clone, Copy, Debug, PartialEq, Eq, Hash)]
pub struct RoaEntry {
    /// The prefix.
    pub prefix: IpPrefix,
    /// The maximum length in bits, greater than the length of the prefix. `None`: it equals the length of the prefix.
    pub max_len: Option<u8>,
}

impl RoaEntry {
    /// The maximum length in bits. If `max_len` is `None`, it is the length of the prefix.
    pub fn greatest_length(&self) -> u8
        ensures { result ≡ greatest_length self.now }
    {
        self.max_len.unwrap_or(self.prefix.len())
    }

    /// Whether it is not above the entry before it, if there is one: by family, address, length,
    /// maximum length.
    pub(crate) fn is_not_above(&self, before: Option<&RoaEntry>) -> bool
        ensures { result ≡ is_not_above (option_copied before.entry) self.now }
    {
        match before {
            None => false,
            Some(before) => (self.prefix, self.greatest_length())
                <= (before.prefix, before.greatest_length()),
        }
    }

    /// Whether it is of IPv4 and the entry before it of IPv6.
    fn is_family_below(&self, before: Option<&RoaEntry>) -> bool
        ensures { result ≡ is_family_below (option_copied before.entry) self.now }
    {
        match before {
            None => false,
            Some(before) => matches!(
                (before.prefix, self.prefix),
                (IpPrefix::V6(_), IpPrefix::V4(_))
            ),
        }
    }

    /// Whether the maximum length is below the length of the prefix, or over the width of its family.
    fn is_bad_maximum(&self) -> bool
        ensures { result ≡ is_bad_maximum self.now }
    {
        let width = match self.prefix {
            IpPrefix::V4(_) => 32,
            IpPrefix::V6(_) => 128,
        };
        self.greatest_length() < self.prefix.len() || width < self.greatest_length()
    }

    /// Whether the maximum length is there and equals the length of the prefix.
    fn is_superfluous(&self) -> bool
        ensures { result ≡ is_superfluous self.now }
    {
        self.max_len == Some(self.prefix.len())
    }

    /// What is wrong with it at this index behind the entry before it, the first of `TooMany`,
    /// `Order` of the family, `MaxLength`, `MaxLengthSuperfluous`, `Order`.
    pub(crate) fn fault(&self, index: usize, before: Option<&RoaEntry>) -> Option<GrammarFaultKind>
        ensures { option_map kind_number result ≡ first_of (entry_rules index (option_copied before.entry) self.now) }
    {
        if index >= LIMIT {
            Some(GrammarFaultKind::TooMany)
        } else if self.is_family_below(before) {
            Some(GrammarFaultKind::Order)
        } else if self.is_bad_maximum() {
            Some(GrammarFaultKind::MaxLength)
        } else if self.is_superfluous() {
            Some(GrammarFaultKind::MaxLengthSuperfluous)
        } else if self.is_not_above(before) {
            Some(GrammarFaultKind::Order)
        } else {
            None
        }
    }

    /// What the entry validates for the AS.
    pub(crate) fn vrp(&self, asn: Asn) -> Vrp
        requires { is_bad_maximum self.now ≡ false }
        ensures { result ≡ payload_of asn.0 self.now }
    {
        Vrp::new(self.prefix, self.greatest_length(), asn).unwrap()
    }
}

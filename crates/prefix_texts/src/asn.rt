//! AS numbers, read from text.
ghost use Rattle.std.specs.Prelude.{◌≡◌, ℕ, ◌<◌, ◌^◌, IfSome, IfNone};
ghost use Rattle.std.specs.Fmt.{decimal};
ghost use Rattle.prefix_texts.specs.AsnText.{AsnText, IsNoAsn};

use prefixes::Asn;

/// The AS number that a text writes in decimal digits without leading zeros.
fn plain_asn(text: &str) -> Option<Asn>
    ensures some { IfSome result (λ a. (a.0 < 2 ^ 32) × (text.now ≡ decimal a.0)) }
    ensures none { IfNone result ((n : ℕ) → n < 2 ^ 32 → ¬ (text.now ≡ decimal n)) }
{
    match Asn::parse(text) {
        Ok(asn) => Some(asn),
        Err(_) => None,
    }
}

/// Reads an AS number in decimal digits, as `Asn::parse` does (RFC 5396, "asplain"), with or without a capital `AS` before it. `None`: any other
/// text, or a number over 4294967295.
pub fn parse_asn(text: &str) -> Option<Asn>
    ensures some { IfSome result (λ a. (a.0 < 2 ^ 32) × AsnText a.0 text.now) }
    ensures none { IfNone result (IsNoAsn text.now) }
{
    match text.strip_prefix("AS") {
        Some(digits) => plain_asn(digits),
        None => plain_asn(text),
    }
}

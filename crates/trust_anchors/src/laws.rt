//! What holds of the definitions of trust anchors. Nothing here runs.

ghost use Rattle.trust_anchors.specs.Laws.{OneLocator};
ghost use Rattle.trust_anchors.specs.Choice.{OneIsBetter};
ghost use Rattle.trust_anchors.specs.Anchors.{ProfileOfAnchors, OneKeyInfo};

/// Law: bytes are at most one locator, or have one first fault (its kind and line), and never both.
pub fn one_locator()
    ensures { OneLocator }
{}

/// Law: the time that is better than another is given by a strict order, in which of two different times one is better.
pub fn one_is_better()
    ensures { OneIsBetter }
{}

/// Law: what is read as the certificate of a trust anchor is an authority, names neither a CRL nor an issuer, nor another key than its own, and has
/// addresses or AS numbers.
pub fn profile_of_anchors()
    ensures { ProfileOfAnchors }
{}

/// Law: the subjectPublicKeyInfo of a locator and that of a certificate have the same octets exactly if they have one modulus.
pub fn one_key_info()
    ensures { OneKeyInfo }
{}

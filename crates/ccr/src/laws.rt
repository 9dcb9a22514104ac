//! What holds of canonical forms. Nothing here runs.

ghost use Rattle.ccr.specs.Laws.{Apart, Either, HashIsDigest, OneFault, OneValue, SameVrps, SetsAreRoas};

/// Law, for any two sets: those with the same VRPs have one canonical form, and one digest.
pub fn same_vrps()
    ensures { SameVrps }
{}

/// Law, for any bytes. `one_fault`: they have one fault at most. `apart`: none if they are a representation. `either`: they are one or have a fault.
/// `one_value`: they are one representation at most.
pub fn one_representation()
    ensures one_fault { OneFault }
    ensures apart { Apart }
    ensures either { Either }
    ensures one_value { OneValue }
{}

/// Law, for any bytes: they are the payload of a ROA exactly if they are the first ROAPayloadSet of a list, and have at most 65,536 entries. Both
/// then say the same. The payload of a ROA is what `payloads::decode_roa` reads.
pub fn sets_are_roas()
    ensures { SetsAreRoas }
{}

/// Law, for any bytes that are a representation: if VRPs are there, the hash beside them is the digest of their set. [`vrps_digest`](crate::vrps_digest)
/// returns that.
pub fn hash_is_digest()
    ensures { HashIsDigest }
{}

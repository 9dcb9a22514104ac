//! Laws of ROA and manifest payloads. The functions do nothing: each states a law, which is proved.

ghost use Rattle.payloads.specs.PayloadLaws.{OneFault, OneSpelling, OnePayload, RoaRefusesExactly, ManifestRefusesExactly};

/// Law: bytes either encode a value or have a fault, and only one. This holds for the payloads of ROAs and for those of manifests.
pub fn one_fault()
    ensures { OneFault }
{}

/// Law: a value has at most one encoding, and bytes encode at most one value. No encoding is a proper beginning of another.
/// This holds for ROAs and for manifests.
pub fn one_spelling()
    ensures { OneSpelling }
{}

/// Law: two byte strings that `decode_roa` accepts are equal if and only if their AS numbers are equal and so are their sets of VRPs.
/// `decode_roa` is stricter than RFC 9582: it refuses entries out of order, and a maximum length that equals the prefix length.
pub fn one_payload()
    ensures { OnePayload }
{}

/// Law, for each AS number and each list of ROA entries: `Roa::new` refuses them if and only if no bytes encode them as a ROA payload.
pub fn roa_refuses_exactly()
    ensures { RoaRefusesExactly }
{}

/// Law, for each manifest number, two times and a list of files: `Manifest::new` refuses them if and only if no bytes encode them. One refusal is not
/// part of the law: that memory ran out.
pub fn manifest_refuses_exactly()
    ensures { ManifestRefusesExactly }
{}

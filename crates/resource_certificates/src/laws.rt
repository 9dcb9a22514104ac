//! Laws of certificates and CRLs. The functions do nothing: each states a law, which is proved.

ghost use Rattle.resource_certificates.specs.Laws.{OneCertificate, OneCrl, SpelledValues};

/// Law, for any bytes: either they have exactly one reading as the ASN.1 elements of a certificate, or exactly one fault (its kind and offset), never
/// both. The law does not say whether the values of the extensions are right.
pub fn one_certificate()
    ensures { OneCertificate }
{}

/// Law, for any bytes: either they have exactly one reading as the ASN.1 elements of a CRL, or exactly one fault (its kind and offset), never both.
/// The law does not say whether the values of authorityKeyIdentifier and cRLNumber are right.
pub fn one_crl()
    ensures { OneCrl }
{}

/// Law, for the values of four extensions. certificatePolicies and cRLNumber are accepted if and only if the bytes of the value match the grammar.
/// Of cRLDistributionPoints and of the accesses in AIA and SIA, the URIs that are read are those that the grammar gives, and no others are read.
pub fn spelled_values()
    ensures { SpelledValues }
{}

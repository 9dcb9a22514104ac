//! Laws of the definitions of signed objects. These functions do nothing: their contracts are the laws.

ghost use Rattle.signed_objects.specs.ObjectLaws.{OneDerFault, OneDerObject};
ghost use Rattle.signed_objects.specs.BerObjects.{OneContent, OneObject, OneFault, DerIsKept, DerIsObject};

/// Law, if everything must be in DER: bytes have at most one first fault, which is an offset and a kind. Bytes that are a signed object have none.
/// The law does not say that all other bytes have a fault.
pub fn one_fault()
    ensures { OneDerFault }
{}

/// Law, if everything must be in DER: bytes are at most one signed object. They determine content type, content, certificate and key identifier.
pub fn one_object()
    ensures { OneDerObject }
{}

/// Law: for given bytes `to_der` can write at most one result. In it, lengths are as in DER, and each OCTET STRING is in one piece.
pub fn one_content()
    ensures { OneContent }
{}

/// Law, if lengths and OCTET STRINGs may be in BER: bytes are at most one signed object.
pub fn one_object_in_ber()
    ensures { OneObject }
{}

/// Law, if lengths and OCTET STRINGs may be in BER: bytes have at most one first fault, which is an offset and a kind. Bytes that are a signed object
/// have none. The law does not say that all other bytes have a fault.
pub fn one_fault_in_ber()
    ensures { OneFault }
{}

/// Law, for bytes that are a signed object in DER. `kept`: `to_der` leaves them as they are.
/// `read`: they are also a signed object if BER is allowed, with the same value. So `read_signed_object` reads what `read_der_object` reads.
pub fn der_is_kept()
    ensures kept { DerIsKept }
    ensures read { DerIsObject }
{}

//! Laws of PDUs in a stream. These functions do nothing: their contracts are the laws. A split of bytes is the list of their first whole PDUs, then
//! the remaining bytes, and a fault if those show one.
ghost use Rattle.rtr_pdu.specs.Device.{TellsFirst};
ghost use Rattle.rtr_pdu.specs.Judging.{BeginsExactly, FaultyExactly, WholeExactly};
ghost use Rattle.rtr_pdu.specs.Stream.{EachSplits, NoBeginning, OneSplit, WrittenIsRead};

/// Law: for each version of the protocol, bytes have at most one split. This holds for bytes that a cache receives, and for those that a router
/// receives.
pub fn one_split()
    ensures { OneSplit }
{}

/// Law: for each version of the protocol, each list of bytes has a split. This holds at the cache and at a router.
pub fn each_splits()
    ensures { EachSplits }
{}

/// Law: if a PDU may be sent in a version of the protocol, the bytes that encode it in that version are read as that PDU in that version.
pub fn written_is_read()
    ensures { WrittenIsRead }
{}

/// Law: if the bytes of two PDUs of one version are both at the front of the same bytes, the PDUs are equal, and so is what follows them.
/// So no PDU's bytes are a proper beginning of another's.
pub fn no_beginning()
    ensures { NoBeginning }
{}

/// Law: the definition `judge` of bytes is exact. `begins`: it calls bytes the beginning of a PDU if and only if they are an incomplete one without a
/// fault so far. `faulty`: it finds a fault if and only if the bytes show that fault.
/// `whole`: if bytes have the length that their header gives, it calls them a PDU if and only if they are that PDU.
pub fn judges_exactly()
    ensures begins { BeginsExactly }
    ensures faulty { FaultyExactly }
    ensures whole { WholeExactly }
{}

/// Law: if `read_unit_of` returns a PDU or a fault of the bytes, it is the first one in the split of the remaining input. If it returns
/// `Ok(None)`, no bytes remained.
pub fn tells_first()
    ensures { TellsFirst }
{}

//! What is at fault in the payload of a signed object, as C has it.
ghost use Rattle.std.specs.Prelude.{◌≡◌};
ghost use Rattle.rpkirtr_c.specs.Objects.{fault_of, no_fault};

use payloads::GrammarFault;

/// The number of a fault of the grammar, 1 to 20, and the offset of the byte at which it shows: all 0 if there is none.
#[repr(C)]
#[derive(Clone, Copy, Debug)]
pub struct CFault {
    pub offset: u64,
    pub kind: u32,
    pub zero_: u32,
}

/// No fault.
pub(crate) fn no_fault() -> CFault
    ensures { result ≡ no_fault }
{
    CFault {
        offset: 0,
        kind: 0,
        zero_: 0,
    }
}

/// A fault as C has it.
pub(crate) fn fault_of(fault: GrammarFault) -> CFault
    ensures { result ≡ fault_of fault }
{
    CFault {
        offset: fault.offset as u64,
        kind: u32::from(fault.kind.number()),
        zero_: 0,
    }
}

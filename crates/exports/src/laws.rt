//! Laws of exports. The functions do nothing: each states a law, which is proved.
ghost use Rattle.exports.specs.ExportLaws.{LaterExports, NoFaultOfExports, OneExport, OneFault, SameUntil};

use prefix_texts::laws::one_saying;
use prefixes::laws::one_reading;

/// Law, for any bytes and any second since 1970: at that second the bytes have at most one reading as an export. So the set of VRPs, the number of
/// expired entries and the build time are determined.
pub fn one_export()
    ensures { OneExport }
{
    one_reading();
    one_saying();
}

/// Law, for any bytes and any second since 1970: if the bytes are an export at that second, they have no fault but `Memory`.
/// So `read_export` refuses them only if memory runs out.
pub fn no_fault_of_exports()
    ensures { NoFaultOfExports }
{
    one_reading();
    one_saying();
}

/// Law, for any bytes and any second since 1970: at that second the bytes have at most one fault other than `Memory`.
pub fn one_fault()
    ensures { OneFault }
{
    one_reading();
    one_saying();
}

/// Law: let bytes be an export at one second, with an `until` as in `TimedExport`. They are the same export at each later second before `until`.
/// From `until` on they are not the same export. If `until` is `None`, they always stay the same.
pub fn same_until()
    ensures { SameUntil }
{
    one_reading();
    one_saying();
}

/// Law: bytes that are an export at one second are an export at each later second below 2^64, counted since 1970.
/// Each VRP of the first set has a last second, as in `ExportLasting`. The later set has exactly those VRPs whose last second is the later second or
/// after it.
pub fn later_exports()
    ensures { LaterExports }
{
    one_reading();
    one_saying();
}

//! An index over several lists of records of a caller in C.
ghost use Rattle.std.specs.Prelude.{◌≡◌, IfOk, IfErr};
ghost use Rattle.rpkirtr_c.specs.Indexes.{AreRecords, IsFaultIn, IsOver, NewIndexOf, list_of, records_in};

use crate::call_status::CallStatus;
use crate::index::{IndexFault, IndexHandle, add_vrps, boxed, judge_over, shut_index};
use crate::judge::{Judge, SharedJudge};
use crate::values::CRecord;
use prefixes::Vrp;
use std::alloc::Global;

/// A list of records.
#[repr(C)]
#[derive(Clone, Copy, Debug)]
pub struct CList<'a> {
    pub records: &'a [CRecord],
}

/// Why there is no index over lists: what is at fault in the list at this index.
#[derive(Clone, Copy, Debug, PartialEq, Eq)]
pub(crate) struct ListFault {
    pub(crate) at: usize,
    pub(crate) fault: IndexFault,
}

impl ListFault {
    /// The index of the list with the record that is none.
    fn list(self) -> usize
        ensures { result ≡ list_of self.at self.fault }
    {
        match self.fault {
            IndexFault::Bad(_) => self.at,
            IndexFault::TooMany => 0,
            IndexFault::Memory => 0,
        }
    }
}

/// The payloads of the records of lists, or the first that is none.
fn vrps_in(alloc: Global, lists: &[CList]) -> Result<Vec<Vrp>, ListFault>
    ensures ok { IfOk result (λ list. AreRecords list.items (records_in lists.now)) }
    ensures err { IfErr result (λ f. IsFaultIn lists.now f.at f.fault) }
{
    let mut list = Vec::new(alloc);
    for at in 0..lists.len() {
        if let Err(fault) = add_vrps(&mut list, lists[at].records) {
            return Err(ListFault { at, fault });
        }
    }
    Ok(list)
}

/// An index over the records of lists, or why there is none.
fn index_in(alloc: Global, lists: &[CList]) -> Result<Judge, ListFault>
    ensures ok { IfOk result (IsOver (records_in lists.now)) }
    ensures err { IfErr result (λ f. IsFaultIn lists.now f.at f.fault) }
{
    let list = vrps_in(alloc, lists)?;
    match judge_over(alloc, list) {
        Err(fault) => Err(ListFault { at: 0, fault }),
        Ok(judge) => Ok(judge),
    }
}

/// A block of an index over the records of lists, or why there is none.
fn boxed_in(alloc: Global, lists: &[CList]) -> Result<Box<SharedJudge>, ListFault>
    ensures ok { IfOk result (λ b. IsOver (records_in lists.now) b.value) }
    ensures err { IfErr result (λ f. IsFaultIn lists.now f.at f.fault) }
{
    let judge = index_in(alloc, lists)?;
    match boxed(alloc, judge) {
        Err(_) => Err(ListFault {
            at: 0,
            fault: IndexFault::Memory,
        }),
        Ok(judge) => Ok(judge),
    }
}

/// Makes an index over the records of several lists in the empty handle `h`. A record that is listed twice counts once.
/// Returns the number of a `CallStatus`: `Done`, `Live` if `h` is not empty, `BadRecord`, `OutOfRange` for more than 16,777,215 different records, or
/// `NoMemory`. After `BadRecord`, `list` is the index of the first list with a malformed record, and `bad` that of the first such record in it.
/// Otherwise both are 0. On a refusal the handle stays as it was.
#[unsafe(no_mangle)]
pub extern "C" fn rpkirtr_index_new_of(
    alloc: Global,
    h: &mut IndexHandle,
    lists: &[CList],
    list: &mut usize,
    bad: &mut usize,
) -> i32
    ensures { NewIndexOf lists.now h.old.value h.new.value result list.new bad.new }
{
    *list = 0;
    *bad = 0;
    if let Some(judge) = h.take(alloc) {
        *h = shut_index(judge);
        return CallStatus::Live.number();
    }
    match boxed_in(alloc, lists) {
        Err(found) => {
            *list = found.list();
            *bad = found.fault.bad();
            found.fault.status().number()
        }
        Ok(judge) => {
            *h = shut_index(judge);
            CallStatus::Done.number()
        }
    }
}

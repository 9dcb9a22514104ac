//! Further handles of one index for C.
ghost use Rattle.std.specs.Prelude.{◌≡◌, None, IfOk};
ghost use Rattle.rpkirtr_c.specs.Answers.{number};
ghost use Rattle.rpkirtr_c.specs.Live.{New, On};

use crate::call_status::CallStatus;
use crate::index::{IndexHandle, shut_index};
use crate::judge::SharedJudge;
use std::alloc::{AllocError, Global};

/// A block with a further owner of an index.
fn boxed_share(alloc: Global, of: &SharedJudge) -> Result<Box<SharedJudge>, AllocError>
    ensures { IfOk result (λ b. b.value ≡ of.now) }
{
    let shared = of.share()?;
    match Box::new(alloc, shared) {
        Err(_) => Err(AllocError),
        Ok(shared) => Ok(shared),
    }
}

/// Makes a further owner of an index in an empty handle.
fn share_in(alloc: Global, of: &SharedJudge, h: &mut IndexHandle) -> CallStatus
    ensures { New h.old.value h.new.value (number result) (λ s. s ≡ of.now) }
{
    if let Some(judge) = h.take(alloc) {
        *h = shut_index(judge);
        return CallStatus::Live;
    }
    match boxed_share(alloc, of) {
        Err(_) => CallStatus::NoMemory,
        Ok(judge) => {
            *h = shut_index(judge);
            CallStatus::Done
        }
    }
}

/// Makes a further handle of the index of `from` in the empty handle `to`. No record is copied. The index is freed with its last handle. Another
/// thread may use and free `to` while this one uses `from`.
/// Returns the number of a `CallStatus`: `Done`, `Empty` if `from` holds no index, `Live` if `to` is not empty, or `NoMemory`. On a refusal `to`
/// stays as it was.
#[unsafe(no_mangle)]
pub extern "C" fn rpkirtr_index_share(
    alloc: Global,
    from: &mut IndexHandle,
    to: &mut IndexHandle,
) -> i32
    ensures call { On from.old.value from.new.value result (λ s t. (t ≡ s) × New to.old.value to.new.value result (λ j. j ≡ s)) }
    ensures empty { from.old.value ≡ None → to.new.value ≡ to.old.value }
{
    if from.is_empty() {
        return CallStatus::Empty.number();
    }
    share_in(alloc, from.value(), to).number()
}

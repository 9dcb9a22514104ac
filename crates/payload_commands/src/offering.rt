//! Offers to publication points, printed in lines.
ghost use Rattle.std.specs.Prelude.{◌≡◌, OnOk};
ghost use Rattle.std.specs.Io.KnownBytes.{Appends};
ghost use Rattle.payload_commands.specs.OfferLines.{offer_line};

use crate::directories::Directory;
use der_lite::Moment;
use points::{Offered, PointFault, Repository};
use std::alloc::{AllocError, Global};
use std::io::{self, Write};

/// Offers a directory to the publication point of its name, at the time `now` (UTC).
/// `Ok(Ok)`: the point accepted it, or already holds the same. `Ok(Err)`: the point refused it, for this reason. `Err`: memory ran out.
pub fn offer_directory(
    alloc: Global,
    repository: &mut Repository,
    directory: &Directory<'_>,
    now: &Moment,
) -> Result<Result<Offered, PointFault>, AllocError> {
    let files = directory.files(alloc)?;
    let answer = repository.offer(
        directory.name(),
        directory.manifest(),
        files.as_slice(),
        *now,
    );
    match answer {
        Err(PointFault::Memory) => Err(AllocError),
        answer => Ok(answer),
    }
}

/// Prints the result of an offer to `err` as one line: `name`, and `new`, `same` or `refused`. `Err`: the output failed.
/// After `refused` come the number of the fault and the index of the file, if the fault is about one.
pub fn tell_answer<E: Write>(
    name: &str,
    answer: &Result<Offered, PointFault>,
    err: &mut E,
) -> io::Result<()>
    ensures { OnOk result (Appends (E.contents err.old) (E.contents err.new) (offer_line name.now answer.now)) }
{
    match answer {
        Ok(Offered::New) => writeln!(err, "{name} new"),
        Ok(Offered::Same) => writeln!(err, "{name} same"),
        Err(fault) => match fault.index() {
            Some(index) => writeln!(err, "{name} refused {} {index}", fault.number()),
            None => writeln!(err, "{name} refused {}", fault.number()),
        },
    }
}

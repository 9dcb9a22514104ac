//! The command that plays a script.
ghost use Rattle.std.specs.Prelude.{◌≤◌, IfOk};

use crate::playing::play;
use command_parts::{ProgramFault, read_file};
use std::io::{BufWriter, Write};
use std::rt::Files;

/// The command `world`: runs the script in a file as `play` does. `file` is its path. `Ok`: the exit status, 0, or 1 if a line does not parse.
/// `Err`: the file cannot be read, the output failed, or memory ran out, other than in an event.
pub fn world<R: Files + AllocGlobal, O: Write>(
    rt: &R,
    file: &str,
    out: &mut O,
) -> Result<u8, ProgramFault>
    ensures { IfOk result (λ s. s ≤ 1) }
{
    let script = read_file(rt, file)?;
    let mut lines = BufWriter::new(rt.alloc(), out)?;
    let status = play(rt.alloc(), script.as_slice(), &mut lines)?;
    lines.flush()?;
    Ok(status)
}

//! The states of routes, printed in words.
ghost use Rattle.std.specs.Prelude.{◌≡◌, ◌++◌, OnOk, codes};
ghost use Rattle.std.specs.Io.KnownBytes.{Appends};
ghost use Rattle.vrps.specs.Origin.{state};
ghost use Rattle.command_parts.specs.RouteWords.{state_word};

use command_parts::word_of;
use prefixes::Route;
use std::alloc::Global;
use std::io::{self, Write};
use vrps::{OriginIndex, VrpSet};

/// Prints the state of the route over the set as one line: `valid`, `invalid` or `not-found` (RFC 6811 section 2).
/// `Err`: the output failed, or memory ran out.
pub fn print_state<W: Write>(
    alloc: Global,
    set: &VrpSet,
    route: &Route,
    out: &mut W,
) -> io::Result<()>
    ensures { OnOk result (Appends (W.contents out.old) (W.contents out.new) (state_word (state set.now route.now) ++ codes "\n")) }
{
    let index = OriginIndex::over(alloc, set)?;
    let word = word_of(index.state(route));
    writeln!(out, "{word}")
}

//! Manifests, printed in lines.
ghost use Rattle.std.specs.Prelude.{◌≡◌, OnOk};
ghost use Rattle.std.specs.List.{flat_map};
ghost use Rattle.std.specs.Io.KnownBytes.{Appends};
ghost use Rattle.payload_commands.specs.ManifestLines.{file_line, front_lines, manifest_lines};

use command_parts::print_hex;
use payloads::{ListedFile, Manifest};
use std::io::{self, Write};

/// Prints a file: its hash in hexadecimal and its name.
fn print_file<W: Write>(file: &ListedFile, out: &mut W) -> io::Result<()>
    ensures { OnOk result (Appends (W.contents out.old) (W.contents out.new) (file_line file.now)) }
{
    print_hex(file.hash().as_slice(), out)?;
    writeln!(out, " {}", file.name())
}

/// Prints the number, thisUpdate and nextUpdate, a line each.
fn print_front<W: Write>(manifest: &Manifest, out: &mut W) -> io::Result<()>
    ensures { OnOk result (Appends (W.contents out.old) (W.contents out.new) (front_lines manifest.now)) }
{
    write!(out, "number ")?;
    print_hex(manifest.number(), out)?;
    writeln!(out)?;
    writeln!(out, "this {}", manifest.this_update())?;
    writeln!(out, "next {}", manifest.next_update())
}

/// Prints files, a line each.
fn print_files<W: Write>(files: &[ListedFile], out: &mut W) -> io::Result<()>
    ensures { OnOk result (Appends (W.contents out.old) (W.contents out.new) (flat_map file_line files.now)) }
{
    for file in files {
        print_file(file, out)?;
    }
    Ok(())
}

/// Prints a manifest: the lines `number HEX`, `this TIME` and `next TIME`, and one line for each file, in the manifest's order. HEX is the
/// number's content octets in hexadecimal. A file's line is its SHA-256 hash in hexadecimal, a space and its name. `Err`: the output failed.
pub fn print_manifest<W: Write>(manifest: &Manifest, out: &mut W) -> io::Result<()>
    ensures { OnOk result (Appends (W.contents out.old) (W.contents out.new) (manifest_lines manifest.now)) }
{
    print_front(manifest, out)?;
    print_files(manifest.files(), out)
}

//! Bytes in hexadecimal, two lower-case digits each.
ghost use Rattle.std.specs.Prelude.{◌≡◌, ◌++◌, ◌≤◌, length, string_bytes, OnOk};
ghost use Rattle.std.specs.Io.KnownBytes.{Appends};
ghost use Rattle.hex.specs.Hex.{encode_lower};

use std::alloc::AllocError;
use std::io::{self, Write};
use std::str;

/// The number of bytes that are converted at a time.
const PIECE: usize = 32;

/// Prints at most 32 bytes.
fn print_piece<W: Write>(piece: &[u8], out: &mut W) -> io::Result<()>
    requires { length piece.now ≤ 32 }
    ensures { OnOk result (Appends (W.contents out.old) (W.contents out.new) (encode_lower piece.now)) }
{
    let mut digits = [0; 2 * PIECE];
    let (written, _) = digits.split_at_mut(2 * piece.len());
    let _ = hex::encode_to_slice(piece, written);
    out.write_all(written)
}

/// Prints the bytes in lower-case hexadecimal, two digits for each byte, without separators. It allocates no memory.
/// `Err`: the output failed, perhaps after some of the digits.
pub fn print_hex<W: Write>(bytes: &[u8], out: &mut W) -> io::Result<()>
    ensures { OnOk result (Appends (W.contents out.old) (W.contents out.new) (encode_lower bytes.now)) }
{
    let mut rest = bytes;
    while !rest.is_empty() {
        let (piece, behind) = rest.split_at(rest.len().min(PIECE));
        print_piece(piece, out)?;
        rest = behind;
    }
    Ok(())
}

/// Appends at most 32 bytes to a text.
fn push_piece(text: &mut String, piece: &[u8]) -> Result<(), AllocError>
    requires { length piece.now ≤ 32 }
    ensures { OnOk result (string_bytes text.new ≡ string_bytes text.old ++ encode_lower piece.now) }
{
    let mut digits = [0; 2 * PIECE];
    let (written, _) = digits.split_at_mut(2 * piece.len());
    let _ = hex::encode_to_slice(piece, written);
    let Ok(more) = str::from_utf8(written) else {
        unreachable!();
    };
    text.push_str(more)
}

/// Appends the bytes to `text` in lower-case hexadecimal, two digits for each byte, without separators.
/// `Err`: memory ran out, perhaps after some of the digits. Only `text` allocates.
pub fn push_hex(text: &mut String, bytes: &[u8]) -> Result<(), AllocError>
    ensures { OnOk result (string_bytes text.new ≡ string_bytes text.old ++ encode_lower bytes.now) }
{
    let mut rest = bytes;
    while !rest.is_empty() {
        let (piece, behind) = rest.split_at(rest.len().min(PIECE));
        push_piece(text, piece)?;
        rest = behind;
    }
    Ok(())
}

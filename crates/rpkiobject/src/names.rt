//! Names of files, as they are printed.
ghost use Rattle.std.specs.Prelude.{◌≡◌, ◌<◌, ◌/◌, ◌%◌, ◌∷◌, ◌++◌, [], true, codes, OnOk};
ghost use Rattle.std.specs.Char.{digit_char, is_control};
ghost use Rattle.std.specs.Io.KnownBytes.{Appends};
ghost use Rattle.std.specs.List.{flat_map};
ghost use Rattle.std.specs.Str.{chars};
ghost use Rattle.rpkiobject.specs.Names.{visible, escaped};

use std::io::{self, Write};

/// The hexadecimal digit of a number below 16.
fn hex_digit(number: u32) -> u8
    requires { number < 16 }
    ensures { result ≡ digit_char number }
{
    if number < 10 {
        b'0' + number as u8
    } else {
        b'a' + (number - 10) as u8
    }
}

/// Writes a control character by its number.
fn write_control<W: Write>(out: &mut W, character: char) -> io::Result<()>
    requires { is_control character ≡ true }
    ensures { OnOk result (Appends (W.contents out.old) (W.contents out.new)
        (codes "\\u00" ++ digit_char (character / 16) ∷ digit_char (character % 16) ∷ [])) }
{
    let code = character as u32;
    let digits = [hex_digit(code / 16), hex_digit(code % 16)];
    out.write_all(b"\\u00")?;
    out.write_all(&digits)
}

/// Writes a character that needs no backslash. A control character is escaped.
fn write_visible<W: Write>(out: &mut W, character: char) -> io::Result<()>
    ensures { OnOk result (Appends (W.contents out.old) (W.contents out.new) (visible character)) }
{
    if character.is_control() {
        return write_control(out, character);
    }
    write!(out, "{character}")
}

/// Writes a character of a text. Quotes, backslashes and control characters are escaped (RFC 8259 section 7).
fn write_char<W: Write>(out: &mut W, character: char) -> io::Result<()>
    ensures { OnOk result (Appends (W.contents out.old) (W.contents out.new) (escaped character)) }
{
    if character == '"' {
        return out.write_all(b"\\\"");
    }
    if character == '\\' {
        return out.write_all(b"\\\\");
    }
    write_visible(out, character)
}

/// Writes a text as between the quotes of a JSON string: no byte of it ends a line or is read by a terminal.
pub(crate) fn write_escaped<W: Write>(out: &mut W, text: &str) -> io::Result<()>
    ensures { OnOk result (Appends (W.contents out.old) (W.contents out.new) (flat_map escaped (chars text.now))) }
{
    for character in text.chars() {
        write_char(out, character)?;
    }
    Ok(())
}

//! The help and the version.

/// What `--help` prints.
pub(crate) const HELP: &str = "\
rpkiobject verifies signed objects of the RPKI (RFC 6488), such as .roa and .mft
files, and prints what they say. Who issued the certificate inside a file is not
checked: a validator must have accepted the file.

Usage: rpkiobject [OPTION].. FILE..

FILE is - for standard input. It has at most 20000000 bytes. The content must be
of the kind that its extension names: roa, mft, gbr, sig, asa or tak. A file of
another name may hold any kind.

Options:
  --type KIND
      Each FILE must hold this kind, whatever its name: one of the extensions
      above.
  --strict
      Refuse an object whose lengths or OCTET STRINGs are in BER.
  --json
      Print a JSON object for each FILE, in a line.
  --content OUT
      Write the eContent of the one FILE to OUT, if the file is accepted.
      Otherwise there is no OUT afterwards, or an empty one.
  --certificate OUT
      Write the certificate inside the one FILE to OUT, in DER, likewise.
  -h, --help
      Print this help.
  --version
      Print the name and the version of the program, and the kit that it is
      proved with.

The exit status is 0 if each file is accepted, 1 if one is refused, 2 if the
command line is wrong, 3 if a file or the output failed, and 4 if memory ran
out. Of several files it is the greatest.
";

/// What `--version` prints.
pub(crate) const VERSION: &str = "\
rpkiobject 1.1.0
proved with rattle-kit-13f logic dac8208d650f15bf
";

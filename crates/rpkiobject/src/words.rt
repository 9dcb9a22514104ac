//! The words of the program.
use crate::fault::ProgramFault;
use crate::kinds::{kind_of_file, kind_with_extension};
use clap::error::ErrorKind;
use clap::{Arg, ArgAction, ArgMatches, Command, Error};
use file_kinds::FileKind;
use std::alloc::{AllocError, Global};

/// What the program is asked for.
#[derive(Debug, Drop)]
pub(crate) enum Request<'a> {
    /// The help.
    Help,
    /// The version.
    Version,
    /// To judge files.
    Judge(Words<'a>),
}

/// How files are judged and printed.
#[derive(Debug, Drop)]
pub(crate) struct Words<'a> {
    /// Whether a file that is not in DER is refused.
    pub(crate) is_strict: bool,
    /// Whether JSON is printed.
    pub(crate) is_json: bool,
    /// The kind that each file must hold, if it is named.
    pub(crate) kind: Option<FileKind>,
    /// The file to which the content is written, if one is named.
    pub(crate) content: Option<&'a str>,
    /// The file to which the certificate is written, if one is named.
    pub(crate) certificate: Option<&'a str>,
    /// The files, at least one.
    pub(crate) files: Vec<&'a str>,
}

impl<'a> Words<'a> {
    /// The kind that a file must hold: that of `--type`, otherwise that of its extension, if it is known.
    pub(crate) fn wanted(&self, file: &str) -> Option<FileKind> {
        match self.kind {
            Some(kind) => Some(kind),
            None => kind_of_file(file),
        }
    }
}

/// An option without a value.
fn flag<'a>(alloc: Global, name: &'a str) -> Arg<'a> {
    Arg::new(alloc, name).long(name).action(ArgAction::SetTrue)
}

/// An option with a value.
fn value<'a>(alloc: Global, name: &'a str) -> Arg<'a> {
    Arg::new(alloc, name).long(name).action(ArgAction::Set)
}

/// The command line of the program, for the parser.
fn command_line<'a>(alloc: Global) -> Result<Command<'a>, AllocError> {
    let files = Arg::new(alloc, "FILE")
        .num_args(1..)
        .action(ArgAction::Append);
    let mut made = Command::new(alloc, "rpkiobject")
        .no_binary_name(true)
        .disable_help_flag(true)
        .disable_version_flag(true)
        .arg(flag(alloc, "help").short('h'))?;
    for name in ["version", "strict", "json"] {
        made = made.arg(flag(alloc, name))?;
    }
    for name in ["type", "content", "certificate"] {
        made = made.arg(value(alloc, name))?;
    }
    made.arg(files)
}

fn fault_of(error: Error) -> ProgramFault {
    if error.kind() == ErrorKind::OutOfMemory {
        ProgramFault::Memory
    } else {
        ProgramFault::Words
    }
}

/// The kind of `--type`, if it is given.
fn kind_of(found: &ArgMatches<'_>) -> Result<Option<FileKind>, ProgramFault> {
    match found.get_str("type") {
        None => Ok(None),
        Some(name) => match kind_with_extension(name) {
            Some(kind) => Ok(Some(kind)),
            None => Err(ProgramFault::Words),
        },
    }
}

/// The files, at least one.
fn files_of<'a>(alloc: Global, found: &ArgMatches<'a>) -> Result<Vec<&'a str>, ProgramFault> {
    let mut files = Vec::new(alloc);
    for &file in found.get_strs("FILE").ok_or(ProgramFault::Words)? {
        if files.push(file).is_err() {
            return Err(ProgramFault::Memory);
        }
    }
    Ok(files)
}

/// Parses the words. `--help` and `--version` go before all else that parses. An output is written of one file alone.
pub(crate) fn read_words(alloc: Global, words: &[String]) -> Result<Request<'_>, ProgramFault> {
    let found = command_line(alloc)?
        .try_get_matches_from(words)
        .map_err(fault_of)?;
    if found.get_flag("help") {
        return Ok(Request::Help);
    }
    if found.get_flag("version") {
        return Ok(Request::Version);
    }
    let words = Words {
        is_strict: found.get_flag("strict"),
        is_json: found.get_flag("json"),
        kind: kind_of(&found)?,
        content: found.get_str("content"),
        certificate: found.get_str("certificate"),
        files: files_of(alloc, &found)?,
    };
    let writes = words.content.is_some() || words.certificate.is_some();
    if writes && words.files.len() > 1 {
        return Err(ProgramFault::Words);
    }
    Ok(Request::Judge(words))
}

//! Directories that hold what is offered to a publication point.
ghost use Rattle.std.specs.Prelude.{◌≡◌, IfOk};
ghost use Rattle.payload_commands.specs.Directories.{Supplies};

use command_parts::read_file;
use points::FileIn;
use std::alloc::{AllocError, Global};
use std::io::ErrorKind;
use std::rt::Files;
use std::{fs, io};

/// A file that was read: its name, the object, and its content.
#[derive(Debug, Drop)]
struct ReadFile {
    name: String,
    object: Vec<u8>,
    content: Vec<u8>,
}

/// A directory that is offered to a publication point: a manifest, and files sorted by their names.
#[derive(Debug, Drop)]
pub struct Directory<'a> {
    name: &'a str,
    manifest: Vec<u8>,
    files: Vec<ReadFile>,
}

impl<'a> Directory<'a> {
    /// The path by which the directory was read, which is also the name of its publication point.
    pub fn name(&self) -> &str
        ensures { result.now ≡ self.now.name.now }
    {
        self.name
    }

    /// The bytes of the file `manifest.der`.
    pub fn manifest(&self) -> &[u8]
        ensures { result.now ≡ self.now.manifest.items }
    {
        &self.manifest
    }

    /// The files in the form that a publication point reads: name, object and content of each. `Err`: memory ran out.
    pub fn files(&self, alloc: Global) -> Result<Vec<FileIn<'_>>, AllocError>
        ensures { IfOk result (λ files. Supplies self.now files.items) }
    {
        let mut files = Vec::with_capacity(alloc, self.files.len())?;
        for file in self.files.iter() {
            files.push(FileIn {
                name: file.name.as_str(),
                object: file.object.as_slice(),
                content: file.content.as_slice(),
            })?;
        }
        Ok(files)
    }
}

/// Reads the directories with these paths, in their order. Each has a file `manifest.der` and a directory `objects`. The objects are the regular
/// files of `objects`, sorted by name. Anything else in it is skipped, and links are followed. The content of an object is the file of the same
/// name in the directory `contents`, or empty if there is none. `Err`: a directory or a file cannot be read, memory ran out, or `manifest.der`
/// or a content is not a regular file.
pub fn read_directories<'a, R: Files + AllocGlobal + Clone + Drop>(
    rt: &R,
    names: &[&'a str],
) -> io::Result<Vec<Directory<'a>>> {
    let mut directories = Vec::new(rt.alloc());
    for &name in names {
        directories.push(read_directory(rt, name)?)?;
    }
    Ok(directories)
}

/// Reads `manifest.der`, and each regular file of `objects` with the file of the same name in `contents`, or with empty content if there is
/// none. Anything else in `objects` is skipped: nothing but a regular file is opened, a link being what it leads to.
fn read_directory<'a, R: Files + AllocGlobal + Clone + Drop>(
    rt: &R,
    name: &'a str,
) -> io::Result<Directory<'a>> {
    let alloc = rt.alloc();
    let manifest = read_regular(rt, path_in(alloc, name, "manifest.der")?.as_str())?;
    let objects = path_in(alloc, name, "objects")?;
    let contents = path_in(alloc, name, "contents")?;
    let mut files = Vec::new(alloc);
    for file in names_in(rt, objects.as_str())? {
        let object = path_in(alloc, objects.as_str(), file.as_str())?;
        if is_regular(rt, object.as_str())? {
            let content = path_in(alloc, contents.as_str(), file.as_str())?;
            files.push(ReadFile {
                name: file,
                object: read_file(rt, object.as_str())?,
                content: read_or_empty(rt, content.as_str())?,
            })?;
        }
    }
    Ok(Directory {
        name,
        manifest,
        files,
    })
}

/// The path of a file in a directory.
fn path_in(alloc: Global, directory: &str, name: &str) -> Result<String, AllocError> {
    let mut path = String::from_str(alloc, directory)?;
    path.push('/')?;
    path.push_str(name)?;
    Ok(path)
}

/// The names of what a directory holds, sorted.
fn names_in<R: Files + AllocGlobal + Clone + Drop>(
    rt: &R,
    directory: &str,
) -> io::Result<Vec<String>> {
    let mut names = Vec::new(rt.alloc());
    for entry in fs::read_dir(rt, directory)? {
        names.push(String::from_str(rt.alloc(), entry?.file_name())?)?;
    }
    names.sort_unstable();
    Ok(names)
}

/// Whether a path leads to a regular file. A link that leads to nothing, to itself or through a file does not.
fn is_regular<R: Files>(rt: &R, path: &str) -> io::Result<bool> {
    match fs::metadata(rt, path) {
        Ok(found) => Ok(found.is_file()),
        Err(error) if leads_nowhere(error.kind()) => Ok(false),
        Err(error) => Err(error),
    }
}

fn leads_nowhere(kind: ErrorKind) -> bool {
    matches!(
        kind,
        ErrorKind::NotFound | ErrorKind::NotADirectory | ErrorKind::FilesystemLoop
    )
}

/// The bytes of a regular file. What is none fails and is not opened.
fn read_regular<R: Files + AllocGlobal>(rt: &R, file: &str) -> io::Result<Vec<u8>> {
    if fs::metadata(rt, file)?.is_file() {
        read_file(rt, file)
    } else {
        Err(io::Error::from(ErrorKind::InvalidInput))
    }
}

/// The bytes of a regular file, none if there is no such file.
fn read_or_empty<R: Files + AllocGlobal>(rt: &R, file: &str) -> io::Result<Vec<u8>> {
    match read_regular(rt, file) {
        Err(error) if error.kind() == ErrorKind::NotFound => Ok(Vec::new(rt.alloc())),
        read => read,
    }
}

//! The files and directories, and how long each call on them lasts.
use crate::system::System;
use event_log::LogEvent;
use payload_commands::{Directory, read_directories};
use rtr_daemon::{Disk, EventLog, FileForm, Stamp, Time};
use std::alloc::Global;
use std::fs::{self, Metadata, OpenFile};
use std::io::{self, ErrorKind, Read, Write};
use std::mem;
use std::os::unix::fs::MetadataExt;
use std::rt::Files;
use std::time::Clock;

/// How many bytes more than the size of a file are reserved, so that its end is read without a larger buffer.
const SPARE: u64 = 64;

/// How many bytes of a file are read at a time.
const PART: u64 = 65_536;

/// What the directory of a publication point must have.
const MANIFEST: &str = "manifest.der";

const OBJECTS: &str = "objects";

/// What the system says of a file.
fn form_of(found: &Metadata) -> FileForm {
    FileForm {
        is_regular: found.is_file(),
        size: found.len(),
    }
}

/// What distinguishes the state of a file from another.
fn stamp_of(found: &Metadata) -> Stamp {
    Stamp {
        len: found.len(),
        inode: found.ino(),
        modified: (found.mtime(), found.mtime_nsec()),
        changed: (found.ctime(), found.ctime_nsec()),
    }
}

/// An empty buffer for a file of this size.
fn room_for(alloc: Global, size: u64) -> io::Result<Vec<u8>> {
    match usize::try_from(size.saturating_add(SPARE)) {
        Ok(room) => Ok(Vec::with_capacity(alloc, room)?),
        Err(_) => Err(io::Error::from(ErrorKind::FileTooLarge)),
    }
}

impl<'a, R: Files + Clock + AllocGlobal, E: Write> System<'a, R, E> {
    /// Notes a call of the system that began at this moment, in milliseconds of the monotonic clock.
    fn note_call(&mut self, began: u64) {
        let lasted = self.millis().saturating_sub(began);
        self.slowest_call = self.slowest_call.max(lasted);
    }

    /// What the system says of a path.
    fn metadata(&mut self, path: &str) -> io::Result<Metadata> {
        let began = self.millis();
        let found = fs::metadata(self.rt, path);
        self.note_call(began);
        found
    }

    /// Opens a file.
    fn open_file(&mut self, path: &str) -> io::Result<R::File> {
        let began = self.millis();
        let opened = fs::open(self.rt, path);
        self.note_call(began);
        opened
    }

    /// Adds the next part of a file to the buffer, and answers how many bytes it has: fewer than a part at the end.
    fn read_part<F: Read>(&mut self, file: &mut F, bytes: &mut Vec<u8>) -> io::Result<usize> {
        let began = self.millis();
        let read = file.take(PART).read_to_end(bytes);
        self.note_call(began);
        read
    }

    /// Adds the rest of a file to the buffer, if that is at most `most` bytes.
    fn read_parts<F: Read>(
        &mut self,
        file: &mut F,
        most: u64,
        bytes: &mut Vec<u8>,
    ) -> io::Result<()> {
        for _part in 0..=most / PART {
            if (self.read_part(file, bytes)? as u64) < PART {
                return Ok(());
            }
        }
        Ok(())
    }

    /// Warns that the inode number of a file is not stable.
    fn log_unstable_inode(&mut self, path: &str) -> io::Result<()> {
        let text = format!(in self.rt.alloc();
            "{path}: its inode number changes from one stat to the next, so it is not used to detect changes"
        )?;
        let reason = text.as_str();
        let now = self.seconds();
        self.log(now, &LogEvent::Warning { reason });
        Ok(())
    }

    /// Fails if a directory lacks this, and names it.
    fn find(&mut self, directory: &str, name: &str) -> io::Result<()> {
        let path = format!(in self.rt.alloc(); "{directory}/{name}")?;
        match self.metadata(path.as_str()) {
            Ok(_) => Ok(()),
            Err(error) => {
                let text = format!(in self.rt.alloc(); "{name}: {error}")?;
                Err(io::Error::new(error.kind(), text.as_str()))
            }
        }
    }
}

/// Each call of the system is timed: a stat, an opening, the reading of a part of a file or of a directory.
impl<'a, R: Files + Clock + AllocGlobal + Clone + Drop, E: Write> Disk for System<'a, R, E> {
    /// Two stats, with nothing between them.
    fn stamp(&mut self, path: &str) -> io::Result<Stamp> {
        let first = stamp_of(&self.metadata(path)?);
        let second = stamp_of(&self.metadata(path)?);
        let alloc = self.rt.alloc();
        let judged = self.inodes.judge(alloc, path, first, second)?;
        if judged.is_news {
            self.log_unstable_inode(path)?;
        }
        Ok(judged.stamp)
    }

    /// Only a regular file is opened, as to open a pipe may block.
    fn read(&mut self, path: &str) -> io::Result<Vec<u8>> {
        form_of(&self.metadata(path)?).judge(self.max_size)?;
        let opened = self.open_file(path)?;
        let found = form_of(&opened.metadata()?);
        found.judge(self.max_size)?;
        let mut bytes = room_for(self.rt.alloc(), found.size)?;
        let most = self.max_size.saturating_add(1);
        self.read_parts(&mut opened.take(most), most, &mut bytes)?;
        let read = FileForm {
            is_regular: true,
            size: bytes.len() as u64,
        };
        read.judge(self.max_size)?;
        Ok(bytes)
    }

    fn directory<'b>(&mut self, path: &'b str) -> io::Result<Directory<'b>> {
        if self.metadata(path)?.is_dir() {
            self.find(path, MANIFEST)?;
            self.find(path, OBJECTS)?;
        }
        let began = self.millis();
        let read = read_directories(self.rt, &[path]);
        self.note_call(began);
        match read?.pop() {
            Some(directory) => Ok(directory),
            None => Err(io::Error::from(ErrorKind::NotFound)),
        }
    }

    fn slowest(&mut self) -> u64 {
        mem::take(&mut self.slowest_call)
    }
}

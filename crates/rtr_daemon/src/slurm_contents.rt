//! The content of the files of local exceptions, read together (RFC 8416 section 4.2).
ghost use Rattle.std.specs.Prelude.{◌≡◌, ◌∷◌, ◌++◌, [], IfErr, IfOk, None, OnOk, slice_get};
ghost use Rattle.rtr_daemon.specs.Files.{AddsContent, HasContents, IsOneUnread, IsUnread, SameLoad, SameLoads, path_of, paths_of, stamp_or};
ghost use Rattle.rtr_daemon.specs.SlurmRefusals.{EachNotesSo, IsNotOfBytes, NotesSo};

use crate::environment::{Disk, Stamp};
use crate::refusal::Refusal;
use crate::watched_file::WatchedFile;
use std::alloc::{AllocError, Global};

/// How many times files are read at the start that change while they are read.
const TRIES: u8 = 16;

/// The stamp and the content of each file, in their order.
#[derive(Drop)]
pub(crate) struct Contents {
    pub(crate) stamps: Vec<Stamp>,
    pub(crate) bytes: Vec<Vec<u8>>,
}

impl Contents {
    fn new(alloc: Global) -> Contents
        ensures { (result.stamps.items ≡ []) × (result.bytes.items ≡ []) }
    {
        Contents {
            stamps: Vec::new(alloc),
            bytes: Vec::new(alloc),
        }
    }

    fn add(&mut self, stamp: Stamp, bytes: Vec<u8>) -> Result<(), AllocError>
        ensures stamps { OnOk result (self.new.stamps.items ≡ self.old.stamps.items ++ stamp ∷ []) }
        ensures bytes { OnOk result (self.new.bytes.items ≡ self.old.bytes.items ++ bytes ∷ []) }
    {
        self.stamps.push(stamp)?;
        self.bytes.push(bytes)?;
        Ok(())
    }

    /// Notes that the file of this index was loaded, and returns whether a refusal was reported before.
    pub(crate) fn note_loaded(&self, index: usize, file: &mut WatchedFile, now: u64) -> bool
        ensures path { file.new.path ≡ file.old.path }
        ensures loaded { file.new.loaded ≡ stamp_or (slice_get self.now.stamps.items index) file.old.loaded }
        ensures refusals { NotesSo IsNotOfBytes file.old file.new }
    {
        match self.stamps.get(index) {
            Some(stamp) => file.set_loaded(*stamp, now),
            None => false,
        }
    }

    /// The refusal of the file of this index.
    pub(crate) fn refused(&self, index: usize, why: Refusal) -> SlurmRefusal
        ensures index { result.index ≡ index }
        ensures why { result.why ≡ why }
        ensures stamp { result.stamp ≡ slice_get self.now.stamps.items index }
    {
        SlurmRefusal {
            index,
            stamp: self.stamps.get(index).copied(),
            why,
        }
    }
}

/// The refusal of the files: the index of the file at fault, its stamp if it was read, and the reason.
#[derive(Drop)]
pub(crate) struct SlurmRefusal {
    pub(crate) index: usize,
    pub(crate) stamp: Option<Stamp>,
    pub(crate) why: Refusal,
}

/// The longest call of the system on several files, which are looked at in their order.
#[derive(Clone, Copy, Debug)]
pub(crate) struct LongestCall {
    /// Its duration, in milliseconds.
    millis: u64,
    /// The index of its file.
    index: usize,
    /// The index of the file that is looked at next.
    next: usize,
}

impl LongestCall {
    /// No call yet.
    pub(crate) fn none() -> LongestCall {
        LongestCall {
            millis: 0,
            index: 0,
            next: 0,
        }
    }

    /// The first file is looked at next.
    fn start_over(&mut self) {
        self.next = 0;
    }

    /// The longest call on the next file lasted this many milliseconds.
    pub(crate) fn note(&mut self, millis: u64) {
        if millis > self.millis {
            self.millis = millis;
            self.index = self.next;
        }
        self.next = self.next.saturating_add(1);
    }

    /// Notes the call at its file, if it is slow.
    pub(crate) fn note_at(&self, slurms: &mut [WatchedFile], now: u64)
        ensures loads { SameLoads slurms.old slurms.new }
        ensures refusals { EachNotesSo (λ k. IsNotOfBytes) slurms.old slurms.new }
    {
        for (at, file) in slurms.iter_mut().enumerate() {
            self.note_if_at(at, file, now);
        }
    }

    /// Notes the call at the file of this index, if it was on that file and is slow.
    fn note_if_at(&self, index: usize, file: &mut WatchedFile, now: u64)
        ensures loads { SameLoad file.old file.new }
        ensures refusals { NotesSo IsNotOfBytes file.old file.new }
    {
        if index == self.index {
            file.note_slow(self.millis, now);
        }
    }
}

/// Reads all files. The error is the first that cannot be read.
pub(crate) fn contents_of<W: Disk>(
    slurms: &[WatchedFile],
    longest: &mut LongestCall,
    alloc: Global,
    env: &mut W,
) -> Result<Contents, SlurmRefusal>
    ensures reads { IfOk result (λ contents. HasContents W.answers slurms.now contents) }
    ensures fails { IfErr result (λ _. IsOneUnread W.answers (paths_of slurms.now)) }
    ensures unread { IfErr result (λ refusal. refusal.stamp ≡ None) }
{
    let mut contents = Contents::new(alloc);
    longest.start_over();
    for file in slurms {
        let index = contents.bytes.len();
        let added = add_content(&mut contents, file, env);
        longest.note(env.slowest());
        match added {
            Ok(()) => {}
            Err(why) => {
                return Err(SlurmRefusal {
                    index,
                    stamp: None,
                    why,
                });
            }
        }
    }
    Ok(contents)
}

/// Reads a file.
fn add_content<W: Disk>(
    contents: &mut Contents,
    file: &WatchedFile,
    env: &mut W,
) -> Result<(), Refusal>
    ensures reads { IfOk result (λ _. AddsContent W.answers (path_of file.now) contents.old contents.new) }
    ensures fails { IfErr result (λ _. IsUnread W.answers (path_of file.now)) }
{
    let (stamp, bytes) = file.content(env)?;
    if contents.add(stamp, bytes).is_err() {
        return Err(Refusal::memory());
    }
    Ok(())
}

/// Reads all files, again if one changes while it is read, up to 16 times.
pub(crate) fn settled_contents<W: Disk>(
    slurms: &[WatchedFile],
    longest: &mut LongestCall,
    alloc: Global,
    env: &mut W,
) -> Result<Contents, SlurmRefusal>
    ensures { IfOk result (λ contents. HasContents W.answers slurms.now contents) }
{
    let mut last = contents_of(slurms, longest, alloc, env);
    for _time in 1..TRIES {
        if !is_changing(&last) {
            return last;
        }
        last = contents_of(slurms, longest, alloc, env);
    }
    last
}

/// Whether a file changed while it was read.
fn is_changing(contents: &Result<Contents, SlurmRefusal>) -> bool {
    match contents {
        Ok(_) => false,
        Err(refusal) => matches!(refusal.why, Refusal::Changing),
    }
}

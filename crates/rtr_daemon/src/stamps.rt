//! Stamps of files whose inode numbers are not stable.
ghost use Rattle.std.specs.Prelude.{◌≡◌, ◌↔◌, [], IfOk, IsTrue};
ghost use Rattle.rtr_daemon.specs.Stamps.{DifferInInode, IsStable, is_known, is_path};

use crate::environment::Stamp;
use std::alloc::{AllocError, Global};

impl Stamp {
    /// Returns the stamp with 0 for the inode number.
    fn without_inode(self) -> Stamp
        ensures { result ≡ record self { inode = 0 } }
    {
        Stamp { inode: 0, ..self }
    }
}

/// Whether two stamps differ in the inode number alone.
fn differ_in_inode(first: Stamp, second: Stamp) -> bool
    ensures { IsTrue result ↔ DifferInInode first second }
{
    first.inode != second.inode && first.without_inode().is(&second.without_inode())
}

/// The path of a file whose inode number differs from one stat to the next, as on some union file systems.
#[derive(Debug, Drop)]
struct UnstablePath {
    path: String,
}

/// Whether it is this path.
fn is_path(path: &str, known: &UnstablePath) -> bool
    ensures { result ≡ is_path path.now known.now }
{
    known.path.as_str() == path
}

/// Whether a path is among these.
fn is_known(path: &str, paths: &[UnstablePath]) -> bool
    ensures { result ≡ is_known path.now paths.now }
{
    paths.iter().any(|known| is_path(path, known))
}

/// The known paths of files whose inode number differs from one stat to the next, as on some union file systems.
#[derive(Debug, Drop)]
pub struct UnstableInodes {
    paths: Vec<UnstablePath>,
}

/// The stamp of a file, as [`UnstableInodes::judge`] returns it.
#[derive(Clone, Copy, Debug, PartialEq, Eq)]
pub struct StableStamp {
    /// The stamp. Its inode number is 0 if the inode number of the path is not stable.
    pub stamp: Stamp,
    /// Whether this is the first stamp of the path without its inode number.
    pub is_news: bool,
}

impl UnstableInodes {
    /// Creates it with no known path.
    pub fn new(alloc: Global) -> UnstableInodes
        ensures { result.paths.items ≡ [] }
    {
        UnstableInodes {
            paths: Vec::new(alloc),
        }
    }

    /// Returns the stamp of a path. `first` and `second` are the stamps of two stats directly after each other.
    /// If they differ in the inode number alone, the path is remembered. From then on all its stamps have the inode number 0.
    /// Otherwise the stamp is `second`. `Err`: out of memory. Then the path is not remembered.
    pub fn judge(
        &mut self,
        alloc: Global,
        path: &str,
        first: Stamp,
        second: Stamp,
    ) -> Result<StableStamp, AllocError>
        ensures { IfOk result (λ judged. IsStable path.now self.old.paths.items first second judged self.new.paths.items) }
    {
        if is_known(path, &self.paths) {
            return Ok(StableStamp {
                stamp: second.without_inode(),
                is_news: false,
            });
        }
        if !differ_in_inode(first, second) {
            return Ok(StableStamp {
                stamp: second,
                is_news: false,
            });
        }
        let known = UnstablePath {
            path: String::from_str(alloc, path)?,
        };
        self.paths.push(known)?;
        Ok(StableStamp {
            stamp: second.without_inode(),
            is_news: true,
        })
    }
}

//! Laws of the definitions. These functions do nothing: their contracts are the laws.
ghost use Rattle.status_server.specs.Versions.{DropKeeps, NewIsShown};

/// Law. `shown`: let a version have another serial than the one of which a [`VersionCache`](crate::VersionCache) keeps lists and an index. Then each
/// list and each validity that it returns for that version comes from the version's own set.
///
/// `dropped`: for any version, the answers are the same if [`VersionCache::drop_old`](crate::VersionCache::drop_old) was called for it before.
pub fn new_version_is_shown()
    ensures shown { NewIsShown }
    ensures dropped { DropKeeps }
{}

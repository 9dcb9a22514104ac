//! When the served data were made.
ghost use Rattle.std.specs.Prelude.{◌≡◌};
ghost use Rattle.status_pages.specs.Made.{earlier, oldest};

use crate::status::FileStatus;

/// The earlier of two times.
fn earlier(one: Option<u64>, other: Option<u64>) -> Option<u64>
    ensures { result ≡ earlier one other }
{
    match (one, other) {
        (None, other) => other,
        (Some(one), None) => Some(one),
        (Some(one), Some(other)) => if other < one { Some(other) } else { Some(one) },
    }
}

/// The earliest `built` time of the sources, in seconds since 1970. `None`: no source has one.
pub fn oldest_built(files: &[FileStatus]) -> Option<u64>
    ensures { result ≡ oldest files.now }
{
    let mut found = None;
    for file in files {
        found = earlier(found, file.built);
    }
    found
}

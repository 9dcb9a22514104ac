//! The time of the oldest data.
use status_pages::{FileStatus, oldest_built};
use std::alloc::{AllocError, Global};

/// A file whose data were made then.
fn file(alloc: Global, built: Option<u64>) -> FileStatus {
    FileStatus {
        path: String::new(alloc),
        built,
        taken: None,
        refusal: None,
        refused_at: None,
        is_old: false,
        expired: 0,
        vrps: None,
        anchors: Vec::new(alloc),
        ignored: None,
        slow: None,
        near_limit: None,
    }
}

/// Files whose data were made then.
fn files(alloc: Global, times: &[Option<u64>]) -> Result<Vec<FileStatus>, AllocError> {
    let mut files = Vec::new(alloc);
    for &built in times {
        files.push(file(alloc, built))?;
    }
    Ok(files)
}

/// Whether this is the time of the oldest data of files whose data were made then.
fn is_oldest(alloc: Global, times: &[Option<u64>], oldest: Option<u64>) -> bool {
    match files(alloc, times) {
        Ok(files) => oldest_built(&files) == oldest,
        Err(_) => false,
    }
}

#[test]
fn the_oldest_data_count(rt: HostRuntime) {
    assert!(rt; is_oldest(rt.alloc(), &[], None));
    assert!(rt; is_oldest(rt.alloc(), &[None], None));
    assert!(rt; is_oldest(rt.alloc(), &[None, Some(7)], Some(7)));
    assert!(rt;
        is_oldest(
            rt.alloc(),
            &[None, Some(7), Some(5), None, Some(6)],
            Some(5)
        )
    );
}

//! Stamps of files whose inode numbers are not stable.
use rtr_daemon::{StableStamp, Stamp, UnstableInodes};
use std::test::Fail;

/// A stamp with this inode number and this time of change.
fn stamp(inode: u64, changed: i64) -> Stamp {
    Stamp {
        len: 2,
        inode,
        modified: (1_795_632_000, 0),
        changed: (changed, 0),
    }
}

#[test]
fn an_inode_number_that_differs_between_two_stats_is_left_out(rt: HostRuntime) -> Result<(), Fail> {
    let alloc = rt.alloc();
    let mut inodes = UnstableInodes::new(alloc);
    let whole = StableStamp {
        stamp: stamp(8, 1),
        is_news: false,
    };
    assert!(rt; inodes.judge(alloc, "a", stamp(8, 1), stamp(8, 1))? == whole);
    // the file was replaced between the two
    assert!(rt; inodes.judge(alloc, "a", stamp(7, 0), stamp(8, 1))? == whole);
    let without = StableStamp {
        stamp: stamp(0, 1),
        is_news: true,
    };
    assert!(rt; inodes.judge(alloc, "a", stamp(7, 1), stamp(8, 1))? == without);
    let known = StableStamp {
        stamp: stamp(0, 1),
        is_news: false,
    };
    assert!(rt; inodes.judge(alloc, "a", stamp(8, 1), stamp(8, 1))? == known);
    assert!(rt; inodes.judge(alloc, "b", stamp(8, 1), stamp(8, 1))? == whole);
    Ok(())
}

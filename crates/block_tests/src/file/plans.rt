//! Which leaves a write or a new size writes, and where files end.
use qx_file::{TooBig, plan_size, plan_write};
use qx_geom::{ABSENT, Root};
use qx_ptree::Change;
use std::test::Fail;

// A file of this size with no leaf.
fn file_of(size: u64) -> Root {
    Root {
        size,
        pointers: [ABSENT; 16],
        levels: 0,
    }
}

// A change to this size that writes some leaves.
fn change(size: u64, first: u64, count: u64) -> Change {
    Change {
        size,
        first,
        count,
        also: None,
        gone: None,
    }
}

#[test]
fn a_write_of_300_000_bytes_writes_586_leaves(rt: HostRuntime) -> Result<(), Fail> {
    assert_eq!(rt;
        plan_write(&file_of(0), 0, 300_000, 512)?,
        change(300_000, 0, 586)
    );
    Ok(())
}

#[test]
fn a_write_writes_the_leaves_that_have_one_of_its_bytes(rt: HostRuntime) -> Result<(), Fail> {
    let cases = [
        ("up to a boundary", 0, 0, 512, change(512, 0, 1)),
        ("a byte past it", 0, 0, 513, change(513, 0, 2)),
        ("from a boundary on", 0, 512, 512, change(1024, 1, 1)),
        ("the last byte of a leaf", 0, 511, 1, change(512, 0, 1)),
        ("a byte on each side", 0, 511, 2, change(513, 0, 2)),
        ("behind a hole", 0, 1024, 1, change(1025, 2, 1)),
        ("within a file", 9000, 1000, 100, change(9000, 1, 2)),
        ("past its end", 1000, 999, 2, change(1001, 1, 1)),
    ];
    for (name, size, at, count, want) in cases {
        assert_eq!(rt; plan_write(&file_of(size), at, count, 512)?, want, "{name}");
    }
    Ok(())
}

#[test]
fn a_file_that_is_cut_within_a_leaf_has_it_written(rt: HostRuntime) -> Result<(), Fail> {
    let cases = [
        ("within a leaf", 1024, 600, true, change(600, 1, 1)),
        ("within a hole", 1024, 600, false, change(600, 1, 0)),
        ("within the last leaf", 1000, 999, true, change(999, 1, 1)),
        ("at a boundary", 1024, 512, true, change(512, 1, 0)),
        ("a byte behind it", 1024, 513, true, change(513, 1, 1)),
        ("a byte before it", 1024, 511, true, change(511, 0, 1)),
        ("to nothing", 1024, 0, true, change(0, 0, 0)),
        ("not at all", 600, 600, true, change(600, 1, 0)),
        ("grown", 600, 601, true, change(601, 1, 0)),
        (
            "grown far",
            600,
            1 << 40,
            false,
            change(1 << 40, 1 << 31, 0),
        ),
    ];
    for (name, old, size, last_present, want) in cases {
        assert_eq!(rt;
            plan_size(&file_of(old), size, last_present, 512)?,
            want,
            "{name}"
        );
    }
    Ok(())
}

#[test]
fn files_end_at_2_to_the_48(rt: HostRuntime) -> Result<(), Fail> {
    let end = 1 << 48;
    let empty = file_of(0);
    for blocksize in [512, 1024, 2048, 4096] {
        assert!(rt; plan_write(&empty, end - 1, 1, blocksize).is_ok());
        assert_eq!(rt; plan_write(&empty, end, 1, blocksize), Err(TooBig));
        assert_eq!(rt;
            plan_write(&empty, u64::MAX, u64::MAX, blocksize),
            Err(TooBig)
        );
        assert!(rt; plan_size(&empty, end, false, blocksize).is_ok());
        assert_eq!(rt; plan_size(&empty, end + 1, false, blocksize), Err(TooBig));
    }
    Ok(())
}

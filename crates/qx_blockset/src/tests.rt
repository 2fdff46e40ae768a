//! Sets whose limit or members stand at the ends of words.
use crate::BlockSet;
use std::alloc::{AllocError, Global};
use std::test::Fail;

// The set of the numbers below `limit` that aren't left out.
fn all_but(alloc: Global, limit: u32, left_out: &[u32]) -> Result<BlockSet, AllocError> {
    let mut set = BlockSet::new(alloc, limit)?;
    for b in 0..limit {
        if b < set.limit() {
            set.insert(b);
        }
    }
    for b in left_out {
        if *b < set.limit() {
            set.remove(*b);
        }
    }
    Ok(set)
}

#[test]
fn the_least_absent_number_is_found(rt: HostRuntime) -> Result<(), Fail> {
    let cases: [(&str, u32, &[u32], u32, Option<u32>, u32); 14] = [
        ("no number at all", 0, &[], 0, None, 0),
        ("from past the limit of none", 0, &[], 7, None, 0),
        ("full below a word's end", 63, &[], 0, None, 63),
        ("full to a word's end", 64, &[], 0, None, 64),
        ("full past a word's end", 65, &[], 0, None, 65),
        ("full from the limit on", 65, &[], 65, None, 65),
        (
            "full from past the limit on",
            65,
            &[],
            4_000_000_000,
            None,
            65,
        ),
        ("the last of a word", 64, &[63], 0, Some(63), 63),
        ("the first of a word", 65, &[64], 0, Some(64), 64),
        ("the number itself", 130, &[64, 65], 65, Some(65), 128),
        ("an earlier one of its word", 130, &[64], 65, None, 129),
        (
            "an earlier one, then a later one",
            130,
            &[63, 128],
            64,
            Some(128),
            128,
        ),
        ("the last number", 200, &[199], 1, Some(199), 199),
        ("the first number", 1, &[0], 0, Some(0), 0),
    ];
    for (name, limit, left_out, from, want, count) in cases {
        let set = all_but(rt.alloc(), limit, left_out)?;
        assert_eq!(rt; set.first_absent(from), want, "{name}");
        assert_eq!(rt; set.count(), count, "{name}");
        assert_eq!(rt; set.limit(), limit, "{name}");
    }
    Ok(())
}

#[test]
fn an_empty_set_lacks_every_number(rt: HostRuntime) -> Result<(), Fail> {
    let set = BlockSet::new(rt.alloc(), 129)?;
    for b in [0, 63, 64, 65, 127, 128] {
        assert!(rt; b < set.limit());
        assert!(rt; !set.has(b));
        assert_eq!(rt; set.first_absent(b), Some(b));
    }
    assert_eq!(rt; set.count(), 0);
    Ok(())
}

#[test]
fn a_copy_has_the_same_members(rt: HostRuntime) -> Result<(), Fail> {
    let set = all_but(rt.alloc(), 66, &[3, 65])?;
    let mut copy = BlockSet::new(rt.alloc(), 66)?;
    assert_eq!(rt; copy.limit(), set.limit());
    copy.copy_from(&set);
    assert_eq!(rt; copy.count(), 64);
    assert_eq!(rt; copy.first_absent(0), Some(3));
    assert_eq!(rt; copy.first_absent(4), Some(65));
    Ok(())
}

#[test]
fn a_byte_has_eight_numbers(rt: HostRuntime) -> Result<(), Fail> {
    let cases: [(&str, u32, &[u32], u32, u8); 8] = [
        ("none of them", 8, &[], 0, 0),
        ("the first and the last", 64, &[56, 63], 7, 0b1000_0001),
        ("the first of the next word", 65, &[63, 64], 8, 1),
        (
            "in the middle of a word",
            130,
            &[23, 25, 31, 32],
            3,
            0b1000_0010,
        ),
        ("past the limit", 67, &[64, 66], 8, 0b0000_0101),
        ("all below the limit", 3, &[0, 1, 2], 0, 0b0000_0111),
        ("a full one", 16, &[8, 9, 10, 11, 12, 13, 14, 15], 1, 0xFF),
        (
            "beside a full one",
            16,
            &[8, 9, 10, 11, 12, 13, 14, 15],
            0,
            0,
        ),
    ];
    for (name, limit, members, place, want) in cases {
        let set = of(rt.alloc(), limit, members)?;
        assert!(rt; place < set.limit().div_ceil(8), "{name}");
        assert_eq!(rt; set.byte(place), want, "{name}");
    }
    Ok(())
}

// The set of these numbers below `limit`.
fn of(alloc: Global, limit: u32, members: &[u32]) -> Result<BlockSet, AllocError> {
    let mut set = BlockSet::new(alloc, limit)?;
    for b in members {
        if *b < set.limit() {
            set.insert(*b);
        }
    }
    Ok(set)
}

#[test]
fn a_union_has_the_numbers_of_both(rt: HostRuntime) -> Result<(), Fail> {
    let cases: [(&str, u32, &[u32], &[u32], u32, Option<u32>); 6] = [
        ("of none", 65, &[], &[], 0, Some(0)),
        ("with none", 65, &[0, 64], &[], 2, Some(1)),
        ("of the other alone", 65, &[], &[0, 64], 2, Some(1)),
        (
            "at the ends of words",
            130,
            &[0, 63, 64],
            &[63, 65, 129],
            5,
            Some(1),
        ),
        ("of one set twice", 64, &[0, 1, 63], &[0, 1, 63], 3, Some(2)),
        ("that is full", 3, &[0, 2], &[1, 2], 3, None),
    ];
    for (name, limit, one, other, count, absent) in cases {
        let mut set = of(rt.alloc(), limit, one)?;
        let other = of(rt.alloc(), limit, other)?;
        assert_eq!(rt; other.limit(), set.limit(), "{name}");
        set.add_all(&other);
        assert_eq!(rt; set.count(), count, "{name}");
        assert_eq!(rt; set.first_absent(0), absent, "{name}");
    }
    Ok(())
}

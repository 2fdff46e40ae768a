//! Blocks that come and go while snapshots are made.
ghost use Rattle.std.specs.Prelude.{◌≡◌};

use crate::Space;
use qx_blockset::BlockSet;
use std::alloc::{AllocError, Global};
use std::test::Fail;

// The set of these numbers below `limit`.
fn of(alloc: Global, limit: u32, members: &[u32]) -> Result<BlockSet, AllocError> {
    let mut set = BlockSet::new(alloc, limit)?;
    for b in members {
        if *b < set.limit() {
            set.insert(*b);
        }
    }
    Ok(set)
}

#[test]
fn a_space_begins_with_the_user_blocks_that_are_held(rt: HostRuntime) -> Result<(), Fail> {
    let held = of(rt.alloc(), 130, &[0, 3, 9, 10, 64, 129])?;
    let space = Space::new(rt.alloc(), 10, &held)?;
    let cases = [
        ("a system block", 3, false),
        ("the last system block", 9, false),
        ("the first user block", 10, true),
        ("one that isn't held", 11, false),
        ("one of a later word", 64, true),
        ("the last block", 129, true),
        ("past the last block", 130, false),
        ("past all numbers", u32::MAX, false),
    ];
    for (name, b, works) in cases {
        assert_eq!(rt; space.works(b), works, "{name}");
        assert!(rt; !space.is_private(b), "{name}");
        assert!(rt; !space.frozen_bit(b), "{name}");
    }
    assert_eq!(rt; space.free(), 117);
    Ok(())
}

#[test]
fn without_user_blocks_nothing_is_free(rt: HostRuntime) -> Result<(), Fail> {
    let cases = [
        (0, 0, 0),
        (0, 5, 0),
        (7, 7, 0),
        (7, 8, 0),
        (7, u32::MAX, 0),
        (7, 6, 1),
        (7, 0, 7),
    ];
    for (limit, first_user, free) in cases {
        let held = BlockSet::new(rt.alloc(), limit)?;
        let space = Space::new(rt.alloc(), first_user, &held)?;
        assert_eq!(rt; space.free(), free, "{limit}, {first_user}");
    }
    Ok(())
}

// Takes a block where one is free.
fn taken(space: &mut Space) -> Option<u32>
    ensures { space.new.is_frozen ≡ space.old.is_frozen }
{
    if space.free() == 0 {
        return None;
    }
    Some(space.take())
}

#[test]
fn each_free_block_is_taken_once(rt: HostRuntime) -> Result<(), Fail> {
    let held = of(rt.alloc(), 70, &[2, 3, 5, 69])?;
    let mut space = Space::new(rt.alloc(), 4, &held)?;
    let mut found = BlockSet::new(rt.alloc(), 70)?;
    for left in 0..64 {
        assert_eq!(rt; space.free(), 64 - left);
        let b = taken(&mut space);
        assert!(rt; b.is_some_and(|b| 4 <= b && b < 70 && b != 5 && b != 69));
        add(&mut found, b);
    }
    assert_eq!(rt; taken(&mut space), None);
    assert_eq!(rt; found.count(), 64);

    // A block that was given up is found again, whichever it is.
    for b in [4, 68, 6, 40] {
        space.give_back(b);
        assert_eq!(rt; space.free(), 1);
        assert_eq!(rt; taken(&mut space), Some(b));
    }
    Ok(())
}

// Puts the number into the set, where there is one.
fn add(set: &mut BlockSet, b: Option<u32>) {
    if let Some(b) = b {
        if b < set.limit() {
            set.insert(b);
        }
    }
}

// What is said of a block: whether the working tree holds it, whether it alone, and whether the frozen tree does.
fn said(space: &Space, b: u32) -> (bool, bool, bool) {
    (space.works(b), space.is_private(b), space.frozen_bit(b))
}

#[test]
fn a_block_lives_until_no_tree_holds_it(rt: HostRuntime) -> Result<(), Fail> {
    let held = of(rt.alloc(), 8, &[4])?;
    let mut space = Space::new(rt.alloc(), 4, &held)?;
    assert_eq!(rt; taken(&mut space), Some(5));
    assert_eq!(rt; said(&space, 5), (true, true, false));

    // Frozen with the working tree, and so no longer its own.
    space.freeze();
    assert_eq!(rt; said(&space, 4), (true, false, true));
    assert_eq!(rt; said(&space, 5), (true, false, true));
    assert_eq!(rt; taken(&mut space), Some(6));
    assert_eq!(rt; said(&space, 6), (true, true, false));
    assert_eq!(rt; space.free(), 1);

    // Given up by the working tree while others hold them.
    space.give_back(4);
    space.give_back(5);
    assert_eq!(rt; said(&space, 4), (false, false, true));
    assert_eq!(rt; space.free(), 1);

    // One that it alone holds is free at once.
    space.give_back(6);
    assert_eq!(rt; said(&space, 6), (false, false, false));
    assert_eq!(rt; space.free(), 2);

    // The durable tree holds what the frozen one held.
    space.thaw_into_durable();
    assert_eq!(rt; said(&space, 4), (false, false, false));
    assert_eq!(rt; space.free(), 2);

    // What only the last durable tree held is free after the next snapshot.
    space.freeze();
    assert_eq!(rt; space.free(), 2);
    space.thaw_into_durable();
    assert_eq!(rt; space.free(), 4);
    Ok(())
}

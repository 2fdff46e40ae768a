//! Changes of one node after another, over blocks in memory, beside what the definitions say of them.
ghost use Rattle.std.specs.Prelude.{◌≡◌};
ghost use Rattle.qx_ptree.specs.Trees.{IsNode};

use crate::changes::{Refusal, change_node, empty_node};
use qx_blocks::{Blocks, MemBlocks};
use qx_fields::Order;
use qx_geom::Root;
use qx_ptree::Change;
use std::alloc::Global;
use std::test::Fail;

// A change, and what is to come of it: the answer, and how many blocks are free afterwards.
#[derive(Clone, Copy, Debug, PartialEq, Eq)]
pub struct Row {
    pub change: Change,
    pub answer: Result<u64, Refusal>,
    pub free: u64,
}

// A row that comes out otherwise.
#[derive(Clone, Copy, Debug, PartialEq, Eq)]
pub struct Wrong {
    place: usize,
    answer: Result<u64, Refusal>,
    free: u64,
}

// A change that writes a range of leaves.
pub fn range(size: u64, first: u64, count: u64) -> Change {
    Change {
        size,
        first,
        count,
        also: None,
        gone: None,
    }
}

// A change that writes a range of leaves and one more.
pub fn range_also(size: u64, first: u64, count: u64, also: u64) -> Change {
    Change {
        also: Some(also),
        ..range(size, first, count)
    }
}

// A change that writes a range of leaves and takes one out.
fn range_gone(size: u64, first: u64, count: u64, gone: u64) -> Change {
    Change {
        gone: Some(gone),
        ..range(size, first, count)
    }
}

// A change that is made.
pub fn made(change: Change, need: u64, free: u64) -> Row {
    Row {
        change,
        answer: Ok(need),
        free,
    }
}

// A change that isn't.
fn refused(change: Change, refusal: Refusal, free: u64) -> Row {
    Row {
        change,
        answer: Err(refusal),
        free,
    }
}

// Makes the changes one after another, and answers the first that comes out otherwise.
pub fn first_wrong<B: Blocks>(
    alloc: Global,
    node: &mut Root,
    blocks: &mut B,
    order: Order,
    rows: &[Row],
) -> Option<Wrong>
    requires { IsNode order (B.state blocks.old) node.old }
    ensures node { IsNode order (B.state blocks.new) node.new }
    ensures aside { (B.beside blocks.new).aside ≡ (B.beside blocks.old).aside }
{
    for (place, row) in rows.iter().enumerate() {
        let answer = change_node(alloc, node, blocks, order, &row.change);
        let free = blocks.free();
        if answer != row.answer || free != row.free {
            return Some(Wrong {
                place,
                answer,
                free,
            });
        }
    }
    None
}

// The same, beginning with an empty node.
fn first_wrong_from_empty<B: Blocks>(
    alloc: Global,
    blocks: &mut B,
    order: Order,
    rows: &[Row],
) -> Option<Wrong> {
    let mut node = empty_node(blocks, order);
    first_wrong(alloc, &mut node, blocks, order, rows)
}

// The same over so many blocks of 512 bytes in memory, in both orders.
fn over_blocks(alloc: Global, count: u32, rows: &[Row]) -> Result<Option<Wrong>, Fail> {
    for order in [Order::Little, Order::Big] {
        let mut blocks = MemBlocks::new(alloc, 512, count)?;
        let wrong = first_wrong_from_empty(alloc, &mut blocks, order, rows);
        if wrong.is_some() {
            return Ok(wrong);
        }
    }
    Ok(None)
}

#[test]
fn a_change_takes_what_is_new_and_nothing_else(rt: HostRuntime) -> Result<(), Fail> {
    let rows = [
        // 16 leaves without a pointer block; leaf 16 stands below one; leaf 17 below the same.
        made(range(8192, 0, 16), 16, 70),
        made(range(8704, 16, 1), 2, 68),
        made(range(9216, 17, 1), 1, 67),
        // Leaf 17 goes, and then leaf 16 with the pointer block.
        made(range(8704, 0, 0), 0, 68),
        made(range(8192, 0, 0), 0, 70),
        // Leaf 2^32 and four blocks above it; four above the old leaves; one above both.
        made(range((1 << 41) + 1, 1 << 32, 1), 10, 60),
        // All of them go, and leaves 5 to 15.
        made(range(2560, 0, 0), 0, 81),
        made(range(2560, 2, 2), 0, 81),
        // Levels of 300 and of 3,000 leaves; leaf 2,999 is the first below its block.
        made(range(153_600, 0, 0), 1, 80),
        made(range(1_536_000, 0, 0), 1, 79),
        made(range(1_536_000, 2999, 1), 2, 77),
        made(range(0, 0, 0), 0, 86),
    ];
    assert_eq!(rt; over_blocks(rt.alloc(), 86, &rows)?, None);
    Ok(())
}

#[test]
fn leaves_come_and_go_at_each_level(rt: HostRuntime) -> Result<(), Fail> {
    let five_levels = (1 << 41) + 512;
    let rows = [
        made(range(2560, 0, 5), 5, 81),
        made(range_gone(2560, 0, 0, 2), 0, 82),
        // Leaf 2 comes again, and leaf 4 goes.
        made(
            Change {
                also: Some(2),
                ..range_gone(2560, 0, 1, 4)
            },
            1,
            82,
        ),
        // One leaf more than 1, 2, 3 and 4 levels reach: the first time by two levels.
        made(range(1_049_088, 0, 0), 2, 80),
        made(range(134_218_240, 0, 0), 1, 79),
        made(range(17_179_869_696, 0, 0), 1, 78),
        made(range(five_levels, 0, 0), 1, 77),
        made(range_gone(five_levels, 0, 0, 0), 0, 78),
        // Leaves 1 and 2 stay, without levels.
        made(range(1536, 0, 0), 0, 84),
        made(range(0, 0, 0), 0, 86),
    ];
    assert_eq!(rt; over_blocks(rt.alloc(), 86, &rows)?, None);
    Ok(())
}

#[test]
fn as_many_free_blocks_as_the_need_are_enough(rt: HostRuntime) -> Result<(), Fail> {
    let alloc = rt.alloc();
    let leaves = range(8192, 0, 16);
    let far = range((1 << 41) + 1, 1 << 32, 1);
    // Private leaves are written where none is free.
    let enough = [made(leaves, 16, 0), made(range(8192, 3, 2), 0, 0)];
    assert_eq!(rt; over_blocks(alloc, 16, &enough)?, None);
    assert_eq!(rt; over_blocks(alloc, 6, &[made(far, 6, 0)])?, None);
    for (count, change) in [(15, leaves), (5, far)] {
        let too_few = [refused(change, Refusal::NoSpace, u64::from(count))];
        assert_eq!(rt; over_blocks(alloc, count, &too_few)?, None, "{count}");
    }
    Ok(())
}

#[test]
fn no_node_is_changed_so_that_it_has_no_place_for_a_leaf(rt: HostRuntime) -> Result<(), Fail> {
    let unfit = [
        // 5 levels reach 2^39 leaves.
        range((1 << 48) + 1, 0, 0),
        range(u64::MAX, 0, 0),
        range(512, 0, 2),
        range(512, 1, 1),
        range(512, u64::MAX, 2),
        range_also(512, 0, 1, 1),
        range_also(512, 0, 1, 0),
        range_gone(1024, 0, 2, 1),
        Change {
            gone: Some(1),
            ..range_also(1024, 0, 1, 1)
        },
    ];
    for change in unfit {
        let rows = [refused(change, Refusal::Unfit, 8)];
        assert_eq!(rt; over_blocks(rt.alloc(), 8, &rows)?, None, "{change:?}");
    }
    let fit = [
        made(range(1 << 48, 0, 0), 0, 8),
        made(range(512, u64::MAX, 0), 0, 8),
        made(range_gone(513, 1, 1, u64::MAX), 1, 7),
    ];
    assert_eq!(rt; over_blocks(rt.alloc(), 8, &fit)?, None);
    Ok(())
}

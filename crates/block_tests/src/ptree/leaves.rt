//! Leaves of nodes: by their paths, and one after another.
ghost use Rattle.std.specs.Prelude.{◌≡◌, ◌+◌, ◌<◌, ◌≤◌, ◌*◌, ◌^◌, IsTrue, OnOk};
ghost use Rattle.qx_blocks.specs.Calls.{Keeps};

use qx_blocks::{Blocks, MemBlocks, Stop, Untold};
use qx_fields::{Order, put32};
use qx_geom::{ABSENT, Root};
use qx_ptree::{Leaf, leaf, next_present};
use std::test::Fail;

// A fresh pointer block with one pointer.
fn pointer_block<B: Blocks>(blocks: &mut B, order: Order, w: usize, to: u32) -> Result<u32, Stop>
    requires size { (B.state blocks.old).holdings.size ≡ 512 }
    requires room { 0 < (B.state blocks.old).holdings.free }
    requires word { w < 128 }
    ensures free { OnOk result ((B.state blocks.new).holdings.free + 1 ≡ (B.state blocks.old).holdings.free) }
    ensures size { OnOk result ((B.state blocks.new).holdings.size ≡ (B.state blocks.old).holdings.size) }
    ensures tells { OnOk result ((B.state blocks.new).tells ≡ (B.state blocks.old).tells) }
{
    let block = blocks.fresh()?;
    let bytes = blocks.edit(block);
    bytes.fill(0xFF);
    put32(order, bytes, 4 * w, to);
    Ok(block)
}

// A leaf of a node that ends behind it, and that has one pointer.
fn leaf_by<B: Blocks>(
    blocks: &mut B,
    order: Order,
    levels: u8,
    at: usize,
    pointer: u32,
    index: u64,
) -> Result<Option<u32>, Stop>
    requires size { (B.state blocks.old).holdings.size ≡ 512 }
    requires levels { levels ≤ 2 }
    requires at { at < 16 }
    requires few { index < 2 ^ 18 }
    requires reached { index < 16 * 128 ^ levels }
    requires untold { ¬ IsTrue (B.state blocks.old).tells }
    ensures keeps { Keeps (B.state blocks.old) (B.state blocks.new) }
{
    let mut pointers = [ABSENT; 16];
    pointers[at] = pointer;
    let node = Root {
        size: (index + 1) * 512,
        pointers,
        levels,
    };
    leaf(&node, blocks, order, index)
}

// Of nodes of 0, 1 and 2 levels the leaf that is there, the one before it and one below another pointer of the node.
fn leaves_by_level<B: Blocks>(blocks: &mut B, order: Order) -> Result<[[Option<u32>; 3]; 3], Stop>
    requires size { (B.state blocks.old).holdings.size ≡ 512 }
    requires room { 3 ≤ (B.state blocks.old).holdings.free }
    requires untold { ¬ IsTrue (B.state blocks.old).tells }
{
    let last = blocks.fresh()?;
    let below = pointer_block(blocks, order, 3, last)?;
    let top = pointer_block(blocks, order, 5, below)?;
    Ok([
        [
            leaf_by(blocks, order, 0, 15, last, 15)?,
            leaf_by(blocks, order, 0, 15, last, 14)?,
            leaf_by(blocks, order, 0, 15, last, 0)?,
        ],
        [
            leaf_by(blocks, order, 1, 2, below, 2 * 128 + 3)?,
            leaf_by(blocks, order, 1, 2, below, 2 * 128 + 2)?,
            leaf_by(blocks, order, 1, 2, below, 3 * 128 + 3)?,
        ],
        [
            leaf_by(blocks, order, 2, 1, top, 16384 + 5 * 128 + 3)?,
            leaf_by(blocks, order, 2, 1, top, 16384 + 5 * 128 + 2)?,
            leaf_by(blocks, order, 2, 1, top, 5 * 128 + 3)?,
        ],
    ])
}

// The next present leaf from one on, of a node of so many bytes that has one pointer at two places.
fn next_by<B: Blocks>(
    blocks: &mut B,
    order: Order,
    levels: u8,
    pointer: u32,
    size: u64,
    from: u64,
) -> Result<Option<Leaf>, Stop>
    requires size { (B.state blocks.old).holdings.size ≡ 512 }
    requires levels { levels ≤ 2 }
    requires reached { size ≤ 16 * 128 ^ levels * 512 }
    requires untold { ¬ IsTrue (B.state blocks.old).tells }
    ensures keeps { Keeps (B.state blocks.old) (B.state blocks.new) }
{
    let mut pointers = [ABSENT; 16];
    pointers[2] = pointer;
    pointers[14] = pointer;
    let node = Root {
        size,
        pointers,
        levels,
    };
    next_present(&node, blocks, order, from)
}

// Of a node as large as it can be, and of one that ends in its first present leaf and one that ends before it.
fn next_of<B: Blocks>(
    blocks: &mut B,
    order: Order,
    levels: u8,
    pointer: u32,
    leaves: u64,
    first: u64,
    second: u64,
) -> Result<[Option<Leaf>; 7], Stop>
    requires size { (B.state blocks.old).holdings.size ≡ 512 }
    requires levels { levels ≤ 2 }
    requires reached { leaves ≡ 16 * 128 ^ levels }
    requires few { leaves ≤ 2 ^ 18 }
    requires places { (first < leaves) × (second < leaves) }
    requires untold { ¬ IsTrue (B.state blocks.old).tells }
    ensures keeps { Keeps (B.state blocks.old) (B.state blocks.new) }
{
    let size = leaves * 512;
    Ok([
        next_by(blocks, order, levels, pointer, size, 0)?,
        next_by(blocks, order, levels, pointer, size, first)?,
        next_by(blocks, order, levels, pointer, size, first + 1)?,
        next_by(blocks, order, levels, pointer, size, second + 1)?,
        next_by(blocks, order, levels, pointer, size, u64::MAX)?,
        next_by(blocks, order, levels, pointer, first * 512 + 1, 0)?,
        next_by(blocks, order, levels, pointer, first * 512, 0)?,
    ])
}

// Of nodes of 0, 1 and 2 levels.
fn next_by_level<B: Blocks>(blocks: &mut B, order: Order) -> Result<[[Option<Leaf>; 7]; 3], Stop>
    requires size { (B.state blocks.old).holdings.size ≡ 512 }
    requires room { 3 ≤ (B.state blocks.old).holdings.free }
    requires untold { ¬ IsTrue (B.state blocks.old).tells }
{
    let last = blocks.fresh()?;
    let below = pointer_block(blocks, order, 3, last)?;
    let top = pointer_block(blocks, order, 5, below)?;
    Ok([
        next_of(blocks, order, 0, last, 16, 2, 14)?,
        next_of(blocks, order, 1, below, 2048, 259, 1795)?,
        next_of(blocks, order, 2, top, 262144, 33411, 230019)?,
    ])
}

#[test]
fn a_leaf_stands_at_its_path_alone(rt: HostRuntime) -> Result<(), Fail> {
    for order in [Order::Little, Order::Big] {
        let mut blocks = Untold {
            blocks: MemBlocks::new(rt.alloc(), 512, 3)?,
        };
        let leaves = leaves_by_level(&mut blocks, order)?;
        assert_eq!(rt; leaves, [[Some(0), None, None]; 3], "{order:?}");
    }
    Ok(())
}

#[test]
fn a_pointer_to_a_block_that_the_tree_does_not_hold_counts_as_absent(
    rt: HostRuntime,
) -> Result<(), Fail> {
    for order in [Order::Little, Order::Big] {
        let mut blocks = Untold {
            blocks: MemBlocks::new(rt.alloc(), 512, 3)?,
        };
        let free = leaf_by(&mut blocks, order, 0, 15, 2, 15)?;
        let outside = leaf_by(&mut blocks, order, 0, 15, 3, 15)?;
        let below = leaf_by(&mut blocks, order, 2, 1, 2, 16384)?;
        assert_eq!(rt; [free, outside, below], [None; 3], "{order:?}");
    }
    Ok(())
}

#[test]
fn present_leaves_are_found_one_after_another(rt: HostRuntime) -> Result<(), Fail> {
    for order in [Order::Little, Order::Big] {
        let mut blocks = Untold {
            blocks: MemBlocks::new(rt.alloc(), 512, 3)?,
        };
        let found = next_by_level(&mut blocks, order)?;
        for (next, first, second) in [
            (found[0], 2, 14),
            (found[1], 259, 1795),
            (found[2], 33411, 230019),
        ] {
            let first = Some(Leaf {
                index: first,
                block: 0,
            });
            let second = Some(Leaf {
                index: second,
                block: 0,
            });
            assert_eq!(rt;
                next,
                [first, first, second, None, None, first, None],
                "{order:?}"
            );
        }
    }
    Ok(())
}

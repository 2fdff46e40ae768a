//! Two nodes that are changed together, over blocks that tell nothing and over blocks in memory.
ghost use Rattle.std.specs.Prelude.{◌≡◌, ◌≤◌, ◌<◌, ◌*◌, IsTrue, OnOk};
ghost use Rattle.qx_ptree.specs.Fates.{IsChange};
ghost use Rattle.qx_ptree.specs.ReadyLeaves.{IsReadyApart, IsWrittenBy};
ghost use Rattle.qx_ptree.specs.Trees.{HasLevels};

use qx_blocks::{Blocks, MemBlocks, Stop, Untold};
use qx_fields::Order;
use qx_geom::{ABSENT, Root};
use qx_ptree::{Change, abandon, apart, commit, prepare};
use std::alloc::Global;
use std::test::Fail;

// Changes two nodes, or neither of them.
fn change_both<B: Blocks>(
    alloc: Global,
    first: &mut Root,
    second: &mut Root,
    blocks: &mut B,
    order: Order,
    a: &Change,
    b: &Change,
) -> Result<(), Stop>
    requires first { HasLevels (B.state blocks.old).holdings.size first.old }
    requires second { HasLevels (B.state blocks.old).holdings.size second.old }
    requires a { IsChange (B.state blocks.old).holdings.size a.now }
    requires b { IsChange (B.state blocks.old).holdings.size b.now }
    requires untold { ¬ IsTrue (B.state blocks.old).tells }
    ensures first { OnOk result (IsReadyApart order (B.state blocks.new) first.new (IsWrittenBy a.now)) }
    ensures second { OnOk result (IsReadyApart order (B.state blocks.new) second.new (IsWrittenBy b.now)) }
{
    let p = prepare(alloc, first, blocks, order, a)?;
    let q = match prepare(alloc, second, blocks, order, b) {
        Ok(q) => q,
        Err(stop) => {
            abandon(blocks, p);
            return Err(stop);
        }
    };
    if !apart(&p, &q) {
        abandon(blocks, q);
        abandon(blocks, p);
        return Err(Stop::NoMemory);
    }
    commit(first, blocks, p);
    commit(second, blocks, q);
    Ok(())
}

// A node of one leaf at this block.
fn node_at(block: u32) -> Root
    ensures size { result.size ≡ 512 }
    ensures levels { result.levels ≡ 0 }
{
    let mut pointers = [ABSENT; 16];
    pointers[0] = block;
    Root {
        size: 512,
        pointers,
        levels: 0,
    }
}

// Two nodes of one leaf, at one block or at two, each of which is changed to two leaves that are written.
fn both_grown<B: Blocks>(
    alloc: Global,
    blocks: &mut B,
    order: Order,
    shared: bool,
) -> Result<[u32; 4], Stop>
    requires size { (B.state blocks.old).holdings.size ≡ 512 }
    requires room { 2 ≤ (B.state blocks.old).holdings.free }
    requires untold { ¬ IsTrue (B.state blocks.old).tells }
{
    let one = blocks.fresh()?;
    let other = blocks.fresh()?;
    let mut first = node_at(one);
    let mut second = node_at(if shared { one } else { other });
    let change = Change {
        size: 1024,
        first: 0,
        count: 2,
        also: None,
        gone: None,
    };
    change_both(
        alloc,
        &mut first,
        &mut second,
        blocks,
        order,
        &change,
        &change,
    )?;
    Ok([
        first.pointers[0],
        first.pointers[1],
        second.pointers[0],
        second.pointers[1],
    ])
}

#[test]
fn two_nodes_are_changed_together_or_neither(rt: HostRuntime) -> Result<(), Fail> {
    let alloc = rt.alloc();
    for order in [Order::Little, Order::Big] {
        let mut blocks = Untold {
            blocks: MemBlocks::new(alloc, 512, 8)?,
        };
        let leaves = both_grown(alloc, &mut blocks, order, false);
        assert_eq!(rt; leaves, Ok([0, 2, 1, 3]), "{order:?}");
        assert_eq!(rt; blocks.free(), 4, "{order:?}");

        // One block at leaves of two nodes, as bytes that aren't told may have it: what was taken is given back.
        let mut blocks = Untold {
            blocks: MemBlocks::new(alloc, 512, 8)?,
        };
        let leaves = both_grown(alloc, &mut blocks, order, true);
        assert_eq!(rt; leaves, Err(Stop::NoMemory), "{order:?}");
        assert_eq!(rt; blocks.free(), 6, "{order:?}");
    }
    Ok(())
}

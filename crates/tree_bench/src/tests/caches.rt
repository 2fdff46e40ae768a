//! The same over a cache: 88 blocks of 512 bytes, the first two of them the system's, on a device in memory.
ghost use Rattle.std.specs.Prelude.{◌≡◌, ◌≤◌, false, IfOk, vec_len};
ghost use Rattle.qx_blocks.specs.Calls.{Keeps};
ghost use Rattle.qx_cache.specs.CacheState.{state_of};
ghost use Rattle.qx_ptree.specs.Trees.{IsNode};

use super::rows::{Row, Wrong, first_wrong, made, range, range_also};
use crate::changes::{Refusal, change_node, empty_node};
use qx_alloc::Space;
use qx_blocks::{Blocks, Stop};
use qx_blockset::BlockSet;
use qx_cache::Cache;
use qx_fields::Order;
use qx_geom::Root;
use qx_outside::{Dev, Failed, MemHost};
use qx_ptree::leaf;
use std::alloc::{AllocError, Global};
use std::test::Fail;

// So many bytes 0.
fn zeros(alloc: Global, count: usize) -> Result<Vec<u8>, AllocError>
    ensures { IfOk result (λ bytes. vec_len bytes ≡ count) }
{
    vec![in alloc; 0; count]
}

// A cache of which no tree holds a block. These calls of its device fail.
pub fn cache_over(alloc: Global, failing: &[u64]) -> Result<Cache<MemHost>, Fail>
    ensures { IfOk result (λ cache. cache.space.is_frozen ≡ false) }
{
    // What lies before the blocks, the blocks, and the second superblock.
    let bytes = zeros(alloc, 0x3000 + 88 * 512 + 0x200)?;
    let failing = failing.to_vec(alloc)?;
    let host = MemHost::new(
        alloc,
        bytes,
        Vec::new(alloc),
        Vec::new(alloc),
        failing,
        1000,
    )?;
    let space = Space::new(alloc, 2, &BlockSet::new(alloc, 88)?)?;
    match Cache::new(alloc, host, 512, space, 1) {
        Ok(cache) => Ok(cache),
        Err(_) => Err(Fail::new("no memory for a cache")),
    }
}

// Freezes the working tree, to which a node belongs.
pub fn freeze<H: Dev>(cache: &mut Cache<H>, node: &Root, order: Order)
    requires unfrozen { cache.old.space.is_frozen ≡ false }
    requires node { IsNode order (state_of H.outside cache.old) node.now }
    ensures { IsNode order (state_of H.outside cache.new) node.now }
{
    cache.freeze();
}

// Puts the changed blocks of the frozen tree on the device, and answers how many they were.
pub fn write_all<H: Dev>(cache: &mut Cache<H>, node: &Root, order: Order) -> Result<u32, Failed>
    requires { IsNode order (state_of H.outside cache.old) node.now }
    ensures { IsNode order (state_of H.outside cache.new) node.now }
{
    for count in 0..89 {
        if !cache.write_frozen()? {
            return Ok(count);
        }
    }
    Err(Failed)
}

// The first row of each list that comes out otherwise: of the changes that begin with an empty node, and of those that follow once the working tree was frozen.
fn wrong_around_freeze<H: Dev>(
    alloc: Global,
    cache: &mut Cache<H>,
    order: Order,
    before: &[Row],
    after: &[Row],
) -> [Option<Wrong>; 2]
    requires { cache.old.space.is_frozen ≡ false }
{
    let mut node = empty_node(cache, order);
    let first = first_wrong(alloc, &mut node, cache, order, before);
    freeze(cache, &node, order);
    [first, first_wrong(alloc, &mut node, cache, order, after)]
}

#[test]
fn a_frozen_block_is_written_in_a_fresh_one(rt: HostRuntime) -> Result<(), Fail> {
    let three = [
        made(range(8192, 0, 16), 16, 70),
        made(range(8704, 16, 1), 2, 68),
        made(range(9216, 17, 1), 1, 67),
    ];
    let four = [three[0], three[1], three[2], made(range(8704, 0, 0), 0, 68)];
    let far = [made(range((1 << 41) + 1, 1 << 32, 1), 6, 80)];
    let cases: [(&str, &[Row], &[Row]); 4] = [
        ("three changes and back", &four, &[]),
        ("a leaf far away", &far, &[]),
        // The pointer block is taken anew, and the frozen tree keeps the old one and leaf 17.
        ("leaf 17 goes", &three, &[made(range(8704, 0, 0), 1, 66)]),
        // Leaves 0 and 17, and their pointer block.
        (
            "two are written",
            &three,
            &[made(range_also(9216, 0, 1, 17), 3, 64)],
        ),
    ];
    for (name, before, after) in cases {
        for order in [Order::Little, Order::Big] {
            let mut cache = cache_over(rt.alloc(), &[])?;
            let wrong = wrong_around_freeze(rt.alloc(), &mut cache, order, before, after);
            assert_eq!(rt; wrong, [None; 2], "{name}, {order:?}");
        }
    }
    Ok(())
}

// The block at a leaf; none past the size.
fn block_at<B: Blocks>(
    node: &Root,
    blocks: &mut B,
    order: Order,
    index: u64,
) -> Result<Option<u32>, Stop>
    requires { IsNode order (B.state blocks.old) node.now }
    ensures keeps { Keeps (B.state blocks.old) (B.state blocks.new) }
    ensures node { IsNode order (B.state blocks.new) node.now }
{
    if node.size.div_ceil(blocks.size() as u64) <= index {
        return Ok(None);
    }
    leaf(node, blocks, order, index)
}

// The blocks at the first 16 leaves.
fn first_blocks<B: Blocks>(
    node: &Root,
    blocks: &mut B,
    order: Order,
) -> Result<[Option<u32>; 16], Stop>
    requires { IsNode order (B.state blocks.old) node.now }
    ensures { IsNode order (B.state blocks.new) node.now }
{
    let mut all = [None; 16];
    for index in 0..16u8 {
        all[index as usize] = block_at(node, blocks, order, u64::from(index))?;
    }
    Ok(all)
}

// The first 16 blocks of a node of 16 leaves, and once it has one more.
fn blocks_below_a_new_level<B: Blocks>(
    alloc: Global,
    blocks: &mut B,
    order: Order,
) -> Result<[[Option<u32>; 16]; 2], Refusal> {
    let mut node = empty_node(blocks, order);
    change_node(alloc, &mut node, blocks, order, &range(8192, 0, 16))?;
    let before = first_blocks(&node, blocks, order)?;
    change_node(alloc, &mut node, blocks, order, &range(8704, 16, 1))?;
    Ok([before, first_blocks(&node, blocks, order)?])
}

#[test]
fn old_leaves_keep_their_blocks_below_a_new_level(rt: HostRuntime) -> Result<(), Fail> {
    for order in [Order::Little, Order::Big] {
        let mut cache = cache_over(rt.alloc(), &[])?;
        let [before, after] = blocks_below_a_new_level(rt.alloc(), &mut cache, order)?;
        assert_eq!(rt; after, before, "{order:?}");
        assert!(rt; before.iter().all(|block| block.is_some()), "{order:?}");
    }
    Ok(())
}

// Whether the working tree holds the block of leaf 17 of a node of 18 leaves, and once the node has 17.
fn holds_of_a_leaf_that_goes<B: Blocks>(
    alloc: Global,
    blocks: &mut B,
    order: Order,
) -> Result<[bool; 2], Refusal> {
    let mut node = empty_node(blocks, order);
    change_node(alloc, &mut node, blocks, order, &range(9216, 0, 18))?;
    let Some(block) = block_at(&node, blocks, order, 17)? else {
        return Ok([false; 2]);
    };
    let before = blocks.works(block);
    change_node(alloc, &mut node, blocks, order, &range(8704, 0, 0))?;
    Ok([before, blocks.works(block)])
}

#[test]
fn a_leaf_past_the_size_gives_its_block_back(rt: HostRuntime) -> Result<(), Fail> {
    for order in [Order::Little, Order::Big] {
        let mut cache = cache_over(rt.alloc(), &[])?;
        let holds = holds_of_a_leaf_that_goes(rt.alloc(), &mut cache, order)?;
        assert_eq!(rt; holds, [true, false], "{order:?}");
    }
    Ok(())
}

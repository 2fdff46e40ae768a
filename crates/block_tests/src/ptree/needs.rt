//! What changes of an empty node take: its leaves, and the blocks that stand above them.
ghost use Rattle.std.specs.Prelude.{◌≡◌, ◌+◌, ◌<◌, ◌≤◌, ◌*◌, IfSome};
ghost use Rattle.qx_geom.specs.Pointer.{ceil_div, reach};
ghost use Rattle.qx_blocks.specs.BlockState.{IsBlockSize};

use qx_blocks::{Blocks, MemBlocks, Stop};
use qx_fields::Order;
use qx_geom::{ABSENT, Root};
use qx_ptree::{Change, need};
use std::alloc::Global;
use std::test::Fail;

// A node of nothing.
const EMPTY: Root = Root {
    size: 0,
    pointers: [ABSENT; 16],
    levels: 0,
};

// What it takes to give an empty node a size, and to write a range of leaves and perhaps one behind it.
fn need_of_empty<B: Blocks>(
    blocks: &mut B,
    size: u64,
    first: u64,
    count: u64,
    also: Option<u64>,
) -> Result<u64, Stop>
    requires blocksize { IsBlockSize (B.state blocks.old).holdings.size }
    requires reached { size
        ≤ reach (B.state blocks.old).holdings.size 5 * (B.state blocks.old).holdings.size }
    requires range { first + count ≤ ceil_div size (B.state blocks.old).holdings.size }
    requires also { IfSome also (λ i. (first + count ≤ i)
        × (i < ceil_div size (B.state blocks.old).holdings.size)) }
{
    let change = Change {
        size,
        first,
        count,
        also,
        gone: None,
    };
    need(&EMPTY, blocks, Order::Little, &change)
}

// The same over blocks in memory.
fn takes(
    alloc: Global,
    blocksize: usize,
    size: u64,
    first: u64,
    count: u64,
    also: Option<u64>,
) -> Result<u64, Fail>
    requires blocksize { IsBlockSize blocksize }
    requires reached { size ≤ reach blocksize 5 * blocksize }
    requires range { first + count ≤ ceil_div size blocksize }
    requires also { IfSome also (λ i. (first + count ≤ i) × (i < ceil_div size blocksize)) }
{
    let mut blocks = MemBlocks::new(alloc, blocksize, 1)?;
    Ok(need_of_empty(&mut blocks, size, first, count, also)?)
}

#[test]
fn an_empty_node_takes_its_leaves_and_what_stands_above_them(rt: HostRuntime) -> Result<(), Fail> {
    let alloc = rt.alloc();
    assert_eq!(rt; takes(alloc, 512, 8192, 0, 16, None)?, 16);
    assert_eq!(rt; takes(alloc, 512, (1 << 41) + 1, 1 << 32, 1, None)?, 6);
    assert_eq!(rt; takes(alloc, 512, 300_032, 0, 586, None)?, 591);
    assert_eq!(rt; takes(alloc, 512, 300_032, 0, 585, Some(585))?, 591);
    Ok(())
}

#[test]
fn so_it_does_in_larger_blocks(rt: HostRuntime) -> Result<(), Fail> {
    let alloc = rt.alloc();
    // 16 pointer blocks of 256 words hold 4096 leaves; a leaf more takes a second level.
    assert_eq!(rt; takes(alloc, 1024, 4_194_304, 0, 4096, None)?, 4112);
    assert_eq!(rt; takes(alloc, 1024, 4_194_305, 255, 2, None)?, 5);
    assert_eq!(rt; takes(alloc, 1024, 4_194_305, 255, 2, Some(4096))?, 7);
    // Leaves 500 to 599 lie below the first two blocks of 512 words, leaf 999 below the second.
    assert_eq!(rt; takes(alloc, 2048, 2_048_000, 500, 100, None)?, 102);
    assert_eq!(rt; takes(alloc, 2048, 2_048_000, 500, 100, Some(999))?, 103);
    assert_eq!(rt; takes(alloc, 4096, 65_536, 3, 5, Some(15))?, 6);
    assert_eq!(rt; takes(alloc, 4096, 65_537, 0, 17, None)?, 18);
    assert_eq!(rt; takes(alloc, 4096, 1 << 48, (1 << 36) - 1, 1, None)?, 5);
    Ok(())
}

#[test]
fn an_empty_node_that_only_grows_takes_nothing(rt: HostRuntime) -> Result<(), Fail> {
    assert_eq!(rt; takes(rt.alloc(), 512, 1 << 40, 0, 0, None)?, 0);
    Ok(())
}

#[test]
fn two_million_leaves_are_counted_at_once(rt: HostRuntime) -> Result<(), Fail> {
    // 2^21 leaves below 2^14, 2^7 and 1 pointer blocks.
    assert_eq!(rt;
        takes(rt.alloc(), 512, 1 << 30, 0, 1 << 21, None)?,
        2_113_665
    );
    Ok(())
}

//! Bytes in a node that was made by hand, with two leaves and a hole.
ghost use Rattle.std.specs.Prelude.{◌≡◌, ◌+◌, ◌*◌, ◌<◌, ◌≤◌, ℕ, length, IfOk};
ghost use Rattle.qx_blocks.specs.BlockState.{IsConsistent};
ghost use Rattle.qx_ptree.specs.Trees.{HasLevels, IsWorking};
ghost use Rattle.qx_file.specs.Puts.{CanPut, MeetsOnce};

use qx_blocks::{Blocks, MemBlocks, Stop};
use qx_fields::Order;
use qx_file::{put, put_fill, read};
use qx_geom::{ABSENT, Root};
use std::test::Fail;

// A node of this size, of whose leaves the first two are there.
fn two_leaves<B: Blocks>(blocks: &mut B, order: Order, size: u64) -> Result<Root, Stop>
    requires room { 1 < (B.state blocks.old).holdings.free }
    requires size { (2 * (B.state blocks.old).holdings.size ≤ size)
        × (size ≤ 16 * (B.state blocks.old).holdings.size) }
    ensures size { IfOk result (λ node. node.size ≡ size) }
    ensures blocksize { (B.state blocks.new).holdings.size ≡ (B.state blocks.old).holdings.size }
    ensures levels { IfOk result (λ node. HasLevels (B.state blocks.new).holdings.size node) }
    ensures works { IfOk result (λ node. IsWorking order (B.state blocks.new) node) }
    ensures consistent { IfOk result (λ _. IsConsistent (B.state blocks.new)) }
    ensures once { IfOk result (λ node. MeetsOnce order (B.state blocks.new) node) }
    ensures can { IfOk result (λ node. (at count : ℕ) → at + count ≤ 2 * (B.state blocks.new).holdings.size
        → CanPut order (B.state blocks.new) node at count) }
{
    let first = blocks.fresh()?;
    let second = blocks.fresh()?;
    let mut pointers = [ABSENT; 16];
    pointers[0] = first;
    pointers[1] = second;
    // A call that only looks says what holds of the blocks at any moment.
    let _size = blocks.size();
    Ok(Root {
        size,
        pointers,
        levels: 0,
    })
}

// What is read of it, from `from` on, once bytes were put into it.
fn read_put<B: Blocks>(
    blocks: &mut B,
    order: Order,
    size: u64,
    at: u64,
    bytes: &[u8],
    from: u64,
    into: &mut [u8],
) -> Result<usize, Stop>
    requires room { 1 < (B.state blocks.old).holdings.free }
    requires size { (2 * (B.state blocks.old).holdings.size ≤ size)
        × (size ≤ 16 * (B.state blocks.old).holdings.size) }
    requires within { at + length bytes.now ≤ 2 * (B.state blocks.old).holdings.size }
{
    let node = two_leaves(blocks, order, size)?;
    put(&node, blocks, order, at, bytes);
    read(&node, blocks, order, from, into)
}

// The same once it was filled with one byte.
fn read_fill<B: Blocks>(
    blocks: &mut B,
    order: Order,
    size: u64,
    at: u64,
    count: u64,
    byte: u8,
    from: u64,
    into: &mut [u8],
) -> Result<usize, Stop>
    requires room { 1 < (B.state blocks.old).holdings.free }
    requires size { (2 * (B.state blocks.old).holdings.size ≤ size)
        × (size ≤ 16 * (B.state blocks.old).holdings.size) }
    requires within { at + count ≤ 2 * (B.state blocks.old).holdings.size }
{
    let node = two_leaves(blocks, order, size)?;
    put_fill(&node, blocks, order, at, count, byte);
    read(&node, blocks, order, from, into)
}

#[test]
fn bytes_are_put_over_a_boundary(rt: HostRuntime) -> Result<(), Fail> {
    for order in [Order::Little, Order::Big] {
        let mut blocks = MemBlocks::new(rt.alloc(), 512, 2)?;
        let mut into = [7; 6];
        assert_eq!(rt;
            read_put(&mut blocks, order, 1500, 510, b"abcd", 509, &mut into)?,
            6
        );
        assert_eq!(rt; into, [0, b'a', b'b', b'c', b'd', 0]);
    }
    Ok(())
}

#[test]
fn a_read_ends_with_the_file(rt: HostRuntime) -> Result<(), Fail> {
    for order in [Order::Little, Order::Big] {
        let mut blocks = MemBlocks::new(rt.alloc(), 512, 2)?;
        let mut into = [7; 8];
        // The last byte stands before a hole of two bytes, and two bytes past the file are left alone.
        assert_eq!(rt;
            read_put(&mut blocks, order, 1026, 1020, b"abcd", 1023, &mut into)?,
            3
        );
        assert_eq!(rt; into, [b'd', 0, 0, 7, 7, 7, 7, 7]);
    }
    Ok(())
}

#[test]
fn nothing_is_read_past_the_end(rt: HostRuntime) -> Result<(), Fail> {
    let mut blocks = MemBlocks::new(rt.alloc(), 512, 2)?;
    let mut into = [7; 2];
    assert_eq!(rt;
        read_put(&mut blocks, Order::Little, 1024, 0, b"", 1024, &mut into)?,
        0
    );
    assert_eq!(rt; into, [7, 7]);
    Ok(())
}

#[test]
fn a_range_is_filled_with_one_byte(rt: HostRuntime) -> Result<(), Fail> {
    let cases = [
        ("its begin", 98, 4, [0, 0, b'z', b'z']),
        ("a boundary", 510, 4, [b'z', b'z', b'z', b'z']),
        ("its end", 998, 4, [b'z', b'z', 0, 0]),
        ("the hole behind", 1022, 4, [0, 0, 0, 0]),
        ("the file's end", 1998, 2, [0, 0, 7, 7]),
    ];
    for (name, from, count, want) in cases {
        for order in [Order::Little, Order::Big] {
            let mut blocks = MemBlocks::new(rt.alloc(), 512, 2)?;
            let mut into = [7; 4];
            let read = read_fill(&mut blocks, order, 2000, 100, 900, b'z', from, &mut into)?;
            assert_eq!(rt; read, count, "{name}");
            assert_eq!(rt; into, want, "{name}");
        }
    }
    Ok(())
}

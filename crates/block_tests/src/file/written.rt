//! Files that are written and cut as operations do it, and then read.
ghost use Rattle.std.specs.Prelude.{◌≡◌, ◌+◌, ◌<◌, ◌≤◌, length, IfOk, OnOk, IsTrue, vec_len};
ghost use Rattle.qx_geom.specs.Room.{greatest_end};
ghost use Rattle.qx_blocks.specs.BlockState.{IsConsistent};
ghost use Rattle.qx_blocks.specs.Calls.{Keeps};
ghost use Rattle.qx_ptree.specs.Fates.{IsChange};
ghost use Rattle.qx_ptree.specs.ReadyLeaves.{IsReadyApart, IsWrittenBy};
ghost use Rattle.qx_ptree.specs.Trees.{HasLevels, IsNode, IsWorking};

use qx_blocks::{Blocks, MemBlocks, Stop};
use qx_fields::Order;
use qx_file::{plan_size, plan_write, put, put_fill, read};
use qx_geom::{ABSENT, Root};
use qx_ptree::{Change, commit, leaf, need, prepare};
use std::alloc::Global;
use std::test::Fail;

// A node of nothing.
fn empty<B: Blocks>(blocks: &B, order: Order) -> Root
    ensures { IsNode order (B.state blocks.now) result }
{
    // A call that only looks says what holds of the blocks at any moment.
    let _size = blocks.size();
    Root {
        size: 0,
        pointers: [ABSENT; 16],
        levels: 0,
    }
}

// Makes a change of a node.
fn make<B: Blocks>(
    alloc: Global,
    node: &mut Root,
    blocks: &mut B,
    order: Order,
    change: &Change,
) -> Result<(), Stop>
    requires node { IsNode order (B.state blocks.old) node.old }
    requires change { IsChange (B.state blocks.old).holdings.size change.now }
    ensures blocksize { OnOk result
        ((B.state blocks.new).holdings.size ≡ (B.state blocks.old).holdings.size) }
    ensures consistent { OnOk result (IsConsistent (B.state blocks.new)) }
    ensures size { OnOk result (node.new.size ≡ change.now.size) }
    ensures node { OnOk result (IsNode order (B.state blocks.new) node.new) }
    ensures written { OnOk result
        (IsReadyApart order (B.state blocks.new) node.new (IsWrittenBy change.now)) }
{
    let takes = need(node, blocks, order, change)?;
    if blocks.free() < takes {
        return Err(Stop::NoMemory);
    }
    let p = prepare(alloc, node, blocks, order, change)?;
    commit(node, blocks, p);
    // A call that only looks says what holds of the blocks at any moment.
    let _size = blocks.size();
    Ok(())
}

// Writes bytes into a file.
fn write<B: Blocks>(
    alloc: Global,
    node: &mut Root,
    blocks: &mut B,
    order: Order,
    at: u64,
    bytes: &[u8],
) -> Result<(), Stop>
    requires node { IsNode order (B.state blocks.old) node.old }
    requires some { 0 < length bytes.now }
    requires end { at + length bytes.now ≤ greatest_end }
    ensures { OnOk result (IsNode order (B.state blocks.new) node.new) }
{
    let blocksize = blocks.size() as u32;
    let Ok(change) = plan_write(node, at, bytes.len() as u64, blocksize) else {
        return Err(Stop::NoMemory);
    };
    make(alloc, node, blocks, order, &change)?;
    put(node, blocks, order, at, bytes);
    Ok(())
}

// Whether the leaf with a byte lies below a file's size and is present.
fn is_present<B: Blocks>(node: &Root, blocks: &mut B, order: Order, byte: u64) -> Result<bool, Stop>
    requires levels { HasLevels (B.state blocks.old).holdings.size node.now }
    requires works { IsTrue (B.state blocks.old).tells → IsWorking order (B.state blocks.old) node.now }
    ensures keeps { Keeps (B.state blocks.old) (B.state blocks.new) }
{
    let block = blocks.size() as u64;
    if node.size <= byte {
        return Ok(false);
    }
    Ok(leaf(node, blocks, order, byte / block)?.is_some())
}

// Gives a file a size.
fn resize<B: Blocks>(
    alloc: Global,
    node: &mut Root,
    blocks: &mut B,
    order: Order,
    size: u64,
) -> Result<(), Stop>
    requires node { IsNode order (B.state blocks.old) node.old }
    requires end { size ≤ greatest_end }
    ensures { OnOk result (IsNode order (B.state blocks.new) node.new) }
{
    let block = blocks.size() as u64;
    let present = is_present(node, blocks, order, size)?;
    let Ok(change) = plan_size(node, size, present, block as u32) else {
        return Err(Stop::NoMemory);
    };
    make(alloc, node, blocks, order, &change)?;
    if change.count > 0 {
        put_fill(node, blocks, order, size, block - size % block, 0);
    }
    Ok(())
}

// What is read of a file that got some bytes.
fn read_back<B: Blocks>(
    alloc: Global,
    blocks: &mut B,
    order: Order,
    at: u64,
    bytes: &[u8],
    from: u64,
    into: &mut [u8],
) -> Result<usize, Stop>
    requires some { 0 < length bytes.now }
    requires end { at + length bytes.now ≤ greatest_end }
{
    let mut node = empty(blocks, order);
    write(alloc, &mut node, blocks, order, at, bytes)?;
    read(&node, blocks, order, from, into)
}

// What is read of a file that got some bytes, and then others in their midst.
fn read_twice<B: Blocks>(
    alloc: Global,
    blocks: &mut B,
    order: Order,
    bytes: &[u8],
    at: u64,
    others: &[u8],
    from: u64,
    into: &mut [u8],
) -> Result<usize, Stop>
    requires some { (0 < length bytes.now) × (0 < length others.now) }
    requires end { (length bytes.now ≤ greatest_end) × (at + length others.now ≤ greatest_end) }
{
    let mut node = empty(blocks, order);
    write(alloc, &mut node, blocks, order, 0, bytes)?;
    write(alloc, &mut node, blocks, order, at, others)?;
    read(&node, blocks, order, from, into)
}

// What is read of a file that got some bytes, was cut, and grew again.
fn read_cut<B: Blocks>(
    alloc: Global,
    blocks: &mut B,
    order: Order,
    bytes: &[u8],
    cut: u64,
    size: u64,
    from: u64,
    into: &mut [u8],
) -> Result<usize, Stop>
    requires some { 0 < length bytes.now }
    requires end { (length bytes.now ≤ greatest_end) × (cut ≤ greatest_end) × (size ≤ greatest_end) }
{
    let mut node = empty(blocks, order);
    write(alloc, &mut node, blocks, order, 0, bytes)?;
    resize(alloc, &mut node, blocks, order, cut)?;
    resize(alloc, &mut node, blocks, order, size)?;
    read(&node, blocks, order, from, into)
}

// So many times one byte.
fn filled(alloc: Global, count: usize, byte: u8) -> Result<Vec<u8>, Fail>
    ensures { IfOk result (λ bytes. vec_len bytes ≡ count) }
{
    Ok(vec![in alloc; byte; count]?)
}

// So many bytes, of which no 251 in a row are alike.
fn numbered(alloc: Global, count: usize) -> Result<Vec<u8>, Fail>
    ensures { IfOk result (λ bytes. vec_len bytes ≡ count) }
{
    let mut bytes = filled(alloc, count, 0)?;
    number(&mut bytes);
    Ok(bytes)
}

// Numbers them.
fn number(bytes: &mut [u8])
    ensures { length bytes.new ≡ length bytes.old }
{
    for (k, byte) in bytes.iter_mut().enumerate() {
        *byte = (k % 251) as u8;
    }
}

#[test]
fn a_hole_before_a_byte_reads_as_0(rt: HostRuntime) -> Result<(), Fail> {
    for order in [Order::Little, Order::Big] {
        let mut blocks = MemBlocks::new(rt.alloc(), 512, 8)?;
        let mut into = [7; 10];
        let count = read_back(rt.alloc(), &mut blocks, order, 1024, b"x", 1023, &mut into)?;
        assert_eq!(rt; count, 2);
        assert_eq!(rt; into, [0, b'x', 7, 7, 7, 7, 7, 7, 7, 7]);
    }
    Ok(())
}

#[test]
fn bytes_behind_pointer_blocks_are_read_back(rt: HostRuntime) -> Result<(), Fail> {
    let bytes = numbered(rt.alloc(), 20_000)?;
    let cases = [
        ("the hole before", 298, 4, [0, 0, 0, 1]),
        ("a boundary", 510, 4, [210, 211, 212, 213]),
        (
            "below a second pointer block",
            19_000,
            4,
            [126, 127, 128, 129],
        ),
        ("the end", 20_298, 2, [169, 170, 7, 7]),
    ];
    for (name, from, count, want) in cases {
        for order in [Order::Little, Order::Big] {
            let mut blocks = MemBlocks::new(rt.alloc(), 512, 64)?;
            let mut into = [7; 4];
            let read = read_back(rt.alloc(), &mut blocks, order, 300, &bytes, from, &mut into)?;
            assert_eq!(rt; read, count, "{name}");
            assert_eq!(rt; into, want, "{name}");
        }
    }
    Ok(())
}

#[test]
fn a_write_leaves_the_bytes_beside_it(rt: HostRuntime) -> Result<(), Fail> {
    let bytes = filled(rt.alloc(), 2000, b'a')?;
    let others = filled(rt.alloc(), 600, b'b')?;
    let cases = [
        ("its begin", 498, 4, [b'a', b'a', b'b', b'b']),
        ("its end", 1098, 4, [b'b', b'b', b'a', b'a']),
        ("the file's end", 1999, 1, [b'a', 7, 7, 7]),
    ];
    for (name, from, count, want) in cases {
        for order in [Order::Little, Order::Big] {
            let mut blocks = MemBlocks::new(rt.alloc(), 512, 16)?;
            let mut into = [7; 4];
            let read = read_twice(
                rt.alloc(),
                &mut blocks,
                order,
                &bytes,
                500,
                &others,
                from,
                &mut into,
            )?;
            assert_eq!(rt; read, count, "{name}");
            assert_eq!(rt; into, want, "{name}");
        }
    }
    Ok(())
}

#[test]
fn a_file_that_is_cut_and_grows_has_0_past_the_cut(rt: HostRuntime) -> Result<(), Fail> {
    let bytes = filled(rt.alloc(), 1500, b'a')?;
    let cases = [
        ("the cut", 698, 4, [b'a', b'a', 0, 0]),
        ("the cut leaf's end", 1022, 4, [0, 0, 0, 0]),
        ("the new end", 1398, 2, [0, 0, 7, 7]),
    ];
    for (name, from, count, want) in cases {
        for order in [Order::Little, Order::Big] {
            let mut blocks = MemBlocks::new(rt.alloc(), 512, 16)?;
            let mut into = [7; 4];
            let read = read_cut(
                rt.alloc(),
                &mut blocks,
                order,
                &bytes,
                700,
                1400,
                from,
                &mut into,
            )?;
            assert_eq!(rt; read, count, "{name}");
            assert_eq!(rt; into, want, "{name}");
        }
    }
    Ok(())
}

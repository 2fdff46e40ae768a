//! Bytes of a file, put and read leaf by leaf.
ghost use Rattle.std.specs.Prelude.{◌≡◌, ◌<◌, ◌≤◌, ◌+◌, ◌-◌, ◌*◌, ◌/◌, ◌^◌, ℕ, min, length, drop, replicate, slice_index, slice_range, IfOk, OnOk, IsTrue};
ghost use Rattle.qx_geom.specs.Pointer.{ceil_div};
ghost use Rattle.qx_nodes.specs.Content.{byte_of, leaf_bytes};
ghost use Rattle.qx_blocks.specs.BlockState.{IsBlockSize, IsConsistent};
ghost use Rattle.qx_blocks.specs.Calls.{OnlyReads};
ghost use Rattle.qx_ptree.specs.Trees.{HasLevels, IsWorking, block_map};
ghost use Rattle.qx_file.specs.Puts.{CanPut, HasByte, Puts, leaves_end, with_leaf};

use qx_blocks::{Blocks, Stop};
use qx_fields::Order;
use qx_geom::Root;
use qx_ptree::{leaf, ready_leaf};

/// Puts bytes into the leaves of a node from byte `at` on. They may pass the node's size, up to the end of its last leaf.
pub fn put<B: Blocks>(node: &Root, blocks: &mut B, order: Order, at: u64, bytes: &[u8])
    requires { CanPut order (B.state blocks.old) node.now at (length bytes.now) }
    ensures puts { Puts order node.now at bytes.now (B.state blocks.old) (B.state blocks.new) }
    ensures again { CanPut order (B.state blocks.new) node.now at (length bytes.now) }

    ensures others { B.beside blocks.new ≡ B.beside blocks.old }
{
    if bytes.is_empty() {
        return;
    }
    let size = blocks.size() as u64;
    let last = last_leaf(node.size, at, bytes.len() as u64, size);
    for index in at / size..last + 1 {
        put_leaf(node, blocks, order, index, at, bytes);
    }
}

/// Puts one byte `count` times into the leaves of a node from byte `at` on, as `put` does.
pub fn put_fill<B: Blocks>(node: &Root, blocks: &mut B, order: Order, at: u64, count: u64, byte: u8)
    requires { CanPut order (B.state blocks.old) node.now at count }
    ensures puts { Puts order node.now at (replicate count byte) (B.state blocks.old) (B.state blocks.new) }
    ensures again { CanPut order (B.state blocks.new) node.now at count }

    ensures others { B.beside blocks.new ≡ B.beside blocks.old }
{
    if count == 0 {
        return;
    }
    let size = blocks.size() as u64;
    let last = last_leaf(node.size, at, count, size);
    for index in at / size..last + 1 {
        fill_leaf(node, blocks, order, index, at, count, byte);
    }
}

/// Copies a node's bytes from byte `at` on, up to its size or to the end of `into`, and answers how many. Bytes of holes are 0.
pub fn read<B: Blocks>(
    node: &Root,
    blocks: &mut B,
    order: Order,
    at: u64,
    into: &mut [u8],
) -> Result<usize, Stop>
    requires levels { HasLevels (B.state blocks.old).holdings.size node.now }
    requires works { IsTrue (B.state blocks.old).tells → IsWorking order (B.state blocks.old) node.now }
    ensures count { IfOk result (λ n. n ≡ min (length into.old) (node.now.size - at)) }
    ensures bytes { IfOk result (λ n. IsTrue (B.state blocks.new).tells → (k : ℕ) → k < n
        → slice_index into.new k ≡ byte_of (block_map order (B.state blocks.old)) node.now (at + k)) }
    ensures rest { IfOk result (λ n. drop n into.new ≡ drop n into.old) }
    ensures long { length into.new ≡ length into.old }

    ensures reads { OnlyReads B.state B.beside blocks.old blocks.new result }
{
    let count = node.size.saturating_sub(at).min(into.len() as u64);
    if count == 0 {
        return Ok(0);
    }
    let size = blocks.size();
    let last = (at + (count - 1)) / size as u64;
    for index in at / size as u64..last + 1 {
        let piece = piece_in(size, at, count, index);
        let part = &mut into[piece.from..piece.from + piece.count];
        read_leaf(node, blocks, order, index, piece.place, part)?;
    }
    Ok(count as usize)
}

// The bytes of a range that lie in one leaf: where they begin in the leaf and in the range, and how many they are.
#[derive(Clone, Copy)]
struct Piece {
    place: usize,
    from: usize,
    count: usize,
}

// The bytes of `count` bytes from byte `at` on that lie in a leaf.
fn piece_in(size: usize, at: u64, count: u64, index: u64) -> Piece
    requires has { HasByte size at count index }
    requires size { (0 < size) × (size ≤ 4096) }
    requires end { at + count ≤ 2 ^ 64 }
    ensures place { result.place ≡ at - index * size }
    ensures from { result.from ≡ index * size - at }
    ensures count { result.count ≡ min (size - result.place) (count - result.from) }
    ensures inside { result.place + result.count ≤ size }
    ensures within { result.from + result.count ≤ count }
{
    let begin = index * size as u64;
    let place = at.saturating_sub(begin) as usize;
    let from = begin.saturating_sub(at);
    Piece {
        place,
        from: from as usize,
        count: (count - from).min((size - place) as u64) as usize,
    }
}

// The leaf with the last of `count` bytes from byte `at` on. They lie in the leaves of a file whose length fits 64 bits, so no place passes 2^64.
fn last_leaf(_length: u64, at: u64, count: u64, size: u64) -> u64
    requires some { 0 < count }
    requires size { IsBlockSize size }
    requires below { at + count ≤ leaves_end size _length }
    ensures last { result ≡ (at + count - 1) / size }
    ensures end { at + count ≤ 2 ^ 64 }
{
    (at + (count - 1)) / size
}

// Puts into one leaf those of some bytes from byte `at` on that lie in it.
fn put_leaf<B: Blocks>(node: &Root, blocks: &mut B, order: Order, index: u64, at: u64, bytes: &[u8])
    requires can { CanPut order (B.state blocks.old) node.now at (length bytes.now) }
    requires has { HasByte (B.state blocks.old).holdings.size at (length bytes.now) index }
    requires end { at + length bytes.now ≤ 2 ^ 64 }
    ensures put { B.state blocks.new ≡ with_leaf order (B.state blocks.old) node.now index at bytes.now }

    ensures others { B.beside blocks.new ≡ B.beside blocks.old }
{
    let piece = piece_in(blocks.size(), at, bytes.len() as u64, index);
    let part = &bytes[piece.from..piece.from + piece.count];
    let b = ready_leaf(node, blocks, order, index);
    blocks.edit(b)[piece.place..piece.place + piece.count].copy_from_slice(part);
}

// Puts into one leaf those of `count` times one byte from byte `at` on that lie in it.
fn fill_leaf<B: Blocks>(
    node: &Root,
    blocks: &mut B,
    order: Order,
    index: u64,
    at: u64,
    count: u64,
    byte: u8,
)
    requires can { CanPut order (B.state blocks.old) node.now at count }
    requires has { HasByte (B.state blocks.old).holdings.size at count index }
    requires end { at + count ≤ 2 ^ 64 }
    ensures put { B.state blocks.new
        ≡ with_leaf order (B.state blocks.old) node.now index at (replicate count byte) }

    ensures others { B.beside blocks.new ≡ B.beside blocks.old }
{
    let piece = piece_in(blocks.size(), at, count, index);
    let b = ready_leaf(node, blocks, order, index);
    blocks.edit(b)[piece.place..piece.place + piece.count].fill(byte);
}

// Copies bytes of one leaf from one of them on.
fn read_leaf<B: Blocks>(
    node: &Root,
    blocks: &mut B,
    order: Order,
    index: u64,
    place: usize,
    into: &mut [u8],
) -> Result<(), Stop>
    requires levels { HasLevels (B.state blocks.old).holdings.size node.now }
    requires below { index < ceil_div node.now.size (B.state blocks.old).holdings.size }
    requires works { IsTrue (B.state blocks.old).tells → IsWorking order (B.state blocks.old) node.now }
    requires consistent { IsConsistent (B.state blocks.old) }
    requires within { place + length into.old ≤ (B.state blocks.old).holdings.size }
    ensures bytes { OnOk result (IsTrue (B.state blocks.new).tells
        → into.new ≡ slice_range (leaf_bytes (block_map order (B.state blocks.old)) node.now index) place (place + length into.old)) }
    ensures long { length into.new ≡ length into.old }

    ensures reads { OnlyReads B.state B.beside blocks.old blocks.new result }
{
    match leaf(node, blocks, order, index)? {
        Some(b) => into.copy_from_slice(&blocks.read(b)?[place..place + into.len()]),
        None => into.fill(0),
    }
    Ok(())
}

//! The bytes of a bitmap.
ghost use Rattle.std.specs.Prelude.{◌≡◌, ◌<◌, ◌≤◌, ◌+◌, ◌*◌, ◌^◌, ◌==◌, ℕ, length};
ghost use Rattle.std.specs.Int.{bit_at};
ghost use Rattle.qx_geom.specs.Layout.{IsGeometry};
ghost use Rattle.qx_system.specs.SystemBytes.{HasBits, bitmap_byte, bitmap_leaf_bytes, is_taken};

use crate::Held;
use qx_geom::Geometry;

/// Whether a bit of the bitmap is 1: its block is held, or there is no such block.
fn is_bit_set<H: Held>(geometry: &Geometry, held: &H, bit: u64) -> bool
    requires geometry { IsGeometry geometry.now }
    requires held { geometry.now.num_blocks ≤ H.limit held.now }
    ensures { result ≡ is_taken geometry.now (H.held held.now) bit }
{
    bit < 2 * u64::from(geometry.half)
        || u64::from(geometry.num_blocks) <= bit
        || held.has(bit as u32)
}

/// A byte of the bitmap, bit by bit.
fn byte_by_bits<H: Held>(geometry: &Geometry, held: &H, place: u64) -> u8
    requires geometry { IsGeometry geometry.now }
    requires held { geometry.now.num_blocks ≤ H.limit held.now }
    requires place { place < 2 ^ 60 }
    ensures { HasBits geometry.now (H.held held.now) place result }
{
    let mut byte: u8 = 0;
    for bit in 0..8u8 {
        if is_bit_set(geometry, held, place * 8 + u64::from(bit)) {
            byte |= 1 << bit;
        }
    }
    byte
}

/// A byte of the bitmap, whole where no end of the user's blocks lies in it.
fn byte_at_once<H: Held>(geometry: &Geometry, held: &H, place: u64) -> u8
    requires geometry { IsGeometry geometry.now }
    requires held { geometry.now.num_blocks ≤ H.limit held.now }
    requires place { place < 2 ^ 60 }
    ensures { HasBits geometry.now (H.held held.now) place result }
{
    let halves = 2 * u64::from(geometry.half);
    let count = u64::from(geometry.num_blocks);
    let first = place * 8;
    if first + 8 <= halves {
        return 0xFF;
    }
    if count <= first {
        return 0xFF;
    }
    if halves <= first && first + 8 <= count {
        return held.byte(place as u32);
    }
    byte_by_bits(geometry, held, place)
}

/// A byte of a half's bitmap, to the end of its last leaf: 1 for both halves, for blocks that are held, and past the last block (this project's own rule).
pub fn bitmap_byte<H: Held>(geometry: &Geometry, held: &H, place: u64) -> u8
    requires geometry { IsGeometry geometry.now }
    requires held { geometry.now.num_blocks ≤ H.limit held.now }
    requires place { place < 2 ^ 60 }
    ensures byte { result ≡ bitmap_byte geometry.now (H.held held.now) place }
    ensures bits { HasBits geometry.now (H.held held.now) place result }
{
    byte_at_once(geometry, held, place)
}

/// Fills a leaf of a half's bitmap, byte by byte.
fn fill_by_bytes<H: Held>(geometry: &Geometry, held: &H, leaf: u32, into: &mut [u8])
    requires geometry { IsGeometry geometry.now }
    requires held { geometry.now.num_blocks ≤ H.limit held.now }
    requires leaf { leaf < geometry.now.bitmap_leaves }
    requires into { length into.old ≡ geometry.now.blocksize }
    ensures { into.new ≡ bitmap_leaf_bytes geometry.now (H.held held.now) leaf }
{
    let first = u64::from(leaf) * u64::from(geometry.blocksize);
    for (index, byte) in into.iter_mut().enumerate() {
        *byte = bitmap_byte(geometry, held, first + index as u64);
    }
}

/// Fills a leaf of a half's bitmap.
pub fn fill_bitmap_leaf<H: Held>(geometry: &Geometry, held: &H, leaf: u32, into: &mut [u8])
    requires geometry { IsGeometry geometry.now }
    requires held { geometry.now.num_blocks ≤ H.limit held.now }
    requires leaf { leaf < geometry.now.bitmap_leaves }
    requires into { length into.old ≡ geometry.now.blocksize }
    ensures { into.new ≡ bitmap_leaf_bytes geometry.now (H.held held.now) leaf }
{
    let halves = 2 * u64::from(geometry.half);
    let count = u64::from(geometry.num_blocks);
    let place = u64::from(leaf) * u64::from(geometry.blocksize);
    let first = place * 8;
    let end = first + u64::from(geometry.blocksize) * 8;
    if end <= halves {
        into.fill(0xFF);
    } else if halves <= first && end <= count {
        held.fill(place as u32, into);
    } else {
        // An end of the user's blocks lies in it.
        fill_by_bytes(geometry, held, leaf, into);
    }
}

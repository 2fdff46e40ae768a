//! Whether the bitmap of a half is as this project writes it.
ghost use Rattle.std.specs.Prelude.{◌≡◌, ◌<◌, ◌≤◌, ◌+◌, ◌*◌, ◌^◌, ◌==◌, ℕ, IfOk, IfSome, IfNone, length};
ghost use Rattle.std.specs.Int.{bit_at};
ghost use Rattle.qx_blockset.specs.Members.{limit_of};
ghost use Rattle.qx_geom.specs.Layout.{IsGeometry};
ghost use Rattle.qx_geom.specs.Lists.{first_below};
ghost use Rattle.qx_nodes.specs.BlockMap.{BlockMap};
ghost use Rattle.qx_pointers.specs.Halts.{Asks};
ghost use Rattle.qx_walk.specs.Layouts.{IsMetOn};
ghost use Rattle.qx_walk.specs.Bitmaps.{is_wrong_bit, is_wrong_in, IsFirst};
ghost use Rattle.qx_pointers.specs.Shown.{Shows};

use qx_blockset::BlockSet;
use qx_geom::{Geometry, Which};
use qx_outside::Dev;
use qx_pointers::{Halt, Shape, read_block};
use qx_system::bitmap_byte;

/// The first block whose bit in the half's bitmap isn't as it must be: 1 for both halves, for blocks that were met, and past the last block.
pub(crate) fn first_wrong_bit<D: Dev>(
    host: &mut D,
    shape: Shape,
    which: Which,
    geometry: &Geometry,
    met: &BlockSet,
) -> Result<Option<u64>, Halt>
    requires met { IsMetOn shape geometry.now met.now (D.outside host.old) }
    ensures bit { (m : BlockMap) → Shows shape (D.outside host.new) m
        → IfOk result (λ at. at ≡ first_below (is_wrong_bit m geometry.now which met.now) (geometry.now.bitmap_leaves * m.size * 8)) }
    ensures asks { Asks geometry.now.bitmap_leaves (D.outside host.old) (D.outside host.new) result }
{
    let first = geometry.first_block(which);
    for leaf in 0..geometry.bitmap_leaves {
        let begin = u64::from(leaf) * u64::from(shape.blocksize);
        if let Some(at) = first_wrong_in_leaf(host, shape, geometry, met, first + leaf, begin)? {
            return Ok(Some(at));
        }
    }
    Ok(None)
}

/// The first block whose bit in a leaf of a bitmap, whose first byte is the bitmap's byte `begin`, isn't as it must be.
fn first_wrong_in_leaf<D: Dev>(
    host: &mut D,
    shape: Shape,
    geometry: &Geometry,
    met: &BlockSet,
    block: u32,
    begin: u64,
) -> Result<Option<u64>, Halt>
    requires met { IsMetOn shape geometry.now met.now (D.outside host.old) }
    requires block { block < shape.count }
    requires begin { begin ≤ 2 ^ 50 }
    ensures bit { (m : BlockMap) → Shows shape (D.outside host.new) m
        → IfOk result (IsFirst (is_wrong_in geometry.now met.now begin (m.bytes block)) (begin * 8) ((begin + shape.blocksize) * 8)) }
    ensures asks { Asks 1 (D.outside host.old) (D.outside host.new) result }
{
    let mut buffer = [0; 4096];
    let bytes = &mut buffer[0..shape.blocksize as usize];
    read_block(host, shape, block, bytes)?;
    Ok(first_wrong_in(geometry, met, begin, bytes))
}

/// The first block whose bit among these bytes of a bitmap, from its byte `begin` on, isn't as it must be.
fn first_wrong_in(geometry: &Geometry, met: &BlockSet, begin: u64, bytes: &[u8]) -> Option<u64>
    requires geometry { IsGeometry geometry.now }
    requires met { limit_of met.now ≡ geometry.now.num_blocks }
    requires end { begin + length bytes.now ≤ 2 ^ 60 }
    ensures { IsFirst (is_wrong_in geometry.now met.now begin bytes.now) (begin * 8) ((begin + length bytes.now) * 8) result }
{
    for index in 0..bytes.len() {
        let place = begin + index as u64;
        let wanted = bitmap_byte(geometry, met, place);
        if bytes[index] != wanted {
            let differing = bytes[index] ^ wanted;
            return Some(place * 8 + u64::from(differing.trailing_zeros()));
        }
    }
    None
}

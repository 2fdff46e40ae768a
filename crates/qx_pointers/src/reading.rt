//! Blocks of a device that is only read.
ghost use Rattle.std.specs.Prelude.{◌≡◌, ◌<◌, ◌≤◌, ◌+◌, ◌*◌, ◌/◌, ◌%◌, OnOk, drop, length};
ghost use Rattle.qx_geom.specs.Layout.{blocks_begin};
ghost use Rattle.qx_geom.specs.Lists.{each_below};
ghost use Rattle.qx_geom.specs.Pointer.{per_block};
ghost use Rattle.qx_nodes.specs.BlockMap.{BlockMap, word};
ghost use Rattle.qx_pointers.specs.Shown.{Fits, HasBlocks, ReadsOnce, Shows};

use crate::Shape;
use qx_fields::get32s;
use qx_geom::BLOCKS_BEGIN;
use qx_outside::{Dev, Failed};

/// Fills the slice with the bytes of a block.
pub fn read_block<D: Dev>(
    host: &mut D,
    shape: Shape,
    block: u32,
    into: &mut [u8],
) -> Result<(), Failed>
    requires block { block < shape.count }
    requires long { length into.old ≡ shape.blocksize }
    requires fits { Fits shape (D.outside host.old) }
    ensures bytes { (m : BlockMap) → Shows shape (D.outside host.new) m
        → OnOk result (into.new ≡ m.bytes block) }
    ensures long { length into.new ≡ length into.old }
    ensures looks { ReadsOnce (D.outside host.old) (D.outside host.new) result }
{
    read_block_from(host, shape, block, 0, into)
}

/// Fills the slice with the bytes of a block from one of them on, in bytes, to its end.
pub fn read_block_from<D: Dev>(
    host: &mut D,
    shape: Shape,
    block: u32,
    from: usize,
    into: &mut [u8],
) -> Result<(), Failed>
    requires block { block < shape.count }
    requires long { from + length into.old ≡ shape.blocksize }
    requires fits { Fits shape (D.outside host.old) }
    ensures bytes { (m : BlockMap) → Shows shape (D.outside host.new) m
        → OnOk result (into.new ≡ drop from (m.bytes block)) }
    ensures long { length into.new ≡ length into.old }
    ensures looks { ReadsOnce (D.outside host.old) (D.outside host.new) result }
{
    let at = place_of(shape, block) + from as u64;
    host.read_at(at, into)
}

/// Fills the slice with the bytes of blocks that stand side by side, from this one on.
pub fn read_blocks<D: Dev>(
    host: &mut D,
    shape: Shape,
    first: u32,
    into: &mut [u8],
) -> Result<(), Failed>
    requires whole { length into.old % shape.blocksize ≡ 0 }
    requires blocks { first + length into.old / shape.blocksize ≤ shape.count }
    requires fits { Fits shape (D.outside host.old) }
    ensures bytes { (m : BlockMap) → Shows shape (D.outside host.new) m
        → OnOk result (HasBlocks m first into.new) }
    ensures long { length into.new ≡ length into.old }
    ensures looks { ReadsOnce (D.outside host.old) (D.outside host.new) result }
{
    host.read_at(place_of(shape, first), into)
}

// Where a block begins, in bytes.
fn place_of(shape: Shape, block: u32) -> u64
    ensures { result ≡ blocks_begin + block * shape.blocksize }
{
    BLOCKS_BEGIN + u64::from(block) * u64::from(shape.blocksize)
}

/// Fills the slice with the pointers of a pointer block.
pub(crate) fn read_pointers<D: Dev>(
    host: &mut D,
    shape: Shape,
    block: u32,
    into: &mut [u32],
) -> Result<(), Failed>
    requires block { block < shape.count }
    requires long { length into.old ≡ per_block shape.blocksize }
    requires fits { Fits shape (D.outside host.old) }
    ensures pointers { (m : BlockMap) → Shows shape (D.outside host.new) m
        → OnOk result (into.new ≡ each_below (per_block shape.blocksize) (λ w. word m block w)) }
    ensures long { length into.new ≡ length into.old }
    ensures looks { ReadsOnce (D.outside host.old) (D.outside host.new) result }
{
    let mut buffer = [0; 4096];
    let bytes = &mut buffer[0..shape.blocksize as usize];
    read_block(host, shape, block, bytes)?;
    get32s(shape.order, bytes, 0, into);
    Ok(())
}

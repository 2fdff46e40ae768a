//! Pointer blocks of the system trees.
ghost use Rattle.std.specs.Prelude.{◌≡◌, length};
ghost use Rattle.qx_geom.specs.Layout.{IsGeometry, IsPointerBlock};
ghost use Rattle.qx_system.specs.SystemBytes.{pointer_block_bytes};

use qx_fields::{Order, put32};
use qx_geom::{Geometry, SystemTree, Which};

/// Fills a pointer block of one of the four system trees.
pub fn fill_pointer_block(
    geometry: &Geometry,
    order: Order,
    which: Which,
    tree: SystemTree,
    block: u32,
    into: &mut [u8],
)
    requires geometry { IsGeometry geometry.now }
    requires block { IsPointerBlock geometry.now which tree block }
    requires into { length into.old ≡ geometry.now.blocksize }
    ensures { into.new ≡ pointer_block_bytes geometry.now order which tree block }
{
    for word in 0..geometry.blocksize / 4 {
        let pointer = geometry.tree_word(which, tree, block, word);
        put32(order, into, 4 * word as usize, pointer);
    }
}

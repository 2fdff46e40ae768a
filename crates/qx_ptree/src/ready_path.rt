//! Where a leaf stands whose path is ready to be written.
ghost use Rattle.std.specs.Prelude.{◌≡◌, ◌<◌, ◌≤◌, IsTrue, Some};
ghost use Rattle.qx_geom.specs.Pointer.{ceil_div, per_block};
ghost use Rattle.qx_nodes.specs.BlockMap.{word};
ghost use Rattle.qx_nodes.specs.Leaves.{Block, leaf_of, leaf_under};
ghost use Rattle.qx_ptree.specs.Altered.{IsReadyLeaf};
ghost use Rattle.qx_ptree.specs.Trees.{HasLevels, IsReadyPath, block_map, pointer_at};

use qx_blocks::Blocks;
use qx_fields::{Order, get32};
use qx_geom::Root;

/// The block at a leaf that is ready, as are the pointer blocks above it. Ready blocks are read without the device.
pub fn ready_leaf<B: Blocks>(node: &Root, blocks: &mut B, order: Order, index: u64) -> u32
    requires levels { HasLevels (B.state blocks.old).holdings.size node.now }
    requires below { index < ceil_div node.now.size (B.state blocks.old).holdings.size }
    requires ready { IsReadyLeaf order (B.state blocks.old) node.now index }
    ensures leaf { leaf_of (block_map order (B.state blocks.old)) node.now index ≡ Block result }
    ensures pointer { pointer_at (block_map order (B.state blocks.old)) node.now 0 index ≡ result }
    ensures ready { IsTrue ((B.state blocks.old).holdings.ready result) }

    ensures same { B.state blocks.new ≡ B.state blocks.old }
    ensures others { B.beside blocks.new ≡ B.beside blocks.old }
{
    let words = blocks.size() as u64 / 4;
    let top = index / words.pow(u32::from(node.levels));
    ready_below(
        blocks,
        order,
        node.levels,
        node.pointers[top as usize],
        index,
    )
}

// The block at a leaf below a pointer that stands so many levels above the leaves.
fn ready_below<B: Blocks>(blocks: &mut B, order: Order, level: u8, pointer: u32, index: u64) -> u32
    requires level { level ≤ 5 }
    requires ready { IsReadyPath order (B.state blocks.old) level pointer index }
    ensures leaf { leaf_under (block_map order (B.state blocks.old)) level pointer index ≡ Block result }
    ensures ready { IsTrue ((B.state blocks.old).holdings.ready result) }

    ensures same { B.state blocks.new ≡ B.state blocks.old }
    ensures others { B.beside blocks.new ≡ B.beside blocks.old }
{
    let words = blocks.size() as u64 / 4;
    if level == 0 {
        return pointer;
    }
    let word = index / words.pow(u32::from(level) - 1) % words;
    let next = ready_word(blocks, order, pointer, word);
    ready_below(blocks, order, level - 1, next, index)
}

// A word of a pointer block that is ready.
fn ready_word<B: Blocks>(blocks: &mut B, order: Order, pointer: u32, w: u64) -> u32
    requires ready { IsTrue ((B.state blocks.old).holdings.ready pointer) }
    requires within { w < per_block (B.state blocks.old).holdings.size }
    ensures word { result ≡ word (block_map order (B.state blocks.old)) pointer w }

    ensures same { B.state blocks.new ≡ B.state blocks.old }
    ensures others { B.beside blocks.new ≡ B.beside blocks.old }
{
    // A block that is lent for writing is lent without fail, and here it isn't written.
    get32(order, blocks.edit(pointer), 4 * w as usize)
}

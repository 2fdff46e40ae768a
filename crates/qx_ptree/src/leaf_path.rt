//! Where a leaf stands.
ghost use Rattle.std.specs.Prelude.{◌≡◌, ◌<◌, ◌≤◌, IfOk, IfSome, IsTrue};
ghost use Rattle.qx_geom.specs.Pointer.{ceil_div};
ghost use Rattle.qx_nodes.specs.Leaves.{leaf_of, leaf_under};
ghost use Rattle.qx_blocks.specs.Calls.{OnlyReads};
ghost use Rattle.qx_ptree.specs.Trees.{HasLevels, IsWorking, PathLeads, block_map, leaf_at};

use qx_blocks::{Blocks, Stop};
use qx_fields::{Order, get32};
use qx_geom::{ABSENT, Root};

/// The block at a leaf of a node, or `None` where the leaf is a hole.
pub fn leaf<B: Blocks>(
    node: &Root,
    blocks: &mut B,
    order: Order,
    index: u64,
) -> Result<Option<u32>, Stop>
    requires levels { HasLevels (B.state blocks.old).holdings.size node.now }
    requires below { index < ceil_div node.now.size (B.state blocks.old).holdings.size }
    requires works { IsTrue (B.state blocks.old).tells → IsWorking order (B.state blocks.old) node.now }
    ensures found { IfOk result (λ found. IsTrue (B.state blocks.new).tells
        → leaf_at found ≡ leaf_of (block_map order (B.state blocks.old)) node.now index) }
    ensures held { IfOk result (λ found. IfSome found (λ b. IsTrue ((B.state blocks.old).holdings.works b))) }

    ensures reads { OnlyReads B.state B.beside blocks.old blocks.new result }
{
    let words = blocks.size() as u64 / 4;
    let top = index / words.pow(u32::from(node.levels));
    leaf_below(
        blocks,
        order,
        node.levels,
        node.pointers[top as usize],
        index,
    )
}

// The block at a leaf below a pointer that stands so many levels above the leaves.
fn leaf_below<B: Blocks>(
    blocks: &mut B,
    order: Order,
    level: u8,
    pointer: u32,
    index: u64,
) -> Result<Option<u32>, Stop>
    requires level { level ≤ 5 }
    requires leads { IsTrue (B.state blocks.old).tells
        → PathLeads order (B.state blocks.old) level pointer index }
    ensures found { IfOk result (λ found. IsTrue (B.state blocks.new).tells
        → leaf_at found ≡ leaf_under (block_map order (B.state blocks.old)) level pointer index) }
    ensures held { IfOk result (λ found. IfSome found (λ b. IsTrue ((B.state blocks.old).holdings.works b))) }

    ensures reads { OnlyReads B.state B.beside blocks.old blocks.new result }
{
    let words = blocks.size() as u64 / 4;
    // Where bytes aren't told, a pointer to a block that the tree doesn't hold counts as absent.
    if pointer == ABSENT || !blocks.works(pointer) {
        return Ok(None);
    }
    if level == 0 {
        return Ok(Some(pointer));
    }
    let word = index / words.pow(u32::from(level) - 1) % words;
    let bytes = blocks.read(pointer)?;
    let next = get32(order, bytes, 4 * word as usize);
    leaf_below(blocks, order, level - 1, next, index)
}

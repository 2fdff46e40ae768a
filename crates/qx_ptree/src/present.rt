//! Present leaves, one after another.
ghost use Rattle.std.specs.Prelude.{◌≡◌, ◌+◌, ◌*◌, ◌^◌, ◌<◌, ◌≤◌, IfOk, IfSome, IsTrue};
ghost use Rattle.qx_geom.specs.Pointer.{per_block};
ghost use Rattle.qx_nodes.specs.Leaves.{leaves_below};
ghost use Rattle.qx_blocks.specs.Calls.{OnlyReads};
ghost use Rattle.qx_ptree.specs.Holes.{StandsAt};
ghost use Rattle.qx_ptree.specs.Plans.{InReach};
ghost use Rattle.qx_ptree.specs.Present.{IsNextBetween, IsNextPresent};
ghost use Rattle.qx_ptree.specs.Trees.{HasLevels, IsWorking, block_map};

use crate::holes::read_words;
use crate::pointers::leading;
use qx_blocks::{Blocks, Stop};
use qx_fields::Order;
use qx_geom::{ABSENT, Root};

/// A present leaf of a node: its number, and the block that it is.
#[derive(Clone, Copy, Debug, PartialEq, Eq)]
pub struct Leaf {
    pub index: u64,
    pub block: u32,
}

/// The least present leaf of a node from leaf `from` on. A leaf past the size isn't present, and an absent pointer is passed over with all that would lie below it.
pub fn next_present<B: Blocks>(
    node: &Root,
    blocks: &mut B,
    order: Order,
    from: u64,
) -> Result<Option<Leaf>, Stop>
    requires levels { HasLevels (B.state blocks.old).holdings.size node.now }
    requires works { IsTrue (B.state blocks.old).tells → IsWorking order (B.state blocks.old) node.now }
    ensures found { IfOk result (λ found. IsTrue (B.state blocks.new).tells
        → IsNextPresent (block_map order (B.state blocks.old)) node.now from found) }
    ensures bounds { IfOk result (λ found. IfSome found (λ leaf.
        (from ≤ leaf.index) × (leaf.index < leaves_below (block_map order (B.state blocks.old)) node.now))) }
    ensures held { IfOk result (λ found. IfSome found (λ leaf. IsTrue ((B.state blocks.old).holdings.works leaf.block))) }

    ensures reads { OnlyReads B.state B.beside blocks.old blocks.new result }
{
    let _size = blocks.size();
    for (j, pointer) in node.pointers.iter().enumerate() {
        let found = present_below(node, blocks, order, from, node.levels, j as u64, *pointer)?;
        if found.is_some() {
            return Ok(found);
        }
    }
    Ok(None)
}

// The least present leaf from leaf `from` on, of those below block `index` of a level, to which `pointer` leads.
fn present_below<B: Blocks>(
    node: &Root,
    blocks: &mut B,
    order: Order,
    from: u64,
    level: u8,
    index: u64,
    pointer: u32,
) -> Result<Option<Leaf>, Stop>
    requires reach { InReach (B.state blocks.old).holdings.size level index }
    requires works { IsTrue (B.state blocks.old).tells → IsWorking order (B.state blocks.old) node.now }
    requires stands { IsTrue (B.state blocks.old).tells
        → StandsAt (block_map order (B.state blocks.old)) node.now level index pointer }
    ensures found { IfOk result (λ found. IsTrue (B.state blocks.new).tells
        → IsNextBetween (block_map order (B.state blocks.old)) node.now from (index * per_block (B.state blocks.old).holdings.size ^ level)
        ((index + 1) * per_block (B.state blocks.old).holdings.size ^ level) found) }
    ensures bounds { IfOk result (λ found. IfSome found (λ leaf.
        (from ≤ leaf.index) × (leaf.index < leaves_below (block_map order (B.state blocks.old)) node.now))) }
    ensures held { IfOk result (λ found. IfSome found (λ leaf. IsTrue ((B.state blocks.old).holdings.works leaf.block))) }

    ensures reads { OnlyReads B.state B.beside blocks.old blocks.new result }
{
    let size = blocks.size();
    let words = size / 4;
    let span = (words as u64).pow(u32::from(level));
    let first = index * span;
    if first + span <= from || node.size.div_ceil(size as u64) <= first {
        return Ok(None);
    }
    let pointer = leading(blocks, pointer);
    if pointer == ABSENT {
        return Ok(None);
    }
    if level == 0 {
        return Ok(Some(Leaf {
            index,
            block: pointer,
        }));
    }
    // The words before this one lead to leaves before `from`.
    let skip = from.saturating_sub(first) / (span / words as u64);
    let mut pointers = [ABSENT; 1024];
    read_words(blocks, order, pointer, &mut pointers[0..words])?;
    let pointers = &pointers[0..words];
    for w in skip as usize..words {
        let child = index * words as u64 + w as u64;
        let found = present_below(node, blocks, order, from, level - 1, child, pointers[w])?;
        if found.is_some() {
            return Ok(found);
        }
    }
    Ok(None)
}

//! The least leaf that isn't present.
ghost use Rattle.std.specs.Prelude.{◌≡◌, ℕ, ◌+◌, ◌*◌, ◌^◌, ◌<◌, ◌≤◌, true, false, length, slice_index, IfOk, IfSome, OnOk, IsTrue};
ghost use Rattle.qx_geom.specs.Lists.{is_in};
ghost use Rattle.qx_geom.specs.Pointer.{per_block};
ghost use Rattle.qx_nodes.specs.BlockMap.{word};
ghost use Rattle.qx_nodes.specs.Visits.{present_of};
ghost use Rattle.qx_blocks.specs.Calls.{OnlyReads};
ghost use Rattle.qx_ptree.specs.Holes.{IsLeastLack, StandsAt};
ghost use Rattle.qx_ptree.specs.Plans.{InReach};
ghost use Rattle.qx_ptree.specs.Trees.{HasLevels, IsWorking, block_map};

use crate::pointers::leading;
use qx_blocks::{Blocks, Stop};
use qx_fields::{Order, get32s};
use qx_geom::{ABSENT, Root};

/// The least leaf number that isn't one of a node's present leaves. A leaf past the size isn't present.
pub fn first_hole<B: Blocks>(node: &Root, blocks: &mut B, order: Order) -> Result<u64, Stop>
    requires levels { HasLevels (B.state blocks.old).holdings.size node.now }
    requires works { IsTrue (B.state blocks.old).tells → IsWorking order (B.state blocks.old) node.now }
    ensures absent { IfOk result (λ hole. IsTrue (B.state blocks.new).tells
        → is_in (present_of (block_map order (B.state blocks.old)) node.now) hole ≡ false) }
    ensures least { IfOk result (λ hole. IsTrue (B.state blocks.new).tells → (i : ℕ) → i < hole
        → is_in (present_of (block_map order (B.state blocks.old)) node.now) i ≡ true) }
    ensures reached { IfOk result (λ hole.
        hole ≤ 16 * per_block (B.state blocks.old).holdings.size ^ node.now.levels) }

    ensures reads { OnlyReads B.state B.beside blocks.old blocks.new result }
{
    let words = blocks.size() as u64 / 4;
    for (j, pointer) in node.pointers.iter().enumerate() {
        let hole = hole_below(node, blocks, order, node.levels, j as u64, *pointer)?;
        if let Some(leaf) = hole {
            return Ok(leaf);
        }
    }
    Ok(16 * words.pow(u32::from(node.levels)))
}

// The least leaf that isn't present, of those below block `index` of a level, to which `pointer` leads.
fn hole_below<B: Blocks>(
    node: &Root,
    blocks: &mut B,
    order: Order,
    level: u8,
    index: u64,
    pointer: u32,
) -> Result<Option<u64>, Stop>
    requires reach { InReach (B.state blocks.old).holdings.size level index }
    requires works { IsTrue (B.state blocks.old).tells → IsWorking order (B.state blocks.old) node.now }
    requires stands { IsTrue (B.state blocks.old).tells
        → StandsAt (block_map order (B.state blocks.old)) node.now level index pointer }
    ensures hole { IfOk result (λ hole. IsTrue (B.state blocks.new).tells
        → IsLeastLack (present_of (block_map order (B.state blocks.old)) node.now) (index * per_block (B.state blocks.old).holdings.size ^ level)
        ((index + 1) * per_block (B.state blocks.old).holdings.size ^ level) hole) }
    ensures below { IfOk result (λ hole.
        IfSome hole (λ leaf. leaf < (index + 1) * per_block (B.state blocks.old).holdings.size ^ level)) }

    ensures reads { OnlyReads B.state B.beside blocks.old blocks.new result }
{
    let size = blocks.size();
    let words = size / 4;
    let first = index * (words as u64).pow(u32::from(level));
    let pointer = leading(blocks, pointer);
    if pointer == ABSENT || node.size.div_ceil(size as u64) <= first {
        return Ok(Some(first));
    }
    if level == 0 {
        return Ok(None);
    }
    let mut pointers = [ABSENT; 1024];
    read_words(blocks, order, pointer, &mut pointers[0..words])?;
    for (w, below) in pointers[0..words].iter().enumerate() {
        let child = index * words as u64 + w as u64;
        let hole = hole_below(node, blocks, order, level - 1, child, *below)?;
        if hole.is_some() {
            return Ok(hole);
        }
    }
    Ok(None)
}

// Fills in the words of a pointer block.
pub(crate) fn read_words<B: Blocks>(
    blocks: &mut B,
    order: Order,
    pointer: u32,
    into: &mut [u32],
) -> Result<(), Stop>
    requires room { length into.old ≡ per_block (B.state blocks.old).holdings.size }
    requires held { IsTrue ((B.state blocks.old).holdings.held pointer) }
    ensures long { length into.new ≡ length into.old }
    ensures words { OnOk result (IsTrue (B.state blocks.new).tells → (w : ℕ) → w < length into.old
        → slice_index into.new w ≡ word (block_map order (B.state blocks.old)) pointer w) }

    ensures reads { OnlyReads B.state B.beside blocks.old blocks.new result }
{
    let bytes = blocks.read(pointer)?;
    get32s(order, bytes, 0, into);
    Ok(())
}

//! A node's pointers by their position.
ghost use Rattle.std.specs.Prelude.{◌≡◌, ◌<◌, ◌≤◌, ◌+◌, ◌-◌, ◌*◌, ◌==◌, ℕ, length, if◌then◌else◌, IfOk, OnOk, IsTrue, slice_index};
ghost use Rattle.qx_geom.specs.Pointer.{absent, per_block};
ghost use Rattle.qx_nodes.specs.BlockMap.{word};
ghost use Rattle.qx_blocks.specs.BlockState.{IsConsistent};
ghost use Rattle.qx_blocks.specs.Calls.{OnlyReads};
ghost use Rattle.qx_ptree.specs.Trees.{Leads, block_map};
ghost use Rattle.qx_ptree.specs.Plans.{IsPlan, planned_pointer};

use crate::plan::Plan;
use qx_blocks::{Blocks, Stop};
use qx_fields::{Order, get32s};
use qx_geom::ABSENT;

// Where bytes aren't told, a pointer to a block that the tree doesn't hold counts as absent.
pub(crate) fn leading<B: Blocks>(blocks: &B, pointer: u32) -> u32
    ensures works { ¬ (result ≡ absent) → IsTrue ((B.state blocks.now).holdings.works result) }
    ensures same { Leads (B.state blocks.now) pointer → result ≡ pointer }
    ensures consistent { IsConsistent (B.state blocks.now) }
{
    if blocks.works(pointer) {
        pointer
    } else {
        ABSENT
    }
}

// Fills in the pointers of a pointer block from its first on, or absent ones where there is no block.
fn read_pointers<B: Blocks>(
    blocks: &mut B,
    order: Order,
    pointer: u32,
    into: &mut [u32],
) -> Result<(), Stop>
    requires room { length into.old ≤ per_block (B.state blocks.old).holdings.size }
    requires leads { IsTrue (B.state blocks.old).tells → Leads (B.state blocks.old) pointer }
    ensures long { length into.new ≡ length into.old }
    ensures pointers { OnOk result (IsTrue (B.state blocks.new).tells → (w : ℕ) → w < length into.old
        → slice_index into.new w ≡ (if pointer == absent then absent else word (block_map order (B.state blocks.old)) pointer w)) }

    ensures reads { OnlyReads B.state B.beside blocks.old blocks.new result }
{
    let pointer = leading(blocks, pointer);
    if pointer == ABSENT {
        into.fill(ABSENT);
        return Ok(());
    }
    let bytes = blocks.read(pointer)?;
    get32s(order, bytes, 0, into);
    Ok(())
}

// Fills in the pointers to the blocks below block `index` of a level, to which `pointer` leads.
pub(crate) fn pointers_below<B: Blocks>(
    blocks: &mut B,
    plan: &Plan,
    level: u8,
    index: u64,
    pointer: u32,
    into: &mut [u32],
) -> Result<(), Stop>
    requires level { 0 < level }
    requires room { length into.old ≡ per_block (B.state blocks.old).holdings.size }
    requires consistent { IsConsistent (B.state blocks.old) }
    requires plan { IsPlan (B.state blocks.old) plan.now }
    requires pointer { IsTrue (B.state blocks.old).tells
        → pointer ≡ planned_pointer plan.now (B.state blocks.old) level index }
    ensures long { length into.new ≡ length into.old }
    ensures pointers { OnOk result (IsTrue (B.state blocks.new).tells → (w : ℕ) → w < length into.old
        → slice_index into.new w ≡ planned_pointer plan.now (B.state blocks.old) (level - 1) (index * per_block (B.state blocks.old).holdings.size + w)) }

    ensures reads { OnlyReads B.state B.beside blocks.old blocks.new result }
{
    if level != plan.node.levels + 1 || index != 0 {
        return read_pointers(blocks, plan.order, pointer, into);
    }
    // A level more takes the node's own pointers below its first block.
    into.fill(ABSENT);
    into[0..16].copy_from_slice(&plan.node.pointers);
    Ok(())
}

// The first 16 pointers of a level: the node's own, if it had so many levels.
pub(crate) fn top_pointers<B: Blocks>(
    blocks: &mut B,
    plan: &Plan,
    level: u8,
) -> Result<[u32; 16], Stop>
    requires consistent { IsConsistent (B.state blocks.old) }
    requires plan { IsPlan (B.state blocks.old) plan.now }
    ensures pointers { IfOk result (λ top. IsTrue (B.state blocks.new).tells → (j : ℕ) → j < 16
        → slice_index top j ≡ planned_pointer plan.now (B.state blocks.old) level j) }

    ensures reads { OnlyReads B.state B.beside blocks.old blocks.new result }
{
    let mut pointers = plan.node.pointers;
    if plan.node.levels < level {
        return Ok([ABSENT; 16]);
    }
    for _ in level..plan.node.levels {
        let first = pointers[0];
        read_pointers(blocks, plan.order, first, &mut pointers)?;
    }
    Ok(pointers)
}

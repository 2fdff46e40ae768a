//! What a change leaves no place for is noted, for the commit to give it up.
ghost use Rattle.std.specs.Prelude.{◌≡◌, ◌≤◌, ◌<◌, ◌+◌, ◌-◌, ◌*◌, ◌⊎◌, ℕ, length, IsTrue, slice_index};
ghost use Rattle.qx_geom.specs.Pointer.{per_block};
ghost use Rattle.qx_blocks.specs.BlockState.{IsConsistent};
ghost use Rattle.qx_blocks.specs.Calls.{OnlyReads};
ghost use Rattle.qx_ptree.specs.Building.{GivesUp, LiesOnSpine, LiesOutside, LiesUnder, one_block};
ghost use Rattle.qx_ptree.specs.Plans.{InReach, IsPlan, planned_pointer};

use crate::plan::Plan;
use crate::pointers::{leading, pointers_below};
use crate::work::Work;
use qx_blocks::{Blocks, Stop};
use qx_geom::ABSENT;

// Gives up block `index` of a level, to which `pointer` leads, and all below it.
#[cycle(subtree)]
pub(crate) fn give_up_below<B: Blocks>(
    blocks: &mut B,
    plan: &Plan,
    work: &mut Work,
    level: u8,
    index: u64,
    pointer: u32,
) -> Result<(), Stop>
    requires reach { InReach (B.state blocks.old).holdings.size level index }
    requires within { (level ≤ plan.now.node.levels) ⊎ ¬ (index ≡ 0) }
    requires plan { IsPlan (B.state blocks.old) plan.now }
    requires pointer { IsTrue (B.state blocks.old).tells
        → pointer ≡ planned_pointer plan.now (B.state blocks.old) level index }
    ensures gone { GivesUp (B.state blocks.old) (B.state blocks.new) work.old work.new plan.now
        (LiesUnder (per_block (B.state blocks.old).holdings.size) (one_block level index)) result }

    ensures reads { OnlyReads B.state B.beside blocks.old blocks.new result }
{
    let pointer = leading(blocks, pointer);
    if pointer == ABSENT {
        return Ok(());
    }
    work.give_up(pointer)?;
    if level == 0 {
        return Ok(());
    }
    let words = blocks.size() / 4;
    let mut pointers = [ABSENT; 1024];
    pointers_below(blocks, plan, level, index, pointer, &mut pointers[0..words])?;
    give_up_each(
        blocks,
        plan,
        work,
        level - 1,
        index * words as u64,
        &pointers[0..words],
    )
}

// Gives up the blocks of a level from block `first` on, to which these pointers lead, and all below them.
#[cycle(subtree)]
fn give_up_each<B: Blocks>(
    blocks: &mut B,
    plan: &Plan,
    work: &mut Work,
    level: u8,
    first: u64,
    pointers: &[u32],
) -> Result<(), Stop>
    requires reach { 0 < length pointers.now
        → InReach (B.state blocks.old).holdings.size level (first + length pointers.now - 1) }
    requires within { (level ≤ plan.now.node.levels) ⊎ ¬ (first ≡ 0) }
    requires consistent { IsConsistent (B.state blocks.old) }
    requires plan { IsPlan (B.state blocks.old) plan.now }
    requires pointers { IsTrue (B.state blocks.old).tells → (w : ℕ) → w < length pointers.now
        → slice_index pointers.now w ≡ planned_pointer plan.now (B.state blocks.old) level (first + w) }
    ensures gone { GivesUp (B.state blocks.old) (B.state blocks.new) work.old work.new plan.now
        (LiesUnder (per_block (B.state blocks.old).holdings.size) (record { level = level; first = first; count = length pointers.now })) result }

    ensures reads { OnlyReads B.state B.beside blocks.old blocks.new result }
{
    for (w, pointer) in pointers.iter().enumerate() {
        give_up_below(blocks, plan, work, level, first + w as u64, *pointer)?;
    }
    Ok(())
}

// Gives up what stands neither at the first 16 blocks of a level nor below them.
pub(crate) fn give_up_outside<B: Blocks>(
    blocks: &mut B,
    plan: &Plan,
    work: &mut Work,
    level: u8,
) -> Result<(), Stop>
    requires consistent { IsConsistent (B.state blocks.old) }
    requires plan { IsPlan (B.state blocks.old) plan.now }
    ensures gone { GivesUp (B.state blocks.old) (B.state blocks.new) work.old work.new plan.now
        (LiesOutside (per_block (B.state blocks.old).holdings.size) level) result }

    ensures reads { OnlyReads B.state B.beside blocks.old blocks.new result }
{
    let top = plan.node.levels;
    if top <= level {
        return Ok(());
    }
    give_up_each(blocks, plan, work, top, 1, &plan.node.pointers[1..16])?;
    give_up_spine(blocks, plan, work, level, top, plan.node.pointers[0])
}

// Gives up the first block of a level above `level`, to which `pointer` leads, and what stands below it, but for the first 16 blocks of `level` and what stands below those.
fn give_up_spine<B: Blocks>(
    blocks: &mut B,
    plan: &Plan,
    work: &mut Work,
    level: u8,
    above: u8,
    pointer: u32,
) -> Result<(), Stop>
    requires above { (level < above) × (above ≤ plan.now.node.levels) }
    requires plan { IsPlan (B.state blocks.old) plan.now }
    requires pointer { IsTrue (B.state blocks.old).tells
        → pointer ≡ planned_pointer plan.now (B.state blocks.old) above 0 }
    ensures gone { GivesUp (B.state blocks.old) (B.state blocks.new) work.old work.new plan.now
        (LiesOnSpine (per_block (B.state blocks.old).holdings.size) level above) result }

    ensures reads { OnlyReads B.state B.beside blocks.old blocks.new result }
{
    let pointer = leading(blocks, pointer);
    if pointer == ABSENT {
        return Ok(());
    }
    work.give_up(pointer)?;
    let words = blocks.size() / 4;
    let mut pointers = [ABSENT; 1024];
    pointers_below(blocks, plan, above, 0, pointer, &mut pointers[0..words])?;
    if above - 1 == level {
        return give_up_each(blocks, plan, work, level, 16, &pointers[16..words]);
    }
    give_up_each(blocks, plan, work, above - 1, 1, &pointers[1..words])?;
    give_up_spine(blocks, plan, work, level, above - 1, pointers[0])
}

//! How many fresh blocks a change takes.
ghost use Rattle.std.specs.Prelude.{◌≡◌, ℕ, ◌≤◌, ◌<◌, ◌+◌, ◌*◌, ◌^◌, ◌⊎◌, ◌-◌, IfOk, IfSome, IsTrue};
ghost use Rattle.qx_geom.specs.Layout.{levels_for};
ghost use Rattle.qx_geom.specs.Pointer.{per_block};
ghost use Rattle.qx_blocks.specs.BlockState.{IsConsistent};
ghost use Rattle.qx_blocks.specs.Calls.{OnlyReads};
ghost use Rattle.qx_ptree.specs.Alterations.{alteration_of, fresh_count};
ghost use Rattle.qx_ptree.specs.Fates.{IsChange, fate_of, leaves_after};
ghost use Rattle.qx_ptree.specs.Parts.{part_of};
ghost use Rattle.qx_ptree.specs.Plans.{InReach, IsPlan, alteration_in, planned_pointer};
ghost use Rattle.qx_ptree.specs.Trees.{IsNode};

use crate::change::{Change, Fate, common_fate, leaf_fate};
use crate::part::{Part, full, leaf_part, own_need};
use crate::plan::Plan;
use crate::pointers::{leading, pointers_below, top_pointers};
use qx_blocks::{Blocks, Stop};
use qx_fields::Order;
use qx_geom::{ABSENT, Root, levels};

/// How many fresh blocks a change of a node takes. It reads the pointers that are there and that lead to leaves that change, and no leaf.
pub fn need<B: Blocks>(
    node: &Root,
    blocks: &mut B,
    order: Order,
    change: &Change,
) -> Result<u64, Stop>
    requires node { IsNode order (B.state blocks.old) node.now }
    requires change { IsChange (B.state blocks.old).holdings.size change.now }
    ensures need { IfOk result (λ need. IsTrue (B.state blocks.new).tells
        → need ≡ fresh_count (alteration_of order (B.state blocks.old) node.now change.now)) }
    // So that the needs of several changes can be summed, also where bytes aren't told.
    ensures few { IfOk result (λ need. need ≤ 2 ^ 55) }

    ensures reads { OnlyReads B.state B.beside blocks.old blocks.new result }
{
    let plan = Plan::new(*node, order, *change);
    let size = blocks.size();
    let level = levels(change.size.div_ceil(size as u64), size as u32);
    let pointers = top_pointers(blocks, &plan, level)?;
    let mut need = 0;
    for (j, pointer) in pointers.iter().enumerate() {
        let part = part_at(blocks, &plan, level, j as u64, *pointer)?;
        need += part.need;
    }
    Ok(need)
}

// What the change makes of the part of the node from block `index` of a level on, to which `pointer` leads.
fn part_at<B: Blocks>(
    blocks: &mut B,
    plan: &Plan,
    level: u8,
    index: u64,
    pointer: u32,
) -> Result<Part, Stop>
    requires reach { InReach (B.state blocks.old).holdings.size level index }
    requires plan { IsPlan (B.state blocks.old) plan.now }
    requires pointer { IsTrue (B.state blocks.old).tells
        → pointer ≡ planned_pointer plan.now (B.state blocks.old) level index }
    ensures part { IfOk result (λ part. IsTrue (B.state blocks.new).tells
        → level ≤ levels_for (B.state blocks.old).holdings.size (leaves_after (B.state blocks.old).holdings.size plan.now.change)
        → part ≡ part_of (alteration_in plan.now (B.state blocks.old)) level index) }
    ensures few { IfOk result (λ part.
        part.need + 1 ≤ 2 * per_block (B.state blocks.old).holdings.size ^ level) }

    ensures reads { OnlyReads B.state B.beside blocks.old blocks.new result }
{
    let pointer = leading(blocks, pointer);
    if let Some(part) = alike_part(blocks, plan, level, index, pointer) {
        return Ok(part);
    }
    if level == 0 {
        return Ok(part_of_leaf(blocks, plan, index, pointer));
    }
    let words = blocks.size() / 4;
    let mut pointers = [ABSENT; 1024];
    pointers_below(blocks, plan, level, index, pointer, &mut pointers[0..words])?;
    let mut part = Part {
        need: 0,
        changed: false,
        present: false,
    };
    for (w, below) in pointers[0..words].iter().enumerate() {
        let child = index * words as u64 + w as u64;
        part = part.beside(part_at(blocks, plan, level - 1, child, *below)?);
    }
    let private = blocks.is_private(pointer);
    part.need += own_need(pointer != ABSENT, private, part.changed, part.present);
    Ok(part)
}

// The part of a leaf.
fn part_of_leaf<B: Blocks>(blocks: &B, plan: &Plan, index: u64, pointer: u32) -> Part
    requires plan { IsPlan (B.state blocks.now) plan.now }
    requires pointer { IsTrue (B.state blocks.now).tells
        → pointer ≡ planned_pointer plan.now (B.state blocks.now) 0 index }
    ensures part { IsTrue (B.state blocks.now).tells
        → result ≡ part_of (alteration_in plan.now (B.state blocks.now)) 0 index }
    ensures few { result.need ≤ 1 }
{
    let leaves = plan.change.size.div_ceil(blocks.size() as u64);
    let private = blocks.is_private(pointer);
    leaf_part(
        leaf_fate(&plan.change, leaves, index),
        pointer != ABSENT,
        private,
    )
}

// The part from block `index` of a level on, where all its leaves fare alike and none of them need be looked at.
fn alike_part<B: Blocks>(
    blocks: &B,
    plan: &Plan,
    level: u8,
    index: u64,
    pointer: u32,
) -> Option<Part>
    requires consistent { IsConsistent (B.state blocks.now) }
    requires reach { InReach (B.state blocks.now).holdings.size level index }
    requires plan { IsPlan (B.state blocks.now) plan.now }
    requires pointer { IsTrue (B.state blocks.now).tells
        → pointer ≡ planned_pointer plan.now (B.state blocks.now) level index }
    ensures part { IfSome result (λ part. IsTrue (B.state blocks.now).tells
        → level ≤ levels_for (B.state blocks.now).holdings.size (leaves_after (B.state blocks.now).holdings.size plan.now.change)
        → part ≡ part_of (alteration_in plan.now (B.state blocks.now)) level index) }
    ensures few { IfSome result (λ part.
        part.need + 1 ≤ 2 * per_block (B.state blocks.now).holdings.size ^ level) }
{
    let had = pointer != ABSENT;
    match alike_fate(blocks, plan, level, index)? {
        Fate::Written if had => None,
        Fate::Written => Some(Part {
            need: full(blocks.size() as u64 / 4, level),
            changed: true,
            present: true,
        }),
        fate => Some(leaf_part(fate, had, true)),
    }
}

// What becomes of each leaf below block `index` of a level, where it is seen to be the same for all.
pub(crate) fn alike_fate<B: Blocks>(blocks: &B, plan: &Plan, level: u8, index: u64) -> Option<Fate>
    requires reach { InReach (B.state blocks.now).holdings.size level index }
    ensures fate { IfSome result (λ fate. (i : ℕ)
        → index * per_block (B.state blocks.now).holdings.size ^ level ≤ i
        → i < (index + 1) * per_block (B.state blocks.now).holdings.size ^ level
        → fate_of (leaves_after (B.state blocks.now).holdings.size plan.now.change) plan.now.change i ≡ fate) }
    ensures level { IfSome result (λ fate. (level ≤ plan.now.node.levels) ⊎ ¬ (index ≡ 0)) }
{
    // Above the node's levels the first block has old leaves below it, though no pointer leads to it.
    if plan.node.levels < level && index == 0 {
        return None;
    }
    let size = blocks.size() as u64;
    let span = (size / 4).pow(u32::from(level));
    common_fate(
        &plan.change,
        plan.change.size.div_ceil(size),
        index * span,
        span,
    )
}

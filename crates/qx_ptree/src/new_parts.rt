//! The part of a node at one position is prepared, from its leaves up.
ghost use Rattle.std.specs.Prelude.{◌≡◌, ◌≤◌, ◌<◌, ◌+◌, ◌-◌, ◌*◌, true, false, IfOk, OnErr, IsTrue, not, ◌==◌};
ghost use Rattle.qx_geom.specs.Layout.{levels_for};
ghost use Rattle.qx_geom.specs.Pointer.{absent};
ghost use Rattle.qx_blocks.specs.BlockState.{IsConsistent};
ghost use Rattle.qx_blocks.specs.Beside.{LeavesBeside};
ghost use Rattle.qx_ptree.specs.Building.{BuildsOnto, WritesLeaf, one_block};
ghost use Rattle.qx_ptree.specs.Fates.{leaves_after};
ghost use Rattle.qx_ptree.specs.Parts.{part_of};
ghost use Rattle.qx_ptree.specs.Plans.{InReach, IsPlan, alteration_in, planned_pointer};
ghost use Rattle.qx_ptree.specs.PreparedNode.{Prepares};
ghost use Rattle.qx_ptree.specs.Reaching.{IsMarked, ReachesOnto};
ghost use Rattle.qx_ptree.specs.Takings.{Adds};

use crate::change::{Fate, leaf_fate};
use crate::fresh_blocks::alike_fate;
use crate::giving_up::give_up_below;
use crate::plan::Plan;
use crate::pointer_blocks::prepare_block;
use crate::pointers::{leading, pointers_below};
use crate::work::Work;
use qx_blocks::{Blocks, Stop};
use qx_geom::ABSENT;
use std::alloc::Global;

// A new pointer, and what the change makes of the part of the node below it.
#[derive(Clone, Copy, Debug, PartialEq, Eq)]
pub(crate) struct Below {
    pub(crate) pointer: u32,
    // Whether a leaf is written, comes or goes.
    pub(crate) changed: bool,
    // Whether a leaf is present afterwards.
    pub(crate) present: bool,
}

impl Below {
    // Nothing changes below a pointer.
    fn unchanged(pointer: u32) -> Below
        ensures { result ≡ record { pointer = pointer; changed = false; present = not (pointer == absent) } }
    {
        Below {
            pointer,
            changed: false,
            present: pointer != ABSENT,
        }
    }

    // All that was there below a pointer goes.
    fn gone(pointer: u32) -> Below
        ensures { result ≡ record { pointer = absent; changed = not (pointer == absent); present = false } }
    {
        Below {
            pointer: ABSENT,
            changed: pointer != ABSENT,
            present: false,
        }
    }
}

// Prepares the part of the node from block `index` of a level on, to which `pointer` leads.
pub(crate) fn prepare_at<B: Blocks>(
    alloc: Global,
    blocks: &mut B,
    plan: &Plan,
    work: &mut Work,
    level: u8,
    index: u64,
    pointer: u32,
) -> Result<Below, Stop>
    requires reach { InReach (B.state blocks.old).holdings.size level index }
    requires level { level
        ≤ levels_for (B.state blocks.old).holdings.size (leaves_after (B.state blocks.old).holdings.size plan.now.change) }
    requires plan { IsPlan (B.state blocks.old) plan.now }
    requires pointer { IsTrue (B.state blocks.old).tells
        → pointer ≡ planned_pointer plan.now (B.state blocks.old) level index }
    ensures built { IfOk result (λ below. BuildsOnto (B.state blocks.old) (B.state blocks.new)
        work.old work.new plan.now (one_block level index) (λ _. below.pointer)) }
    ensures changed { IfOk result (λ below. IsTrue (B.state blocks.new).tells
        → below.changed ≡ (part_of (alteration_in plan.now (B.state blocks.old)) level index).changed) }
    ensures present { IfOk result (λ below. IsTrue (B.state blocks.new).tells
        → below.present ≡ (part_of (alteration_in plan.now (B.state blocks.old)) level index).present) }

    ensures reaches { IfOk result (λ below. ReachesOnto (B.state blocks.old) (B.state blocks.new)
        work.old work.new plan.now (one_block level index) (λ _. below.pointer)) }
    ensures marked { IfOk result (λ below. IsMarked (B.state blocks.old) plan.now
        (one_block level index) below.changed below.present) }
    ensures consistent { IsConsistent (B.state blocks.old) }
    ensures err { OnErr result (Adds (B.state blocks.old) (B.state blocks.new) work.old work.new) }
    ensures others { LeavesBeside (B.beside blocks.old) (B.beside blocks.new) result }
{
    let pointer = leading(blocks, pointer);
    match alike_fate(blocks, plan, level, index) {
        Some(Fate::Stays) => return Ok(Below::unchanged(pointer)),
        Some(Fate::Goes) => {
            give_up_below(blocks, plan, work, level, index, pointer)?;
            return Ok(Below::gone(pointer));
        }
        _ => {}
    }
    if level == 0 {
        return prepare_leaf(blocks, plan, work, index, pointer);
    }
    let words = blocks.size() / 4;
    let mut old = [ABSENT; 1024];
    pointers_below(blocks, plan, level, index, pointer, &mut old[0..words])?;
    let mut new = [ABSENT; 1024];
    let mut changed = false;
    let mut present = false;
    for (w, child) in old[0..words].iter().enumerate() {
        let at = index * words as u64 + w as u64;
        let below = prepare_at(alloc, blocks, plan, work, level - 1, at, *child)?;
        new[w] = below.pointer;
        changed = changed || below.changed;
        present = present || below.present;
    }
    let pointer = prepare_block(
        alloc,
        blocks,
        plan.order,
        work,
        pointer,
        &new[0..words],
        changed,
        present,
    )?;
    // What was prepared stands on consistent blocks, which `size` says.
    let _size = blocks.size();
    Ok(Below {
        pointer,
        changed,
        present,
    })
}

// Prepares a leaf.
fn prepare_leaf<B: Blocks>(
    blocks: &mut B,
    plan: &Plan,
    work: &mut Work,
    index: u64,
    pointer: u32,
) -> Result<Below, Stop>
    requires reach { InReach (B.state blocks.old).holdings.size 0 index }
    requires plan { IsPlan (B.state blocks.old) plan.now }
    requires leads { ¬ (pointer ≡ absent) → IsTrue ((B.state blocks.old).holdings.works pointer) }
    requires pointer { IsTrue (B.state blocks.old).tells
        → pointer ≡ planned_pointer plan.now (B.state blocks.old) 0 index }
    ensures built { IfOk result (λ below. BuildsOnto (B.state blocks.old) (B.state blocks.new)
        work.old work.new plan.now (one_block 0 index) (λ _. below.pointer)) }
    ensures changed { IfOk result (λ below. IsTrue (B.state blocks.new).tells
        → below.changed ≡ (part_of (alteration_in plan.now (B.state blocks.old)) 0 index).changed) }
    ensures present { IfOk result (λ below. IsTrue (B.state blocks.new).tells
        → below.present ≡ (part_of (alteration_in plan.now (B.state blocks.old)) 0 index).present) }

    ensures reaches { IfOk result (λ below. ReachesOnto (B.state blocks.old) (B.state blocks.new)
        work.old work.new plan.now (one_block 0 index) (λ _. below.pointer)) }
    ensures marked { IfOk result (λ below. IsMarked (B.state blocks.old) plan.now
        (one_block 0 index) below.changed below.present) }
    ensures err { OnErr result (Adds (B.state blocks.old) (B.state blocks.new) work.old work.new) }
    ensures others { LeavesBeside (B.beside blocks.old) (B.beside blocks.new) result }
{
    let leaves = plan.change.size.div_ceil(blocks.size() as u64);
    match leaf_fate(&plan.change, leaves, index) {
        Fate::Stays => Ok(Below {
            pointer,
            changed: false,
            present: pointer != ABSENT,
        }),
        Fate::Goes => {
            give_up_below(blocks, plan, work, 0, index, pointer)?;
            Ok(Below {
                pointer: ABSENT,
                changed: pointer != ABSENT,
                present: false,
            })
        }
        Fate::Written => Ok(Below {
            pointer: written_leaf(blocks, work, pointer)?,
            changed: true,
            present: true,
        }),
    }
}

// The block for a leaf that is written: its own, where the working tree alone holds it, or a fresh one with its bytes.
fn written_leaf<B: Blocks>(blocks: &mut B, work: &mut Work, pointer: u32) -> Result<u32, Stop>
    requires leads { ¬ (pointer ≡ absent) → IsTrue ((B.state blocks.old).holdings.works pointer) }
    ensures written { IfOk result (λ b. WritesLeaf (B.state blocks.old) (B.state blocks.new)
        work.old work.new pointer b) }

    ensures err { OnErr result (Adds (B.state blocks.old) (B.state blocks.new) work.old work.new) }
    ensures others { LeavesBeside (B.beside blocks.old) (B.beside blocks.new) result }
{
    if pointer == ABSENT {
        return work.take(blocks);
    }
    // A block that other trees hold stays as it is.
    if !blocks.is_private(pointer) {
        let b = work.take_copy(blocks, pointer)?;
        work.give_up(pointer)?;
        return Ok(b);
    }
    work.keep(blocks, pointer)?;
    Ok(pointer)
}

//! A change is prepared: its fresh blocks are taken and filled, and nothing that the node holds is written.
ghost use Rattle.std.specs.Prelude.{◌<◌, ◌-◌, ◌*◌, [], IfOk, OnOk, OnErr};
ghost use Rattle.qx_geom.specs.Lists.{Distinct};
ghost use Rattle.qx_blocks.specs.BlockState.{IsConsistent};
ghost use Rattle.qx_blocks.specs.Beside.{LeavesBeside};
ghost use Rattle.qx_ptree.specs.Alterations.{HasRoomFor};
ghost use Rattle.qx_ptree.specs.BuiltNode.{BuildsNode};
ghost use Rattle.qx_ptree.specs.Fates.{IsChange};
ghost use Rattle.qx_ptree.specs.Plans.{IsPlan};
ghost use Rattle.qx_ptree.specs.PreparedNode.{Prepares};
ghost use Rattle.qx_ptree.specs.Takings.{Adds, Takes};
ghost use Rattle.qx_ptree.specs.Trees.{IsNode};
ghost use Rattle.qx_ptree.specs.WorkState.{all_blocks};

use crate::change::Change;
use crate::giving_up::give_up_outside;
use crate::new_parts::prepare_at;
use crate::plan::Plan;
use crate::pointers::top_pointers;
use crate::prepared::Prepared;
use crate::work::Work;
use qx_blocks::{Blocks, Stop};
use qx_fields::Order;
use qx_geom::{ABSENT, Root, levels};
use std::alloc::Global;

/// Takes the fresh blocks that a change of a node needs, and leaves the node as it is. After an error they are given back.
pub fn prepare<B: Blocks>(
    alloc: Global,
    node: &Root,
    blocks: &mut B,
    order: Order,
    change: &Change,
) -> Result<Prepared, Stop>
    requires node { IsNode order (B.state blocks.old) node.now }
    requires change { IsChange (B.state blocks.old).holdings.size change.now }
    requires room { HasRoomFor order (B.state blocks.old) node.now change.now }
    ensures ok { IfOk result (λ p.
        Prepares order (B.state blocks.old) (B.state blocks.new) node.now change.now p) }

    ensures err { OnErr result (Takes [] (B.state blocks.old) (B.state blocks.new)) }
    ensures others { LeavesBeside (B.beside blocks.old) (B.beside blocks.new) result }
{
    let plan = Plan::new(*node, order, *change);
    let mut work = Work::new(alloc);
    match prepare_distinct(alloc, blocks, &plan, &mut work) {
        Ok(root) => Ok(Prepared {
            node: *node,
            change: *change,
            root,
            work,
        }),
        Err(stop) => {
            work.give_back(blocks);
            Err(stop)
        }
    }
}

// Prepares the whole node, and makes sure that no block is named twice in the work: only bytes that aren't told do that.
fn prepare_distinct<B: Blocks>(
    alloc: Global,
    blocks: &mut B,
    plan: &Plan,
    work: &mut Work,
) -> Result<Root, Stop>
    requires plan { IsPlan (B.state blocks.old) plan.now }
    ensures built { IfOk result (λ root. BuildsNode (B.state blocks.old) (B.state blocks.new)
        work.old work.new plan.now root) }
    ensures distinct { OnOk result (Distinct (all_blocks work.new)) }
    ensures consistent { IsConsistent (B.state blocks.old) }
    ensures after { OnOk result (IsConsistent (B.state blocks.new)) }
    ensures err { OnErr result (Adds (B.state blocks.old) (B.state blocks.new) work.old work.new) }
    ensures others { LeavesBeside (B.beside blocks.old) (B.beside blocks.new) result }
{
    let root = prepare_tree(alloc, blocks, plan, work)?;
    if work.is_distinct(alloc)? {
        Ok(root)
    } else {
        Err(Stop::NoMemory)
    }
}

// Prepares the whole node, and answers what it is afterwards.
fn prepare_tree<B: Blocks>(
    alloc: Global,
    blocks: &mut B,
    plan: &Plan,
    work: &mut Work,
) -> Result<Root, Stop>
    requires plan { IsPlan (B.state blocks.old) plan.now }
    ensures built { IfOk result (λ root. BuildsNode (B.state blocks.old) (B.state blocks.new)
        work.old work.new plan.now root) }
    ensures consistent { IsConsistent (B.state blocks.old) }
    ensures after { OnOk result (IsConsistent (B.state blocks.new)) }
    ensures err { OnErr result (Adds (B.state blocks.old) (B.state blocks.new) work.old work.new) }
    ensures others { LeavesBeside (B.beside blocks.old) (B.beside blocks.new) result }
{
    let size = blocks.size();
    let level = levels(plan.change.size.div_ceil(size as u64), size as u32);
    let old = top_pointers(blocks, plan, level)?;
    give_up_outside(blocks, plan, work, level)?;
    let mut pointers = [ABSENT; 16];
    for (j, pointer) in old.iter().enumerate() {
        pointers[j] = prepare_at(alloc, blocks, plan, work, level, j as u64, *pointer)?.pointer;
    }
    // Only this says that the blocks are still consistent.
    let _ = blocks.size();
    Ok(Root {
        size: plan.change.size,
        pointers,
        levels: level,
    })
}

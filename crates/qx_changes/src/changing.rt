//! Nodes are changed together.
ghost use Rattle.std.specs.Prelude.{◌≡◌, ◌≤◌, [], length, IfOk, OnErr};
ghost use Rattle.qx_blocks.specs.Beside.{LeavesBeside};
ghost use Rattle.qx_ptree.specs.Takings.{Takes};
ghost use Rattle.qx_batch.specs.Nodes.{AreNodesOf};
ghost use Rattle.qx_batch.specs.Plans.{ArePlanned};
ghost use Rattle.qx_copies.specs.Copies.{node_in};
ghost use Rattle.qx_working.specs.States.{copy_of};
ghost use Rattle.qx_changes.specs.Made.{HasRoom, with_waiting};

use qx_batch::{Batch, Fitting, Planned, prepare_fitting};
use qx_blocks::{Blocks, Stop};
use qx_working::Working;
use std::alloc::Global;

/// Whether changes found room.
#[derive(Clone, Copy, Debug, PartialEq, Eq)]
pub enum Room {
    /// They did, and were made.
    Made,
    /// They need so many blocks where so many are free. Nothing was changed.
    NoSpace {
        /// How many fresh blocks the changes take.
        need: u64,
        /// How many blocks no tree holds.
        free: u64,
    },
}

/// Makes all of at most 256 changes of nodes that numbers of the working tree have, if they fit into what is free: they take no block, or leave 16 blocks free. One that removes something may take these as well.
pub fn change_nodes<B: Blocks>(
    alloc: Global,
    state: &mut Working,
    blocks: &mut B,
    planned: &[Planned],
    is_removing: bool,
) -> Result<Room, Stop>
    requires few { length planned.now ≤ 256 }
    requires planned { ArePlanned state.old.order (B.state blocks.old) planned.now }
    requires nodes { AreNodesOf (node_in (copy_of state.old)) planned.now }
    ensures room { IfOk result (λ room.
        HasRoom (B.state blocks.old) (B.state blocks.new) state.old state.new planned.now is_removing room) }

    ensures err { OnErr result (Takes [] (B.state blocks.old) (B.state blocks.new)) }
    ensures same { OnErr result (state.new ≡ state.old) }
    ensures others { LeavesBeside (B.beside blocks.old) (B.beside blocks.new) result }
{
    // Only this says that the blocks are consistent.
    let _ = blocks.size();
    let order = state.order;
    match prepare_fitting(alloc, blocks, order, planned, is_removing)? {
        Fitting::NoSpace { need, free } => Ok(Room::NoSpace { need, free }),
        Fitting::Prepared(batch) => {
            put_nodes(state, &batch);
            batch.commit(blocks);
            Ok(Room::Made)
        }
    }
}

// Gives each number of a batch its new node, the last one first.
fn put_nodes(state: &mut Working, batch: &Batch)
    ensures { state.new ≡ with_waiting state.old batch.now }
{
    let waiting = batch.waiting();
    let mut left = waiting.len();
    while 0 < left {
        left -= 1;
        let next = &waiting[left];
        state.put_node(next.plan.owner, &next.prep.root());
    }
}

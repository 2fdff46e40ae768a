//! Changes are prepared where they find room.
ghost use Rattle.std.specs.Prelude.{◌≤◌, [], length, IfOk, OnErr};
ghost use Rattle.qx_blocks.specs.Beside.{LeavesBeside};
ghost use Rattle.qx_ptree.specs.Takings.{Takes};
ghost use Rattle.qx_batch.specs.Fittings.{IsFitting};
ghost use Rattle.qx_batch.specs.Plans.{ArePlanned};

use crate::batch::Batch;
use crate::planned::Planned;
use crate::preparing::prepare_all;
use crate::room::{has_room, joint_need};
use qx_blocks::{Blocks, Stop};
use qx_fields::Order;
use std::alloc::Global;

/// Whether changes found room.
#[derive(Drop)]
pub enum Fitting {
    /// They did, and wait for their commit.
    Prepared(Batch),
    /// They need so many blocks where so many are free. No block was taken.
    NoSpace {
        /// How many fresh blocks the changes take.
        need: u64,
        /// How many blocks no tree holds.
        free: u64,
    },
}

/// Prepares all of at most 256 changes, if they fit into what is free: they take no block, or leave 16 blocks free. One that removes something may take these as well.
pub fn prepare_fitting<B: Blocks>(
    alloc: Global,
    blocks: &mut B,
    order: Order,
    planned: &[Planned],
    is_removing: bool,
) -> Result<Fitting, Stop>
    requires few { length planned.now ≤ 256 }
    requires planned { ArePlanned order (B.state blocks.old) planned.now }
    ensures ok { IfOk result (λ fitting.
        IsFitting order (B.state blocks.old) (B.state blocks.new) planned.now is_removing fitting) }

    ensures err { OnErr result (Takes [] (B.state blocks.old) (B.state blocks.new)) }
    ensures others { LeavesBeside (B.beside blocks.old) (B.beside blocks.new) result }
{
    let need = joint_need(blocks, order, planned)?;
    let free = blocks.free();
    if !has_room(is_removing, need, free) {
        return Ok(Fitting::NoSpace { need, free });
    }
    let batch = prepare_all(alloc, blocks, order, planned)?;
    Ok(Fitting::Prepared(batch))
}

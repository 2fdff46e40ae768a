//! Changes are prepared together.
ghost use Rattle.std.specs.Prelude.{[], IfOk, OnErr};
ghost use Rattle.qx_blocks.specs.Beside.{LeavesBeside};
ghost use Rattle.qx_ptree.specs.Takings.{Takes};
ghost use Rattle.qx_batch.specs.Batches.{ArePrepared};
ghost use Rattle.qx_batch.specs.Plans.{ArePlanned, HasJointRoom};

use crate::batch::Batch;
use crate::planned::Planned;
use qx_blocks::{Blocks, Stop};
use qx_fields::Order;
use std::alloc::Global;

/// Prepares all the changes, or none of them: after an error all that was taken is given back. Each number stands once among them, and no block stands in two of their nodes; where one does, there is `Stop::NoMemory`.
pub fn prepare_all<B: Blocks>(
    alloc: Global,
    blocks: &mut B,
    order: Order,
    planned: &[Planned],
) -> Result<Batch, Stop>
    requires planned { ArePlanned order (B.state blocks.old) planned.now }
    requires room { HasJointRoom order (B.state blocks.old) planned.now }
    ensures ok { IfOk result (λ batch.
        ArePrepared order (B.state blocks.old) (B.state blocks.new) planned.now batch) }

    ensures err { OnErr result (Takes [] (B.state blocks.old) (B.state blocks.new)) }
    ensures others { LeavesBeside (B.beside blocks.old) (B.beside blocks.new) result }
{
    // Only this says that the blocks are consistent.
    let _ = blocks.size();
    let mut batch = Batch::new(alloc);
    for plan in planned {
        if let Err(stop) = batch.add(alloc, blocks, order, plan) {
            batch.abandon(blocks);
            return Err(stop);
        }
        let _ = blocks.size();
    }
    Ok(batch)
}

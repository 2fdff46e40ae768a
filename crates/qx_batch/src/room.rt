//! Whether changes find room.
ghost use Rattle.std.specs.Prelude.{◌≡◌, ◌≤◌, ◌^◌, length, IsTrue, IfOk};
ghost use Rattle.qx_blocks.specs.Calls.{OnlyReads};
ghost use Rattle.qx_batch.specs.Plans.{ArePlanned, need_of_all};
ghost use Rattle.qx_geom.specs.Room.{fits};

use crate::planned::Planned;
use qx_blocks::{Blocks, Stop};
use qx_fields::Order;
use qx_ptree::need;

// So many free blocks stay for changes that remove something.
const RESERVE: u64 = 16;

/// How many fresh blocks at most 256 changes take together, where no block stands in two of their nodes.
pub fn joint_need<B: Blocks>(blocks: &mut B, order: Order, planned: &[Planned]) -> Result<u64, Stop>
    requires few { length planned.now ≤ 256 }
    requires planned { ArePlanned order (B.state blocks.old) planned.now }
    ensures need { IfOk result (λ need. IsTrue (B.state blocks.new).tells
        → need ≡ need_of_all order (B.state blocks.old) planned.now) }
    // Also where bytes aren't told, so that the reserve can be added.
    ensures few { IfOk result (λ need. need ≤ 2 ^ 63) }

    ensures reads { OnlyReads B.state B.beside blocks.old blocks.new result }
{
    let mut total = 0;
    for plan in planned {
        total += need(&plan.node, blocks, order, &plan.change)?;
    }
    Ok(total)
}

// Whether a change that takes so many blocks fits into so many free ones.
pub(crate) fn has_room(is_removing: bool, need: u64, free: u64) -> bool
    requires few { need ≤ 2 ^ 63 }
    ensures { result ≡ fits is_removing need free }
{
    if need == 0 {
        true
    } else if is_removing {
        need <= free
    } else {
        need + RESERVE <= free
    }
}

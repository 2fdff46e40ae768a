//! One call on a node in memory, as often as it is asked for.
ghost use Rattle.std.specs.Prelude.{◌≡◌, IfOk, IsTrue, OnOk};
ghost use Rattle.qx_ptree.specs.Alterations.{alteration_of, fresh_count};
ghost use Rattle.qx_ptree.specs.Trees.{IsNode};

use crate::changes::{Refusal, change_node, checked_need, empty_node, try_node};
use crate::words::{Call, SIZE, Task};
use qx_blocks::{Blocks, MemBlocks};
use qx_fields::Order;
use qx_geom::Root;
use qx_ptree::Change;
use std::alloc::Global;

/// Makes a node, and calls as the task says.
pub fn repeat(alloc: Global, task: Task) -> Result<(), Refusal> {
    let mut blocks = MemBlocks::new(alloc, SIZE, task.blocks())?;
    repeat_over(alloc, &mut blocks, task)
}

// The same over any blocks.
fn repeat_over<B: Blocks>(alloc: Global, blocks: &mut B, task: Task) -> Result<(), Refusal> {
    let order = Order::Little;
    let mut node = empty_node(blocks, order);
    change_node(alloc, &mut node, blocks, order, &task.whole())?;
    let change = task.one_leaf();
    for _ in 0..task.times {
        call_once(alloc, task.call, &mut node, blocks, order, &change)?;
    }
    Ok(())
}

/// Makes a call on a node, and answers the need of the change.
pub fn call_once<B: Blocks>(
    alloc: Global,
    call: Call,
    node: &mut Root,
    blocks: &mut B,
    order: Order,
    change: &Change,
) -> Result<u64, Refusal>
    requires { IsNode order (B.state blocks.old) node.old }
    ensures need { IfOk result (λ need. IsTrue (B.state blocks.new).tells
        → need ≡ fresh_count (alteration_of order (B.state blocks.old) node.old change.now)) }
    ensures committed { call ≡ Call.Commit → OnOk result (node.new.size ≡ change.now.size) }
    ensures kept { ¬ (call ≡ Call.Commit) → node.new ≡ node.old }

    ensures node { IsNode order (B.state blocks.new) node.new }
    ensures aside { (B.beside blocks.new).aside ≡ (B.beside blocks.old).aside }
{
    match call {
        Call::Need => checked_need(node, blocks, order, change),
        Call::Prepare => try_node(alloc, node, blocks, order, change),
        Call::Commit => change_node(alloc, node, blocks, order, change),
    }
}

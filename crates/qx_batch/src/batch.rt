//! Prepared changes of several nodes, which are committed or abandoned together.
ghost use Rattle.std.specs.Prelude.{◌≡◌, ℕ, List, [], IsTrue, OnOk, OnErr};
ghost use Rattle.qx_fields.specs.declared.order.Order.{Order};
ghost use Rattle.qx_blocks.specs.BlockState.{BlockState, IsConsistent};
ghost use Rattle.qx_blocks.specs.Beside.{LeavesBeside};
ghost use Rattle.qx_ptree.specs.Alterations.{HasRoomFor};
ghost use Rattle.qx_ptree.specs.Takings.{LeavesOthers, Takes};
ghost use Rattle.qx_batch.specs.declared.planned.Planned.{Planned};
ghost use Rattle.qx_batch.specs.Batches.{AreCommitted, ArePrepared, AreReady, CanCommitAll, IsAdded, IsApartFrom, LeavesShared, all_blocks_of, committed_all, fresh_of};
ghost use Rattle.qx_batch.specs.Changes.{AreChanged, with_nodes};
ghost use Rattle.qx_batch.specs.Nodes.{AreLaid, AreNodesOf, Nodes};
ghost use Rattle.qx_batch.specs.Plans.{IsPlanned};

use crate::planned::Planned;
use qx_blocks::{Blocks, Stop};
use qx_fields::Order;
use qx_ptree::{Prepared, abandon, apart, commit, prepare};
use std::alloc::Global;
use std::marker::Model;

/// A planned change that was prepared.
#[derive(Drop)]
pub struct Waiting {
    /// What was planned.
    pub plan: Planned,
    /// What its commit needs. `Prepared::root` is the node that the number has afterwards.
    pub prep: Prepared,
}

/// Prepared changes, in the order in which they were planned.
#[derive(Drop)]
pub struct Batch {
    waiting: Vec<Waiting>,
}

impl Model for Batch {
    ghost use Rattle.std.specs.Prelude.{List};
    ghost use Rattle.qx_batch.specs.declared.batch.Waiting.{Waiting};

    ghost Value = { List Waiting };

    ghost view = { λ batch. batch.waiting.items };
}

impl Batch {
    // No change.
    pub(crate) fn new(alloc: Global) -> Batch
        ensures { result ≡ [] }
    {
        Batch {
            waiting: Vec::new(alloc),
        }
    }

    /// Lends the changes, so that each number gets its new node.
    pub fn waiting(&self) -> &[Waiting]
        ensures { result.now ≡ self.now }
    {
        &self.waiting
    }

    // Prepares one more change, beside those that wait.
    pub(crate) fn add<B: Blocks>(
        &mut self,
        alloc: Global,
        blocks: &mut B,
        order: Order,
        plan: &Planned,
    ) -> Result<(), Stop>
        requires plan { IsPlanned order (B.state blocks.old) plan.now }
        requires room { HasRoomFor order (B.state blocks.old) plan.now.node plan.now.change }
        ensures added { OnOk result (IsAdded order (B.state blocks.old) (B.state blocks.new)
            plan.now self.old self.new) }

        ensures err { OnErr result (Takes [] (B.state blocks.old) (B.state blocks.new)) }
        ensures same { OnErr result (self.new ≡ self.old) }
        ensures others { LeavesBeside (B.beside blocks.old) (B.beside blocks.new) result }
    {
        self.waiting.reserve(1)?;
        let prep = prepare(alloc, &plan.node, blocks, order, &plan.change)?;
        if !self.is_apart(&prep) {
            abandon(blocks, prep);
            return Err(Stop::NoMemory);
        }
        let waiting = Waiting { plan: *plan, prep };
        if self.waiting.push(waiting).is_err() {
            unreachable!();
        }
        Ok(())
    }

    // Whether a change has no block in common with one that waits. Only bytes that aren't told, or nodes that aren't apart, make it so.
    fn is_apart(&self, prep: &Prepared) -> bool
        ensures { IsTrue result → IsApartFrom self.now prep.now }
    {
        for waiting in self.waiting.iter() {
            if !apart(&waiting.prep, prep) {
                return false;
            }
        }
        true
    }

    /// Gives back what was taken for all the changes, which are then forgotten.
    pub fn abandon<B: Blocks>(self, blocks: &mut B)
        // Where nothing else was taken since, all is as if they never were prepared.
        ensures back { (m : _) → Takes (fresh_of self) m (B.state blocks.old)
            → Takes [] m (B.state blocks.new) }

        ensures rest { LeavesOthers (fresh_of self) (B.state blocks.old) (B.state blocks.new) }
        ensures others { B.beside blocks.new ≡ B.beside blocks.old }
    {
        let mut waiting = self.waiting;
        while let Some(last) = waiting.pop() {
            abandon(blocks, last.prep);
        }
    }

    /// Commits all the changes, the last one first: reads nothing, and can't be refused.
    pub fn commit<B: Blocks>(self, blocks: &mut B)
        requires can { CanCommitAll (B.state blocks.old) self }
        ensures blocks { B.state blocks.new ≡ committed_all (B.state blocks.old) self }
        // Where bytes are told, all the nodes are changed as planned, and all others are as they were.
        ensures changed { (order : Order) (nodes : Nodes) (old : BlockState) (ps : List Planned) → IsTrue (B.state blocks.old).tells
            → IsConsistent old → AreLaid order old nodes → AreNodesOf nodes ps → ArePrepared order old (B.state blocks.old) ps self
            → AreChanged order nodes (with_nodes nodes self) old (B.state blocks.new) ps }
        // Whether they are told or not, what the changes write is ready, and no block that another tree holds is written.
        ensures committed { (order : Order) → AreReady order (B.state blocks.old) self → AreCommitted order (B.state blocks.new) self }
        ensures shared { LeavesShared (B.state blocks.old) (B.state blocks.new) }

        ensures rest { LeavesOthers (all_blocks_of self) (B.state blocks.old) (B.state blocks.new) }
        ensures others { B.beside blocks.new ≡ B.beside blocks.old }
    {
        let mut waiting = self.waiting;
        // Only this says that the blocks are consistent.
        let _ = blocks.size();
        while let Some(last) = waiting.pop() {
            let mut node = last.prep.node();
            commit(&mut node, blocks, last.prep);
            let _ = blocks.size();
        }
    }
}

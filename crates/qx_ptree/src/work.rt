//! What a change has done so far, and what is left to its commit.
ghost use Rattle.std.specs.Prelude.{◌≡◌, ℕ, ◌+◌, ◌<◌, ◌↔◌, List, ◌∷◌, ◌++◌, [], true, false, length, slice_index, IfOk, IfErr, OnOk, OnErr, IsTrue};
ghost use Rattle.std.specs.List.{list_any};
ghost use Rattle.qx_geom.specs.Lists.{Distinct, is_in};
ghost use Rattle.qx_blocks.specs.BlockState.{IsConsistent, with_bytes, with_fresh};
ghost use Rattle.qx_blocks.specs.Beside.{LeavesBeside};
ghost use Rattle.qx_blocks.specs.Calls.{Keeps, MakesReady};
ghost use Rattle.qx_ptree.specs.Takings.{LeavesOthers, Takes};
ghost use Rattle.qx_ptree.specs.WorkState.{CanEdit, all_blocks, no_work, with_edits, without_all};

use qx_blocks::{Blocks, Stop, fresh_copy};
use std::alloc::Global;
use std::marker::Model;

// The work of a change.
#[derive(Drop)]
pub(crate) struct Work {
    fresh: Vec<u32>,
    edits: Vec<Edit>,
    kept: Vec<u32>,
    released: Vec<u32>,
}

// A pointer block that the working tree alone holds, and the bytes that it is to get.
#[derive(Drop)]
struct Edit {
    block: u32,
    bytes: Vec<u8>,
}

impl Model for Work {
    ghost use Rattle.qx_ptree.specs.WorkState.{WorkState};

    ghost Value = { WorkState };

    ghost use Rattle.qx_ptree.specs.WorkView.{work_in};

    ghost view = { work_in };
}

impl Work {
    // Nothing.
    pub(crate) fn new(alloc: Global) -> Work
        ensures { result ≡ no_work }
    {
        Work {
            fresh: Vec::new(alloc),
            edits: Vec::new(alloc),
            kept: Vec::new(alloc),
            released: Vec::new(alloc),
        }
    }

    // Takes a block.
    pub(crate) fn take<B: Blocks>(&mut self, blocks: &mut B) -> Result<u32, Stop>
        ensures consistent { IsConsistent (B.state blocks.old) }
        ensures taken { IfOk result (λ b. B.state blocks.new ≡ with_fresh (B.state blocks.old) b) }
        ensures unheld { IfOk result (λ b. (B.state blocks.old).holdings.held b ≡ false) }
        ensures room { IfOk result (λ b. 0 < (B.state blocks.old).holdings.free) }
        ensures noted { IfOk result (λ b. self.new ≡ record self.old { fresh = self.old.fresh ++ b ∷ [] }) }
        ensures err { OnErr result (B.state blocks.new ≡ B.state blocks.old) }
        ensures same { OnErr result (self.new ≡ self.old) }
        ensures refused { IfErr result (λ stop. stop ≡ Stop.NoMemory) }
        ensures others { B.beside blocks.new ≡ B.beside blocks.old }
    {
        // Only bytes that aren't told lead here without a free block.
        if blocks.free() == 0 {
            return Err(Stop::NoMemory);
        }
        self.fresh.reserve(1)?;
        let b = blocks.fresh()?;
        if self.fresh.push(b).is_err() {
            unreachable!();
        }
        Ok(b)
    }

    // Takes a block with the bytes of another.
    pub(crate) fn take_copy<B: Blocks>(&mut self, blocks: &mut B, from: u32) -> Result<u32, Stop>
        requires { IsTrue ((B.state blocks.old).holdings.held from) }
        ensures consistent { IsConsistent (B.state blocks.old) }
        ensures unheld { IfOk result (λ b. (B.state blocks.old).holdings.held b ≡ false) }
        ensures room { IfOk result (λ b. 0 < (B.state blocks.old).holdings.free) }
        ensures holdings { IfOk result (λ b.
            (B.state blocks.new).holdings ≡ (with_fresh (B.state blocks.old) b).holdings) }
        ensures told { IfOk result (λ b. IsTrue (B.state blocks.new).tells
            → B.state blocks.new ≡ with_bytes (with_fresh (B.state blocks.old) b) b ((B.state blocks.old).bytes from)) }
        ensures ready { IfOk result (λ b. (q : _) → IsTrue ((B.state blocks.old).holdings.ready q)
            → (B.state blocks.new).bytes q ≡ (B.state blocks.old).bytes q) }
        ensures noted { IfOk result (λ b. self.new ≡ record self.old { fresh = self.old.fresh ++ b ∷ [] }) }
        ensures err { OnErr result (Keeps (B.state blocks.old) (B.state blocks.new)) }
        ensures same { OnErr result (self.new ≡ self.old) }
        ensures others { LeavesBeside (B.beside blocks.old) (B.beside blocks.new) result }
    {
        // Only bytes that aren't told lead here without a free block.
        if blocks.free() == 0 {
            return Err(Stop::NoMemory);
        }
        self.fresh.reserve(1)?;
        let b = fresh_copy(blocks, from)?;
        if self.fresh.push(b).is_err() {
            unreachable!();
        }
        Ok(b)
    }

    // Makes a block ready that stays where it is.
    pub(crate) fn keep<B: Blocks>(&mut self, blocks: &mut B, b: u32) -> Result<(), Stop>
        requires { IsTrue ((B.state blocks.old).holdings.private b) }
        ensures ready { OnOk result (MakesReady b (B.state blocks.old) (B.state blocks.new)) }
        ensures noted { OnOk result (self.new ≡ record self.old { kept = self.old.kept ++ b ∷ [] }) }
        ensures err { OnErr result (Keeps (B.state blocks.old) (B.state blocks.new)) }
        ensures same { OnErr result (self.new ≡ self.old) }
        ensures others { LeavesBeside (B.beside blocks.old) (B.beside blocks.new) result }
    {
        self.kept.reserve(1)?;
        blocks.ready(b)?;
        if self.kept.push(b).is_err() {
            unreachable!();
        }
        Ok(())
    }

    // The commit is to give up a block.
    pub(crate) fn give_up(&mut self, b: u32) -> Result<(), Stop>
        ensures noted { OnOk result (self.new ≡ record self.old { released = self.old.released ++ b ∷ [] }) }
        ensures same { OnErr result (self.new ≡ self.old) }
        ensures refused { IfErr result (λ stop. stop ≡ Stop.NoMemory) }
    {
        self.released.reserve(1)?;
        if self.released.push(b).is_err() {
            unreachable!();
        }
        Ok(())
    }

    // The commit is to give a pointer block these bytes.
    pub(crate) fn edit_later(&mut self, b: u32, bytes: Vec<u8>) -> Result<(), Stop>
        ensures noted { OnOk result (self.new ≡ record self.old {
          edits = self.old.edits ++ (record { block = b; bytes = bytes.items }) ∷ [];
        }) }
        ensures same { OnErr result (self.new ≡ self.old) }
        ensures refused { IfErr result (λ stop. stop ≡ Stop.NoMemory) }
    {
        self.edits.reserve(1)?;
        if self.edits.push(Edit { block: b, bytes }).is_err() {
            unreachable!();
        }
        Ok(())
    }

    // Gives the pointer blocks of the edits their bytes.
    pub(crate) fn write_edits<B: Blocks>(&self, blocks: &mut B)
        requires { CanEdit (B.state blocks.old) self.now }
        ensures written { B.state blocks.new ≡ with_edits (B.state blocks.old) self.now.edits }
        ensures rest { LeavesOthers self.now.kept (B.state blocks.old) (B.state blocks.new) }
        ensures others { B.beside blocks.new ≡ B.beside blocks.old }
    {
        for edit in self.edits.iter() {
            blocks.edit(edit.block).copy_from_slice(&edit.bytes);
        }
    }

    // Gives up the blocks that the change leaves out.
    pub(crate) fn give_all_up<B: Blocks>(&self, blocks: &mut B)
        ensures released { B.state blocks.new ≡ without_all (B.state blocks.old) self.now.released }
        ensures rest { LeavesOthers self.now.released (B.state blocks.old) (B.state blocks.new) }
        ensures others { B.beside blocks.new ≡ B.beside blocks.old }
    {
        release_all(blocks, &self.released);
    }

    // Gives back the blocks that were taken.
    pub(crate) fn give_back<B: Blocks>(&self, blocks: &mut B)
        ensures released { B.state blocks.new ≡ without_all (B.state blocks.old) self.now.fresh }
        ensures back { (m : _) (others : List ℕ) → Takes (others ++ self.now.fresh) m (B.state blocks.old)
            → Takes others m (B.state blocks.new) }
        ensures rest { LeavesOthers self.now.fresh (B.state blocks.old) (B.state blocks.new) }
        ensures others { B.beside blocks.new ≡ B.beside blocks.old }
    {
        release_all(blocks, &self.fresh);
    }

    // Whether some block is one of both changes.
    pub(crate) fn meets(&self, other: &Work) -> bool
        ensures { result ≡ list_any (λ b. is_in (all_blocks other.now) b) (all_blocks self.now) }
    {
        other.has_any(&self.fresh) || other.has_any(&self.kept) || other.has_any(&self.released)
    }

    // Whether one of these blocks is one of the change.
    fn has_any(&self, blocks: &[u32]) -> bool
        ensures { result ≡ list_any (λ b. is_in (all_blocks self.now) b) blocks.now }
    {
        blocks.iter().any(|b| self.has(*b))
    }

    // Whether a block is one of the change.
    fn has(&self, b: u32) -> bool
        ensures { result ≡ is_in (all_blocks self.now) b }
    {
        self.fresh.contains(&b) || self.kept.contains(&b) || self.released.contains(&b)
    }

    // Whether no block is named twice. Where bytes are told it is so.
    pub(crate) fn is_distinct(&self, alloc: Global) -> Result<bool, Stop>
        ensures distinct { IfOk result (λ distinct. distinct ≡ true ↔ Distinct (all_blocks self.now)) }
        ensures refused { IfErr result (λ stop. stop ≡ Stop.NoMemory) }
    {
        let mut blocks = Vec::new(alloc);
        blocks.extend_from_slice(&self.fresh)?;
        blocks.extend_from_slice(&self.kept)?;
        blocks.extend_from_slice(&self.released)?;
        blocks.sort_unstable();
        Ok(have_no_twins(&blocks))
    }
}

// Whether no number is followed by itself.
fn have_no_twins(blocks: &[u32]) -> bool
    ensures { result ≡ true ↔ ((k : ℕ) → k + 1 < length blocks.now
        → ¬ (slice_index blocks.now k ≡ slice_index blocks.now (k + 1))) }
{
    for (k, b) in blocks.iter().enumerate() {
        if k + 1 < blocks.len() && *b == blocks[k + 1] {
            return false;
        }
    }
    true
}

// Gives up the working tree's hold of these blocks, where it has one.
fn release_all<B: Blocks>(blocks: &mut B, released: &[u32])
    ensures released { B.state blocks.new ≡ without_all (B.state blocks.old) released.now }
    ensures others { B.beside blocks.new ≡ B.beside blocks.old }
{
    for b in released {
        // What the tree doesn't hold any more is passed over.
        if blocks.works(*b) {
            blocks.release(*b);
        }
    }
}

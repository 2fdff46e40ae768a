//! Blocks whose bytes aren't told, as those of a device may not be.
use crate::{Blocks, MemBlocks, Stop};

/// Blocks in memory of which nothing is told: for tests, whose callers then owe nothing for what pointers lead to.
#[derive(Drop)]
pub struct Untold {
    pub blocks: MemBlocks,
}

impl Blocks for Untold {
    ghost use Rattle.std.specs.Prelude.{false};
    ghost use Rattle.std.proofs.Common.{ap, refl};
    ghost use Rattle.qx_blocks.specs.MemState.{edited_in, state_of};
    ghost use Rattle.qx_blocks.specs.SlotWrites.{state-edited};

    ghost state = { λ q. record (state_of q.blocks) { tells = false } };

    ghost beside = { λ _. record { aside = tt; faults = 0 } };

    ghost edited = { λ q b bytes. record q { blocks = edited_in q.blocks b bytes } };

    ghost edits = { λ q b bytes ready same i. record (state-edited q.blocks b bytes ready same i) { tells = false } };

    ghost edits_beside = { λ _ _ _. refl };

    fn size(&self) -> usize {
        self.blocks.size()
    }

    fn read(&mut self, b: u32) -> Result<&[u8], Stop> {
        self.blocks.read(b)
    }

    fn fresh(&mut self) -> Result<u32, Stop> {
        self.blocks.fresh()
    }

    fn ready(&mut self, b: u32) -> Result<(), Stop> {
        self.blocks.ready(b)
    }

    fn edit(&mut self, b: u32) -> &mut [u8] {
        self.blocks.edit(b)
    }

    fn release(&mut self, b: u32) {
        self.blocks.release(b);
    }

    fn is_private(&self, b: u32) -> bool {
        self.blocks.is_private(b)
    }

    fn free(&self) -> u64 {
        self.blocks.free()
    }

    fn works(&self, b: u32) -> bool {
        self.blocks.works(b)
    }
}

//! The cache as the blocks of the working tree.
ghost use Rattle.std.specs.Prelude.{◌≡◌, ◌<◌, ◌≤◌, false, refl, replicate, IsTrue, IfErr, IfOk, OnErr, OnOk};
ghost use Rattle.qx_blocks.specs.BlockState.{with_fresh, without};
ghost use Rattle.qx_blocks.specs.Beside.{LeavesBeside};
ghost use Rattle.qx_blocks.specs.Calls.{Keeps, MakesReady};
ghost use Rattle.qx_blockset.specs.Members.{has};
ghost use Rattle.qx_alloc.specs.SpaceState.{free_in, is_held, is_private_in, IsFree};
ghost use Rattle.qx_cache.specs.CacheState.{beside_of, edited_in, kept_but, state_of, with_released, with_taken, CacheAside};
ghost use Rattle.qx_cache.specs.Calls.{Reads};

use crate::Cache;
use crate::cache::kept_but;
use qx_blocks::{Blocks, Stop};
use qx_outside::Dev;

// The bytes of the largest block, all 0.
static ZEROS: [u8; 4096] = [0; 4096];

// The bytes of a fresh block.
fn zeros(size: usize) -> &'static [u8]
    requires { size ≤ 4096 }
    ensures { result.now ≡ replicate size 0 }
{
    &ZEROS[..size]
}

impl<H: Dev> Blocks for Cache<H> {
    ghost state = { state_of H.outside };

    ghost Aside = { CacheAside };

    ghost beside = { beside_of H.outside };

    ghost edited = { edited_in };

    ghost read_leaves = { Reads H.outside };

    ghost use Rattle.qx_cache.specs.Edits.{state-edited};

    ghost edits = { state-edited H.outside };

    ghost edits_beside = { λ _ _ _. refl };

    fn size(&self) -> usize {
        self.size
    }

    fn read(&mut self, b: u32) -> Result<&[u8], Stop> {
        self.bring(b)?;
        Ok(self.at_hand(b))
    }

    fn fresh(&mut self) -> Result<u32, Stop>
        requires { 0 < free_in self.old.space }
        ensures taken { IfOk result (λ b.
            state_of H.outside self.new ≡ with_fresh (state_of H.outside self.old) b) }
        ensures unheld { IfOk result (λ b. is_held self.old.space b ≡ false) }
        ensures refused { IfErr result (λ stop. stop ≡ Stop.NoMemory) }
        ensures err { OnErr result (state_of H.outside self.new ≡ state_of H.outside self.old) }
        ensures others { beside_of H.outside self.new ≡ beside_of H.outside self.old }

        // Beside the blocks: which block it is, what is kept, and that the device is asked nothing.
        ensures free { IfOk result (λ b. IsFree self.old.space b) }
        ensures cache { IfOk result (λ b. self.new ≡ with_taken self.old b) }
        ensures cache_err { OnErr result (self.new ≡ self.old) }
    {
        self.changes.reserve(1)?;
        let b = self.space.take();
        self.changes.put(b, zeros(self.size));
        self.clean = kept_but(self.clean, b);
        Ok(b)
    }

    // A block that the working tree alone holds is always changed.
    fn ready(&mut self, b: u32) -> Result<(), Stop>
        requires { IsTrue (is_private_in self.old.space b) }
        ensures ok { OnOk result (MakesReady b (state_of H.outside self.old) (state_of H.outside self.new)) }
        ensures err { OnErr result (Keeps (state_of H.outside self.old) (state_of H.outside self.new)) }
        ensures others { LeavesBeside (beside_of H.outside self.old) (beside_of H.outside self.new) result }

        ensures kept { OnOk result (self.new.kept ≡ kept_but self.old.kept b) }
        ensures cache { self.new ≡ self.old }
    {
        let _changes = &self.changes;
        Ok(())
    }

    fn edit(&mut self, b: u32) -> &mut [u8] {
        self.changes.bytes_mut(b)
    }

    fn release(&mut self, b: u32)
        requires { IsTrue (has self.old.space.working b) }
        ensures released { state_of H.outside self.new ≡ without (state_of H.outside self.old) b }
        ensures others { beside_of H.outside self.new ≡ beside_of H.outside self.old }

        ensures cache { self.new ≡ with_released self.old b }
    {
        self.changes.take_out(b);
        self.space.give_back(b);
    }

    fn is_private(&self, b: u32) -> bool {
        self.space.is_private(b)
    }

    fn free(&self) -> u64 {
        self.space.free()
    }

    fn works(&self, b: u32) -> bool {
        self.space.works(b)
    }
}

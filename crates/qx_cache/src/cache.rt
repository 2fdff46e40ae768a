//! Blocks of a device, whose changes are kept in memory.
ghost use Rattle.std.specs.Prelude.{◌≡◌, ◌+◌, ◌<◌, ◌≤◌, ◌^◌, ◌↔◌, ℕ, List, true, false, length, is_ok, is_some, IsTrue, IfOk, IfErr, IfSome, IfNone, OnOk, OnErr};
ghost use Rattle.std.specs.FinMap.{empty, len};
ghost use Rattle.qx_outside.specs.Trail.{Deed.{wrote, synced}, bytes_of};
ghost use Rattle.qx_outside.specs.Calls.{Did, FailsToWrite, LeavesRest, MayDo, Syncs, Writes};
ghost use Rattle.qx_blocks.specs.BlockState.{IsBlockSize};
ghost use Rattle.qx_blocks.specs.Beside.{LeavesBeside};
ghost use Rattle.qx_blockset.specs.Members.{has};
ghost use Rattle.qx_alloc.specs.SpaceState.{free_in, is_held, is_private_in, limit_in};
ghost use Rattle.qx_cache.specs.CacheState.{beside_of, block_place, bytes_over, change_of, is_kept, kept_but, new_cache, with_frozen, with_thawed};
ghost use Rattle.qx_cache.specs.CacheView.{kept_in};
ghost use Rattle.qx_cache.specs.Calls.{FailsToWriteNext, HasDeviceCause, HasSameBlocks, IsOutsideUsers, OnlyAsks, Reads, WritesNext};
ghost use Rattle.qx_cache.specs.Coherence.{HasRoom, IsCoherent};

use qx_alloc::Space;
use qx_blocks::Stop;
use qx_outside::{Dev, Failed};
use qx_patch::Patch;
use std::alloc::Global;
use std::marker::Model;
use std::mem::swap;

/// Blocks of a device of which three trees hold some: the working one, the frozen one and the durable one.
/// What the working tree changes is kept in memory until it was frozen and `write_frozen` puts it on the device.
#[derive(Drop)]
pub struct Cache<H: Dev> {
    pub(crate) host: H,
    pub(crate) size: usize,
    pub(crate) space: Space,
    // The blocks that the working tree alone holds.
    pub(crate) changes: Patch,
    // The blocks of the frozen tree that the device doesn't have yet.
    frozen_changes: Patch,
    // The clean block whose bytes are in the buffer.
    pub(crate) clean: Option<u32>,
    buffer: Vec<u8>,
    // What is read goes here first, so that a read that fails leaves the kept block.
    spare: Vec<u8>,
}

impl<H: Dev> Model for Cache<H> {
    ghost use Rattle.qx_cache.specs.CacheState.{CacheState, cache_code};

    ghost Value = { CacheState H };

    ghost coded = { cache_code H.code };

    ghost use Rattle.qx_cache.specs.CacheView.{cache_in, IsInOrder};

    ghost view = { λ a. cache_in a.host a.size a.space a.changes a.frozen_changes a.clean };

    ghost invariant = { λ a. IsInOrder H.outside (cache_in a.host a.size a.space a.changes a.frozen_changes a.clean) a.changes a.frozen_changes a.buffer.items a.spare.items };
}

impl<H: Dev> Cache<H> {
    /// A cache of blocks of `blocksize` bytes on a device, of which `space` says who holds which.
    /// It will keep up to `room` clean blocks; so far it keeps one. For want of memory it hands the device back.
    pub fn new(
        alloc: Global,
        host: H,
        blocksize: u32,
        space: Space,
        room: usize,
    ) -> Result<Cache<H>, H>
        requires size { IsBlockSize blocksize }
        requires clean { (b : ℕ) → is_private_in space b ≡ false }
        requires unfrozen { space.is_frozen ≡ false }
        requires room { 0 < room }
        requires fits { HasRoom (H.outside host).extent blocksize (limit_in space) }
        ensures ok { IfOk result (λ cache. cache ≡ new_cache host blocksize space) }
        ensures coherent { IfOk result (λ cache. IsCoherent H.outside cache) }
        ensures err { IfErr result (λ back. back ≡ host) }
    {
        // What any space is consistent in.
        let _free = space.free();
        let size = blocksize as usize;
        let Ok(buffer) = vec![in alloc; 0; size] else {
            return Err(host);
        };
        let Ok(spare) = vec![in alloc; 0; size] else {
            return Err(host);
        };
        Ok(Cache {
            host,
            size,
            space,
            changes: Patch::new(alloc, size),
            frozen_changes: Patch::new(alloc, size),
            clean: None,
            buffer,
            spare,
        })
    }

    /// Writes the next changed block of the frozen tree, the least one, and answers whether there was one. It takes no memory.
    /// After a failed write anything may stand in that block's place, and the block is written by a later call.
    pub fn write_frozen(&mut self) -> Result<bool, Failed>
        ensures none { IfOk result (λ written. (written ≡ false) ↔ (self.old.frozen_changes ≡ empty)) }
        ensures idle { IfOk result (λ written. written ≡ false → self.new ≡ self.old) }
        ensures wrote { IfOk result (λ written. written ≡ true → WritesNext H.outside self.old self.new) }

        ensures failed { OnErr result (FailsToWriteNext H.outside self.old self.new) }
        ensures cause { HasDeviceCause H.outside self.old self.new result }

        ensures blocks { HasSameBlocks H.outside self.old self.new }
        ensures others { LeavesRest (H.outside self.old.host) (H.outside self.new.host) }
        ensures coherent { IsCoherent H.outside self.new }
    {
        let Some(b) = self.frozen_changes.least() else {
            return Ok(false);
        };
        let Some(bytes) = self.frozen_changes.get(b) else {
            unreachable!()
        };
        self.host.write_at(block_place(self.size, b), bytes)?;
        self.frozen_changes.take_out(b);
        Ok(true)
    }

    /// Writes bytes from byte `at` of the device on, outside the user blocks: a leaf of a half, or a superblock. It takes no memory.
    pub fn write_system(&mut self, at: u64, bytes: &[u8]) -> Result<(), Failed>
        requires outside { IsOutsideUsers self.old at (length bytes.now) }
        requires within { IfSome (H.outside self.old.host).extent (λ len. at + length bytes.now ≤ len) }

        ensures ok { OnOk result
            (Did (wrote at bytes.now bytes.now true) (H.outside self.old.host) (H.outside self.new.host)) }
        ensures err { OnErr result
            (FailsToWrite at bytes.now (H.outside self.old.host) (H.outside self.new.host)) }
        ensures step { Writes at bytes.now (H.outside self.old.host) (H.outside self.new.host) }
        ensures cause { HasDeviceCause H.outside self.old self.new result }

        ensures rest { OnlyAsks H.outside self.old self.new }
        ensures others { LeavesRest (H.outside self.old.host) (H.outside self.new.host) }
    {
        self.host.write_at(at, bytes)
    }

    /// After an Ok a loss of power leaves what reads of the device give, until later writes. Changed blocks are not written.
    pub fn sync(&mut self) -> Result<(), Failed>
        ensures ok { OnOk result (Did (synced true) (H.outside self.old.host) (H.outside self.new.host)) }
        ensures err { OnErr result
            (MayDo (synced false) (H.outside self.old.host) (H.outside self.new.host)) }
        ensures step { Syncs (H.outside self.old.host) (H.outside self.new.host) }
        ensures cause { HasDeviceCause H.outside self.old self.new result }

        ensures rest { OnlyAsks H.outside self.old self.new }
        ensures others { LeavesRest (H.outside self.old.host) (H.outside self.new.host) }
    {
        self.host.sync()
    }

    /// Freezes the working tree as it is: its changed blocks are the frozen tree's from now on.
    pub fn freeze(&mut self)
        requires { self.old.space.is_frozen ≡ false }
        ensures frozen { self.new ≡ with_frozen self.old }
        ensures changes { (b : ℕ) → change_of self.new b ≡ change_of self.old b }
        ensures bytes { (device : List ℕ) (b : ℕ)
            → bytes_over device self.new b ≡ bytes_over device self.old b }
        ensures free { free_in self.new.space ≡ free_in self.old.space }
        ensures coherent { IsCoherent H.outside self.new }
    {
        self.space.freeze();
        swap(&mut self.changes, &mut self.frozen_changes);
    }

    /// The frozen tree becomes the durable one. Blocks that only the old durable tree held are free from now on.
    pub fn thaw(&mut self)
        requires frozen { self.old.space.is_frozen ≡ true }
        requires written { self.old.frozen_changes ≡ empty }
        ensures thawed { self.new ≡ with_thawed self.old }
        ensures private { (b : ℕ) → is_private_in self.new.space b ≡ is_private_in self.old.space b }
        ensures bytes { (device : List ℕ) (b : ℕ) → IsTrue (has self.old.space.working b)
            → bytes_over device self.new b ≡ bytes_over device self.old b }
        ensures coherent { IsCoherent H.outside self.new }
    {
        self.space.thaw_into_durable();
    }

    /// How many blocks the working tree alone holds: as many as it changed since it was frozen.
    pub fn changed(&self) -> usize
        ensures { result ≡ len self.now.changes }
    {
        self.changes.len()
    }

    /// Whether the frozen tree holds the block.
    pub fn frozen_bit(&self, b: u32) -> bool
        ensures frozen { result ≡ has self.now.space.frozen b }
        ensures coherent { IsCoherent H.outside self.now }
    {
        self.space.frozen_bit(b)
    }

    /// The device. Changes that it doesn't have are lost.
    pub fn into_host(self) -> H
        ensures { result ≡ self.host }
    {
        self.host
    }

    // Whether the block is changed.
    fn is_changed(&self, b: u32) -> bool
        ensures { result ≡ is_some (change_of self.now b) }
    {
        self.changes.has(b) || self.frozen_changes.has(b)
    }

    // Whether the block is the one that is kept.
    fn is_kept(&self, b: u32) -> bool
        ensures kept { result ≡ is_kept self.now.kept b }
        ensures few { length self.now.kept ≤ 1 }
    {
        match self.clean {
            Some(kept) => b == kept,
            None => false,
        }
    }

    // Has a block's bytes in memory: a changed block is there, any other is read unless it is kept.
    pub(crate) fn bring(&mut self, b: u32) -> Result<(), Stop>
        requires { IsTrue (is_held self.old.space b) }
        ensures reads { Reads H.outside self.old b (is_ok result) self.new }
        ensures others { LeavesBeside (beside_of H.outside self.old) (beside_of H.outside self.new) result }
    {
        if self.is_changed(b) || self.is_kept(b) {
            return Ok(());
        }
        let place = block_place(self.size, b);
        if self.host.read_at(place, &mut self.spare).is_err() {
            return Err(Stop::Device);
        }
        swap(&mut self.buffer, &mut self.spare);
        self.clean = Some(b);
        Ok(())
    }

    // The bytes of a block that is changed or kept.
    pub(crate) fn at_hand(&self, b: u32) -> &[u8]
        requires held { IsTrue (is_held self.now.space b) }
        requires there { IfNone (change_of self.now b) (IsTrue (is_kept self.now.kept b)) }
        ensures long { length result.now ≡ self.now.size }
        ensures changed { IfSome (change_of self.now b) (λ bytes. result.now ≡ bytes) }
        ensures told { IsTrue (H.outside self.now.host).tells
            → result.now ≡ bytes_over (bytes_of (H.outside self.now.host).history) self.now b }
    {
        if let Some(bytes) = self.changes.get(b) {
            return bytes;
        }
        if let Some(bytes) = self.frozen_changes.get(b) {
            return bytes;
        }
        &self.buffer
    }
}

// Where block b begins on the device, in bytes.
fn block_place(size: usize, b: u32) -> u64
    requires { IsBlockSize size }
    ensures place { result ≡ block_place size b }
    ensures fits { result + size < 2 ^ 64 }
{
    0x3000 + u64::from(b) * size as u64
}

// The kept block, unless it is b.
pub(crate) fn kept_but(clean: Option<u32>, b: u32) -> Option<u32>
    ensures { kept_in result ≡ kept_but (kept_in clean) b }
{
    match clean {
        Some(kept) if kept != b => Some(kept),
        _ => None,
    }
}

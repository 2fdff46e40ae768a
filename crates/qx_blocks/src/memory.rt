//! Blocks in memory. One working tree holds all that are taken.
ghost use Rattle.std.specs.Prelude.{◌≡◌, ◌<◌, None, IfOk, IfSome, IfNone, not, position, refl, replicate};
ghost use Rattle.qx_blocks.specs.BlockState.{IsBlockSize};
ghost use Rattle.qx_blocks.specs.MemState.{edited_in, state_of};
ghost use Rattle.qx_blocks.specs.MemView.{IsFreeSlot};

use crate::{Blocks, Stop};
use std::alloc::{AllocError, Global};
use std::marker::Model;

/// Blocks in memory, for tests and for callers that need no device.
#[derive(Drop)]
pub struct MemBlocks {
    alloc: Global,
    size: usize,
    free: u64,
    slots: Vec<Slot>,
    // Where the search for a free slot begins: behind the last that was found, since those before it were mostly taken.
    hint: usize,
}

// A slot that isn't held has no bytes.
#[derive(Drop)]
struct Slot {
    held: bool,
    bytes: Vec<u8>,
}

impl Model for MemBlocks {
    ghost use Rattle.qx_blocks.specs.MemState.{MemState};

    ghost Value = { MemState };

    ghost use Rattle.qx_blocks.specs.MemView.{mem_state_in, IsCounted};

    ghost view = { mem_state_in };

    ghost invariant = { IsCounted };
}

// The first slot that isn't held.
fn first_free(slots: &[Slot]) -> Option<usize>
    ensures { result ≡ position (λ slot. not slot.held) slots.now }
{
    slots.iter().position(|slot| !slot.held)
}

// A slot that isn't held: the next from `hint` on, where there is one.
fn free_slot(slots: &[Slot], hint: usize) -> Option<usize>
    ensures free { IfSome result (λ b. IsFreeSlot slots.now b) }
    ensures none { IfNone result (position (λ slot. not slot.held) slots.now ≡ None) }
{
    let from = hint.min(slots.len());
    match first_free(&slots[from..]) {
        Some(b) => Some(from + b),
        None => first_free(slots),
    }
}

impl MemBlocks {
    /// As many blocks of this size as asked, all of them free.
    pub fn new(alloc: Global, size: usize, blocks: u32) -> Result<MemBlocks, AllocError>
        requires { IsBlockSize size }
        ensures { IfOk result (λ made. made ≡ record { size = size; blocks = replicate blocks None }) }
    {
        let mut slots = Vec::with_capacity(alloc, blocks as usize)?;
        for _ in 0..blocks {
            slots.push(Slot {
                held: false,
                bytes: Vec::new(alloc),
            })?;
        }
        Ok(MemBlocks {
            alloc,
            size,
            free: u64::from(blocks),
            slots,
            hint: 0,
        })
    }
}

impl Blocks for MemBlocks {
    ghost state = { state_of };

    ghost beside = { λ _. record { aside = tt; faults = 0 } };

    ghost edited = { edited_in };

    ghost use Rattle.qx_blocks.specs.SlotWrites.{state-edited};

    ghost edits = { state-edited };

    ghost edits_beside = { λ _ _ _. refl };

    fn size(&self) -> usize {
        self.size
    }

    fn read(&mut self, b: u32) -> Result<&[u8], Stop> {
        Ok(self.slots[b as usize].bytes.as_slice())
    }

    fn fresh(&mut self) -> Result<u32, Stop> {
        let Some(b) = free_slot(self.slots.as_slice(), self.hint) else {
            unreachable!()
        };
        let bytes = vec![in self.alloc; 0; self.size]?;
        self.slots[b] = Slot { held: true, bytes };
        self.free -= 1;
        self.hint = b + 1;
        Ok(b as u32)
    }

    // A block that is held is always ready.
    fn ready(&mut self, _b: u32) -> Result<(), Stop> {
        Ok(())
    }

    fn edit(&mut self, b: u32) -> &mut [u8] {
        let slot = &mut self.slots[b as usize];
        slot.bytes.as_mut_slice()
    }

    fn release(&mut self, b: u32) {
        let bytes = Vec::new(self.alloc);
        self.slots[b as usize] = Slot { held: false, bytes };
        self.free += 1;
    }

    fn is_private(&self, b: u32) -> bool {
        self.works(b)
    }

    fn free(&self) -> u64 {
        self.free
    }

    fn works(&self, b: u32) -> bool {
        match self.slots.get(b as usize) {
            Some(slot) => slot.held,
            None => false,
        }
    }
}

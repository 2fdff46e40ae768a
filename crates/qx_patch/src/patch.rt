//! Blocks by number, in ascending order, with buffers for more.
ghost use Rattle.std.specs.Prelude.{◌≡◌, ◌≢◌, ◌⊎◌, ◌+◌, [], ◌∷◌, ◌++◌, All, insert, remove, slice_index_or, vec_len, vec_capacity, ◌<◌, ◌≤◌, ◌^◌, ℕ, List, IfSome, IfNone, IsTrue, MatchOption, OnOk, OnErr, Some, length, max, slice_index};
ghost use Rattle.std.specs.VecDeque.{deque_len, deque_capacity};
ghost use Rattle.std.specs.Option.{option_copied};
ghost use Rattle.std.specs.FinMap.{contains_key, empty, get, len};
ghost use Rattle.std.specs.Borrow.{sem, Lends, Array, u8 as byte};
ghost use Rattle.qx_patch.specs.PatchState.{IsLeast, edited_in, with_block, without_block};
ghost use Rattle.qx_patch.specs.PatchView.{IsAscending, numbers_of, pairs_of};
ghost use Rattle.qx_patch.specs.contracts.patch.Patch.{the_row};

use std::alloc::{AllocError, Global};
use std::collections::VecDeque;
use std::marker::Model;

/// A map from block numbers to the bytes of blocks.
#[derive(Drop)]
pub struct Patch {
    alloc: Global,
    size: usize,
    // Ascending by block, with room for all spares. A queue, since the least one goes first when changes are written.
    entries: VecDeque<Entry>,
    // Buffers of a block each, with room for those of all entries.
    spares: Vec<Vec<u8>>,
}

#[derive(Drop)]
struct Entry {
    block: u32,
    bytes: Vec<u8>,
}

impl Model for Patch {
    ghost use Rattle.qx_patch.specs.PatchState.{PatchState, patch_code};

    ghost Value = { PatchState };

    ghost coded = { patch_code };

    ghost use Rattle.qx_patch.specs.PatchView.{patch_in, IsInOrder};

    ghost view = { patch_in };

    ghost invariant = { IsInOrder };
}

impl Patch {
    /// No blocks of this size, and no room for any.
    pub fn new(alloc: Global, size: usize) -> Patch
        ensures { result ≡ record { size = size; spare = 0; blocks = empty } }
    {
        Patch {
            alloc,
            size,
            entries: VecDeque::new(alloc),
            spares: Vec::new(alloc),
        }
    }

    /// How many blocks are there.
    pub fn len(&self) -> usize
        ensures { result ≡ len self.now.blocks }
    {
        self.entries.len()
    }

    /// How many more blocks have room.
    pub fn spare(&self) -> usize
        ensures { result ≡ self.now.spare }
    {
        self.spares.len()
    }

    /// The bytes of a block, where it is there.
    pub fn get(&self, b: u32) -> Option<&[u8]>
        ensures { option_copied result ≡ get self.now.blocks b }
    {
        let at = place_of(&self.entries, b)?;
        let entry = &self.entries[at];
        Some(entry.bytes.as_slice())
    }

    /// Makes room for at least n more blocks, or for no more than there was where memory runs out.
    pub fn reserve(&mut self, n: usize) -> Result<(), AllocError>
        ensures ok { OnOk result (self.new.spare ≡ max self.old.spare n) }
        ensures err { OnErr result (self.new ≡ self.old) }
        ensures size { self.new.size ≡ self.old.size }
        ensures blocks { self.new.blocks ≡ self.old.blocks }
    {
        let spare = self.spares.len();
        let more = n.saturating_sub(spare);
        self.entries.reserve(spare.saturating_add(more))?;
        self.spares
            .reserve(self.entries.len().saturating_add(more))?;
        let added = add_buffers(self.alloc, &mut self.spares, self.size, more);
        if added.is_err() {
            self.spares.truncate(spare);
        }
        added
    }

    /// Gives a block these bytes, in its own room or in one that is spare.
    pub fn put(&mut self, b: u32, bytes: &[u8])
        requires long { length bytes.now ≡ self.old.size }
        requires room { IsTrue (contains_key self.old.blocks b) ⊎ (0 < self.old.spare) }
        ensures { self.new ≡ with_block self.old b bytes.now }
    {
        match place_of(&self.entries, b) {
            Some(at) => {
                let entry = &mut self.entries[at];
                entry.bytes.copy_from_slice(bytes);
            }
            None => {
                let at = first_from(&self.entries, b);
                insert_entry(&mut self.entries, &mut self.spares, at, b, bytes);
            }
        }
    }

    /// Takes a block out, where it is there. Its room is spare then.
    pub fn take_out(&mut self, b: u32)
        ensures { self.new ≡ without_block self.old b }
    {
        if let Some(at) = place_of(&self.entries, b) {
            remove_entry(&mut self.entries, &mut self.spares, at);
        }
    }

    /// The least block that is there.
    pub fn least(&self) -> Option<u32>
        ensures { MatchOption result (self.now.blocks ≡ empty) (λ b. IsLeast self.now.blocks b) }
    {
        match self.entries.front() {
            Some(first) => Some(first.block),
            None => None,
        }
    }

    /// Whether the block is there.
    pub fn has(&self, b: u32) -> bool
        ensures { result ≡ contains_key self.now.blocks b }
    {
        place_of(&self.entries, b).is_some()
    }

    /// Lends the bytes of a block that is there for writing.
    pub fn bytes_mut(&mut self, b: u32) -> &mut [u8]
        requires { IsTrue (contains_key self.old.blocks b) }
        ensures bytes { get self.old.blocks b ≡ Some result.now }
        ensures* edited { sem 𝓛 (Lends the_row (Array byte 0) self.entry result (edited_in self.old b)) }
    {
        let Some(at) = place_of(&self.entries, b) else {
            unreachable!()
        };
        let entry = &mut self.entries[at];
        entry.bytes.as_mut_slice()
    }
}

// Adds so many buffers of this size.
fn add_buffers(
    alloc: Global,
    spares: &mut Vec<Vec<u8>>,
    size: usize,
    more: usize,
) -> Result<(), AllocError>
    requires { All (λ spare. length spare.items ≡ size) spares.old.items }
    ensures ok { OnOk result (vec_len spares.new ≡ vec_len spares.old + more) }
    ensures most { vec_len spares.new ≤ vec_len spares.old + more }
    ensures least { vec_len spares.old ≤ vec_len spares.new }
    ensures long { All (λ spare. length spare.items ≡ size) spares.new.items }
    ensures room { vec_capacity spares.old ≤ vec_capacity spares.new }
{
    for _ in 0..more {
        let buffer = vec![in alloc; 0; size]?;
        spares.push(buffer)?;
    }
    Ok(())
}

// Puts an entry at a place, with these bytes in the last buffer.
fn insert_entry(
    entries: &mut VecDeque<Entry>,
    spares: &mut Vec<Vec<u8>>,
    at: usize,
    b: u32,
    bytes: &[u8],
)
    requires within { at ≤ deque_len entries.old }
    requires buffer { 0 < vec_len spares.old }
    requires long { All (λ spare. length spare.items ≡ length bytes.now) spares.old.items }
    requires room { deque_len entries.old < deque_capacity entries.old }
    ensures pairs { pairs_of entries.new.items ≡ insert (pairs_of entries.old.items) at (b, bytes.now) }
    ensures count { vec_len spares.new + 1 ≡ vec_len spares.old }
    ensures others { All (λ spare. length spare.items ≡ length bytes.now) spares.new.items }
    ensures capacity { (deque_capacity entries.old ≤ deque_capacity entries.new)
        × (vec_capacity spares.new ≡ vec_capacity spares.old) }
{
    let Some(mut buffer) = spares.pop() else {
        unreachable!()
    };
    buffer.copy_from_slice(bytes);
    let entry = Entry {
        block: b,
        bytes: buffer,
    };
    if entries.insert(at, entry).is_err() {
        unreachable!()
    }
}

// Takes the entry at a place out, and keeps its buffer.
fn remove_entry(entries: &mut VecDeque<Entry>, spares: &mut Vec<Vec<u8>>, at: usize)
    requires within { at < deque_len entries.old }
    requires room { vec_len spares.old < vec_capacity spares.old }
    ensures pairs { pairs_of entries.new.items ≡ remove (pairs_of entries.old.items) at }
    ensures kept { (entry : _) → entry ≡ slice_index_or entries.old.items at entry
        → spares.new.items ≡ spares.old.items ++ entry.bytes ∷ [] }
    ensures capacity { (deque_capacity entries.new ≡ deque_capacity entries.old)
        × (vec_capacity spares.old ≤ vec_capacity spares.new) }
{
    let Some(Entry { block: _, bytes }) = entries.remove(at) else {
        unreachable!()
    };
    if spares.push(bytes).is_err() {
        unreachable!()
    }
}

// The first place whose number isn't below b.
fn first_from(entries: &VecDeque<Entry>, b: u32) -> usize
    requires { IsAscending (numbers_of entries.now.items) }
    ensures within { result ≤ length entries.now.items }
    ensures below { (k : ℕ) → k < result → slice_index (numbers_of entries.now.items) k < b }
    ensures above { (k : ℕ) → result ≤ k → k < length entries.now.items
        → b ≤ slice_index (numbers_of entries.now.items) k }
{
    entries.partition_point(|entry| entry.block < b)
}

// The place of block b, where it is there.
fn place_of(entries: &VecDeque<Entry>, b: u32) -> Option<usize>
    requires { IsAscending (numbers_of entries.now.items) }
    ensures there { IfSome result (λ at. (at < length entries.now.items)
        × (slice_index (numbers_of entries.now.items) at ≡ b)) }
    ensures absent { IfNone result ((k : ℕ) → k < length entries.now.items
        → slice_index (numbers_of entries.now.items) k ≢ b) }
{
    let at = first_from(entries, b);
    match entries.get(at) {
        Some(entry) if entry.block == b => Some(at),
        _ => None,
    }
}

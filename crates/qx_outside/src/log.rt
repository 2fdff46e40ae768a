//! What happened, kept in memory.
ghost use Rattle.std.specs.Prelude.{◌≡◌, ◌∷◌, ◌++◌, [], OnOk, OnErr, reverse, length, slice_range, take, ◌+◌, ◌≤◌, ◌<◌, IfOk};
ghost use Rattle.qx_bytes.specs.Ranges.{put_at};

use crate::{Attachment, ByteList, Event};
use std::alloc::{AllocError, Global};

/// A copy of the bytes.
pub fn copy_of(alloc: Global, bytes: &[u8]) -> Result<ByteList, AllocError>
    ensures { IfOk result (λ b. b ≡ bytes.now) }
{
    let mut copy = ByteList::new(alloc);
    copy.add(bytes)?;
    Ok(copy)
}

#[derive(Drop)]
pub struct Log {
    pub trail: Vec<Event>,
    pub asked: Vec<ByteList>,
}

impl Log {
    pub fn new(alloc: Global) -> Log
        ensures trail { result.trail.items ≡ [] }
        ensures asked { result.asked.items ≡ [] }
    {
        Log {
            trail: Vec::new(alloc),
            asked: Vec::new(alloc),
        }
    }

    pub fn add(&mut self, event: Event) -> Result<(), AllocError>
        ensures ok { OnOk result (reverse self.new.trail.items ≡ event ∷ reverse self.old.trail.items) }
        ensures err { OnErr result (self.new.trail.items ≡ self.old.trail.items) }
        ensures asked { self.new.asked.items ≡ self.old.asked.items }
    {
        self.trail.push(event)?;
        Ok(())
    }

    /// Writes, and keeps what was asked and what is left.
    pub fn write(
        &mut self,
        bytes: &mut Vec<u8>,
        at: usize,
        left: ByteList,
        ok: bool,
        asked: ByteList,
    ) -> Result<(), AllocError>
        requires { at + length left ≤ length bytes.old.items }
        ensures ok { OnOk result (reverse self.new.trail.items
            ≡ Event.Wrote at left ok ∷ reverse self.old.trail.items) }
        ensures err { OnErr result (self.new.trail.items ≡ self.old.trail.items) }
        ensures asked { OnOk result (reverse self.new.asked.items ≡ asked ∷ reverse self.old.asked.items) }
        ensures asked_err { OnErr result (self.new.asked.items ≡ self.old.asked.items) }
        ensures bytes { OnOk result (bytes.new.items ≡ put_at bytes.old.items at left) }
        ensures bytes_err { OnErr result (bytes.new.items ≡ bytes.old.items) }
    {
        self.asked.reserve_exact(1)?;
        self.trail.reserve_exact(1)?;
        put_into(bytes, at, left.bytes());
        self.trail.push(Event::Wrote {
            at: at as u64,
            left,
            ok,
        })?;
        self.asked.push(asked)?;
        Ok(())
    }
}

/// What was asked to be attached, the oldest first.
#[derive(Drop)]
pub struct Paths {
    pub items: Vec<Attachment>,
}

impl Paths {
    pub fn new(alloc: Global) -> Paths
        ensures { result.items.items ≡ [] }
    {
        Paths {
            items: Vec::new(alloc),
        }
    }

    /// Adds one at the end.
    pub fn add(&mut self, alloc: Global, path: &[u8], create: bool) -> Result<(), AllocError>
        ensures { OnOk result (reverse self.new.items.items
            ≡ record { path = path.now; create = create } ∷ reverse self.old.items.items) }
    {
        let path = copy_of(alloc, path)?;
        self.items.push(Attachment { path, create })?;
        Ok(())
    }
}

/// Reads the bytes at a place.
pub fn read_from(bytes: &[u8], at: usize, into: &mut [u8])
    requires { at + length into.old ≤ length bytes.now }
    ensures { into.new ≡ slice_range bytes.now at (at + length into.old) }
{
    let count = into.len();
    into.copy_from_slice(&bytes[at..at + count]);
}

/// Puts bytes at a place.
pub fn put_into(bytes: &mut [u8], at: usize, others: &[u8])
    requires { at + length others.now ≤ length bytes.old }
    ensures { bytes.new ≡ put_at bytes.old at others.now }
{
    let count = others.len();
    bytes[at..at + count].copy_from_slice(others);
}

/// The first bytes of one text and the others of another of the same length.
pub fn joined(
    alloc: Global,
    first: &[u8],
    second: &[u8],
    split: usize,
) -> Result<ByteList, AllocError>
    requires split { split ≤ length first.now }
    requires enough { length first.now ≤ length second.now }
    ensures bytes { IfOk result (λ b. b ≡ take split first.now
        ++ slice_range second.now split (length first.now)) }
    ensures length { IfOk result (λ b. length b ≡ length first.now) }
    ensures whole { IfOk result (λ b. split ≡ length first.now → b ≡ first.now) }
{
    let mut copy = copy_of(alloc, &first[..split])?;
    copy.add(&second[split..first.len()])?;
    Ok(copy)
}

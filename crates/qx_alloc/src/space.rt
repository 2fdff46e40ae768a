//! The blocks of three trees, and a free block for the asking.
ghost use Rattle.std.specs.Prelude.{◌≡◌, ◌<◌, ◌≤◌, ◌+◌, true, false, if◌then◌else◌, IfOk, IfSome, IfNone, slice_index};
ghost use Rattle.qx_blockset.specs.Members.{has, HasAll, limit_of};
ghost use Rattle.qx_alloc.specs.SpaceState.{free_in, is_private_in, space_with, users_in, with_frozen, with_taken, with_thawed, without, IsConsistent, IsFree};

use qx_blockset::BlockSet;
use std::alloc::{AllocError, Global};
use std::marker::Model;

/// Which blocks the working, the frozen and the durable tree hold.
#[derive(Drop)]
pub struct Space {
    first_user: u32,
    is_frozen: bool,
    working: BlockSet,
    // Means nothing where there is no frozen tree.
    frozen: BlockSet,
    durable: BlockSet,
    // The blocks that some tree holds.
    taken: BlockSet,
    // Where the search for a free block begins: behind the last that was found, since those before it were mostly taken.
    hint: u32,
}

impl Model for Space {
    ghost use Rattle.qx_alloc.specs.SpaceState.{SpaceState};

    ghost Value = { SpaceState };

    ghost use Rattle.qx_alloc.specs.SpaceView.{space_in, IsInOrder};

    ghost view = { space_in };

    ghost invariant = { IsInOrder };
}

impl Space {
    /// The working and the durable tree hold the user blocks of a set, those from `first_user` on. Nothing is frozen.
    pub fn new(alloc: Global, first_user: u32, held: &BlockSet) -> Result<Space, AllocError>
        ensures space { IfOk result (λ space. space ≡ space_with first_user held.now) }
        ensures consistent { IfOk result (λ space. IsConsistent space) }
    {
        let mut working = BlockSet::new(alloc, held.limit())?;
        working.copy_from(held);
        remove_below(&mut working, first_user);
        let mut durable = BlockSet::new(alloc, held.limit())?;
        durable.copy_from(&working);
        let mut taken = BlockSet::new(alloc, held.limit())?;
        taken.copy_from(&working);
        let frozen = BlockSet::new(alloc, held.limit())?;
        Ok(Space {
            first_user,
            is_frozen: false,
            working,
            frozen,
            durable,
            taken,
            hint: first_user,
        })
    }

    /// Takes a user block that no tree holds for the working tree.
    pub fn take(&mut self) -> u32
        requires { 0 < free_in self.old }
        ensures unheld { IsFree self.old result }
        ensures taken { self.new ≡ with_taken self.old result }
        ensures free { free_in self.new + 1 ≡ free_in self.old }
        ensures consistent { IsConsistent self.new }
    {
        let Some(b) = absent_number(&self.taken, self.first_user, self.hint) else {
            unreachable!()
        };
        self.taken.insert(b);
        self.working.insert(b);
        self.hint = b + 1;
        b
    }

    /// Gives up the working tree's hold of a block, where it has one.
    pub fn give_back(&mut self, b: u32)
        ensures given { self.new ≡ without self.old b }
        ensures free { free_in self.new
            ≡ (if is_private_in self.old b then free_in self.old + 1 else free_in self.old) }
        ensures consistent { IsConsistent self.new }
    {
        if self.is_private(b) {
            self.taken.remove(b);
            self.working.remove(b);
        } else if self.works(b) {
            self.working.remove(b);
        }
    }

    /// Freezes the working tree as it is.
    pub fn freeze(&mut self)
        requires { self.old.is_frozen ≡ false }
        ensures frozen { self.new ≡ with_frozen self.old }
        ensures free { free_in self.new ≡ free_in self.old }
        ensures consistent { IsConsistent self.new }
    {
        self.frozen.copy_from(&self.working);
        self.is_frozen = true;
    }

    /// The frozen tree becomes the durable one. Blocks that only the old durable tree held are free from now on.
    pub fn thaw_into_durable(&mut self)
        requires { self.old.is_frozen ≡ true }
        ensures thawed { self.new ≡ with_thawed self.old }
        ensures consistent { IsConsistent self.new }
    {
        self.durable.copy_from(&self.frozen);
        self.is_frozen = false;
        self.taken.copy_from(&self.durable);
        self.taken.add_all(&self.working);
    }

    /// How many user blocks no tree holds.
    pub fn free(&self) -> u64
        ensures free { result ≡ free_in self.now }
        ensures consistent { IsConsistent self.now }
    {
        let users = self.taken.limit().saturating_sub(self.first_user);
        u64::from(users - self.taken.count())
    }

    /// Whether the working tree holds the block.
    pub fn works(&self, b: u32) -> bool
        ensures works { result ≡ has self.now.working b }
        ensures consistent { IsConsistent self.now }
    {
        b < self.working.limit() && self.working.has(b)
    }

    /// Whether the working tree alone holds the block.
    pub fn is_private(&self, b: u32) -> bool
        ensures private { result ≡ is_private_in self.now b }
        ensures consistent { IsConsistent self.now }
    {
        self.works(b) && !self.durable.has(b) && !self.frozen_bit(b)
    }

    /// Whether the frozen tree holds the block.
    pub fn frozen_bit(&self, b: u32) -> bool
        ensures frozen { result ≡ has self.now.frozen b }
        ensures consistent { IsConsistent self.now }
    {
        self.is_frozen && b < self.frozen.limit() && self.frozen.has(b)
    }
}

// Takes the numbers below `end` out of the set.
fn remove_below(set: &mut BlockSet, end: u32)
    ensures { set.new ≡ users_in end set.old }
{
    for b in 0..end.min(set.limit()) {
        set.remove(b);
    }
}

// A number from `from` on that is not in the set: the next from `hint` on, where there is one.
fn absent_number(set: &BlockSet, from: u32, hint: u32) -> Option<u32>
    requires { from ≤ hint }
    ensures absent { IfSome result (λ b. (from ≤ b) × (b < limit_of set.now) × (has set.now b ≡ false)) }
    ensures none { IfNone result (HasAll set.now from (limit_of set.now)) }
{
    match set.first_absent(hint) {
        Some(b) => Some(b),
        None => set.first_absent(from),
    }
}

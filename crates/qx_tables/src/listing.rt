//! The inodes that were listed, and those that are still to be taken.

use qx_blockset::BlockSet;
use qx_pointers::Halt;
use std::alloc::Global;

/// An inode that is listed, and the directory whose row listed it.
#[derive(Clone, Copy, Debug, PartialEq, Eq)]
pub struct Queued {
    pub inode: u32,
    pub parent: u32,
}

/// The list of the inodes that the walk comes to, in its order.
#[derive(Drop)]
pub struct Listing {
    /// The inodes that were listed: inode n has bit n - 1.
    pub listed: BlockSet,
    /// The same in the order in which they were listed.
    pub queue: Vec<Queued>,
    /// How many were taken.
    pub next: usize,
}

impl Listing {
    ghost use Rattle.std.specs.Prelude.{◌≡◌, ◌+◌, ◌-◌, ◌∷◌, ◌++◌, [], ◌<◌, ◌≤◌, ℕ, List, false, length, map, ◌⊎◌, IfOk, IfSome, IfNone, OnOk, OnErr, Err};
    ghost use Rattle.qx_blockset.specs.Members.{count_of, has, limit_of};
    ghost use Rattle.qx_geom.specs.Lists.{is_in};
    ghost use Rattle.qx_view.specs.Walk.{listed_after, new_ones};
    ghost use Rattle.qx_pointers.specs.declared.halt.Halt.TheVariants as halts;
    ghost use Rattle.qx_tables.specs.Tables.{HasListed, IsListing, pair_of, taken_in};

    /// A list of inode 1 alone, which is its own parent, among so many inodes.
    pub fn new(alloc: Global, places: u32) -> Result<Listing, Halt>
        requires { 0 < places }
        ensures listed { IfOk result (HasListed ((1, 1) ∷ []) (1 ∷ [])) }
        ensures listing { IfOk result (IsListing places) }
        ensures next { IfOk result (λ l. l.next ≡ 0) }
        ensures queue { IfOk result (λ l. l.queue.items ≡ (record { inode = 1; parent = 1 }) ∷ []) }
        ensures no_fault { OnErr result (result ≡ Err halts.NoMemory) }
    {
        let mut listing = Listing {
            listed: BlockSet::new(alloc, places)?,
            queue: Vec::new(alloc),
            next: 0,
        };
        listing.put(1, 1)?;
        Ok(listing)
    }

    /// Takes the next inode from the list.
    pub fn take(&mut self) -> Option<Queued>
        ensures some { (queue : List (ℕ × ℕ)) (listed : List ℕ) → HasListed queue listed self.old
            → IfSome result (λ q. (rest : List (ℕ × ℕ)) × (queue ≡ pair_of q ∷ rest) × HasListed rest listed self.new) }
        ensures none { (queue : List (ℕ × ℕ)) (listed : List ℕ) → HasListed queue listed self.old
            → IfNone result (queue ≡ []) }
        ensures listing { (places : ℕ) → IsListing places self.old → IsListing places self.new }
        ensures inode { (places : ℕ) → IsListing places self.old
            → IfSome result (λ q. (0 < q.inode) × (q.inode ≤ places)) }
        ensures next { IfSome result (λ q. self.new.next ≡ self.old.next + 1) }
        ensures last { IfNone result (self.new.next ≡ self.old.next) }
        ensures taken { IfSome result (λ q. taken_in self.new ≡ taken_in self.old ++ q ∷ []) }
        ensures all { IfNone result (taken_in self.new ≡ self.new.queue.items) }

        // All that were listed stay so.
        ensures queue { self.new.queue.items ≡ self.old.queue.items }
        ensures members { self.new.listed ≡ self.old.listed }
    {
        let queued = *self.queue.get(self.next)?;
        self.next += 1;
        Some(queued)
    }

    /// Whether an inode was listed.
    pub fn has(&self, n: u32) -> bool
        requires positive { 0 < n }
        requires there { n ≤ limit_of self.now.listed }
        ensures { (queue : List (ℕ × ℕ)) (listed : List ℕ) → HasListed queue listed self.now
            → result ≡ is_in listed n }
    {
        self.listed.has(n - 1)
    }

    /// Puts an inode at the list's end, unless it was listed.
    pub fn put(&mut self, n: u32, parent: u32) -> Result<(), Halt>
        requires positive { 0 < n }
        requires there { n ≤ limit_of self.old.listed }
        ensures listed { (queue : List (ℕ × ℕ)) (listed : List ℕ) → HasListed queue listed self.old
            → OnOk result (HasListed (queue ++ map (λ k. (k, parent)) (new_ones (n ∷ []) listed)) (listed_after (n ∷ []) listed) self.new) }
        ensures listing { (places : ℕ) → IsListing places self.old → IsListing places self.new }
        ensures next { self.new.next ≡ self.old.next }
        ensures taken { (places : ℕ) → IsListing places self.old → taken_in self.new ≡ taken_in self.old }
        ensures queue { (self.new.queue.items ≡ self.old.queue.items)
            ⊎ (self.new.queue.items ≡ self.old.queue.items ++ (record { inode = n; parent = parent }) ∷ []) }
        ensures longer { OnOk result (has self.old.listed (n - 1) ≡ false
            → length self.new.queue.items ≡ length self.old.queue.items + 1) }
        ensures no_fault { OnErr result (result ≡ Err halts.NoMemory) }
    {
        if self.listed.has(n - 1) {
            return Ok(());
        }
        match self.queue.push(Queued { inode: n, parent }) {
            Ok(()) => {}
            Err(_) => return Err(Halt::NoMemory),
        }
        self.listed.insert(n - 1);
        Ok(())
    }

    /// How many inodes were listed.
    pub fn count(&self) -> u32
        ensures members { result ≡ count_of self.now.listed }
        ensures queued { (places : ℕ) → IsListing places self.now → result ≡ length self.now.queue.items }
    {
        self.listed.count()
    }

    /// The inodes that were listed: inode n has bit n - 1.
    pub fn into_listed(self) -> BlockSet
        ensures { result ≡ self.listed }
    {
        self.listed
    }
}

#[cfg(test)]
mod tests {
    use super::*;
    use std::test::Fail;

    #[test]
    fn inodes_are_taken_in_the_order_in_which_they_were_listed(
        rt: HostRuntime,
    ) -> Result<(), Fail> {
        let Ok(mut listing) = Listing::new(rt.alloc(), 9) else {
            return Err(Fail::new("no memory"));
        };
        assert_eq!(rt; listing.put(9, 1), Ok(()));
        assert_eq!(rt; listing.put(3, 1), Ok(()));
        assert_eq!(rt; listing.put(9, 3), Ok(()));
        assert_eq!(rt; listing.put(1, 9), Ok(()));
        assert_eq!(rt; listing.put(2, 9), Ok(()));
        assert_eq!(rt; listing.count(), 4);
        assert!(rt; listing.has(3));
        assert!(rt; !listing.has(4));
        for (inode, parent) in [(1, 1), (9, 1), (3, 1), (2, 9)] {
            assert_eq!(rt; listing.take(), Some(Queued { inode, parent }));
        }
        assert_eq!(rt; listing.take(), None);
        Ok(())
    }
}

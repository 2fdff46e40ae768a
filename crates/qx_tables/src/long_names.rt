//! The leaves of the Longfile, and how often each was named.

use qx_geom::Root;
use qx_outside::Dev;
use qx_pointers::{Halt, LeafPlace, Shape, read_block};
use qx_records::LongView;
use std::alloc::Global;

/// The present leaves of the Longfile, in order of their numbers.
#[derive(Drop)]
pub struct LongNames {
    // The size of the Longfile, in bytes.
    size: u64,
    leaves: Vec<LongLeaf>,
}

#[derive(Clone, Copy)]
struct LongLeaf {
    place: LeafPlace,
    // How many records named it: 0, 1, or 2 for more than one.
    named: u8,
}

impl LongNames {
    ghost use Rattle.std.specs.Prelude.{◌≡◌, ◌∷◌, [], ◌≤◌, ◌<◌, ℕ, List, All, Contains, IfOk, IfSome, IfNone, OnErr, Err, length};
    ghost use Rattle.std.specs.Option.{option_copied};
    ghost use Rattle.qx_geom.specs.Lists.{IsAscending};
    ghost use Rattle.qx_geom.specs.declared.root.Root.{Root as node};
    ghost use Rattle.qx_nodes.specs.BlockMap.{BlockMap};
    ghost use Rattle.qx_nodes.specs.LongNames.{long_name};
    ghost use Rattle.qx_pointers.specs.declared.halt.Halt.TheVariants as halts;
    ghost use Rattle.qx_pointers.specs.Halts.{Asks};
    ghost use Rattle.qx_pointers.specs.Parts.{IsPlaced};
    ghost use Rattle.qx_pointers.specs.Shown.{Fits, Shows};
    ghost use Rattle.qx_tables.specs.Tables.{AreInside, AreLeaves, HoldsNames, IsPlaceOf, bad_number, numbers_in};

    /// The leaves of a Longfile, none of them named yet.
    pub fn new(
        alloc: Global,
        shape: Shape,
        longfile: &Root,
        leaves: &[LeafPlace],
    ) -> Result<LongNames, Halt>
        requires placed { All (IsPlaced shape longfile.now) leaves.now }
        ensures holds { (m : BlockMap) → AreLeaves m longfile.now leaves.now
            → IfOk result (HoldsNames m longfile.now []) }
        ensures inside { IfOk result (AreInside shape.count) }
        ensures no_fault { OnErr result (result ≡ Err halts.NoMemory) }
    {
        let mut kept = Vec::with_capacity(alloc, leaves.len())?;
        for place in leaves {
            let leaf = LongLeaf {
                place: *place,
                named: 0,
            };
            if kept.push(leaf).is_err() {
                return Err(Halt::NoMemory);
            }
        }
        Ok(LongNames {
            size: longfile.size,
            leaves: kept,
        })
    }

    /// Reads the long name of a number into the buffer, and lends it; none where its leaf isn't present or is none.
    pub fn read<'a, D: Dev>(
        &self,
        host: &mut D,
        shape: Shape,
        number: u32,
        buffer: &'a mut [u8],
    ) -> Result<Option<&'a [u8]>, Halt>
        requires inside { AreInside shape.count self.now }
        requires long { length buffer.old ≡ shape.blocksize }
        requires fits { Fits shape (D.outside host.old) }
        ensures name { (m : BlockMap) (longfile : node) (numbers : List ℕ)
            → Shows shape (D.outside host.new) m → HoldsNames m longfile numbers self.now
            → IfOk result (λ name. option_copied name ≡ long_name m longfile number) }
        ensures asks { Asks 1 (D.outside host.old) (D.outside host.new) result }
    {
        let Some(place) = self.place(number) else {
            return Ok(None);
        };
        read_block(host, shape, self.leaves[place].place.block, buffer)?;
        Ok(LongView::read(buffer, shape.order))
    }

    /// Counts that a record named this number.
    pub fn count(&mut self, number: u32)
        ensures counted { (m : BlockMap) (longfile : node) (numbers : List ℕ)
            → HoldsNames m longfile numbers self.old → HoldsNames m longfile (number ∷ numbers) self.new }
        ensures inside { (count : ℕ) → AreInside count self.old → AreInside count self.new }
    {
        if let Some(place) = self.place(number) {
            let leaf = &mut self.leaves[place];
            leaf.named = leaf.named.saturating_add(1).min(2);
        }
    }

    /// The least present leaf that wasn't named exactly once, or 0 where the size is no multiple of the block size.
    pub fn bad(&self, shape: Shape) -> Option<u64>
        ensures { (m : BlockMap) (longfile : node) (numbers : List ℕ) → m.size ≡ shape.blocksize
            → HoldsNames m longfile numbers self.now → result ≡ bad_number m longfile numbers }
    {
        if self.size % u64::from(shape.blocksize) != 0 {
            return Some(0);
        }
        for leaf in &self.leaves {
            if leaf.named != 1 {
                return Some(leaf.place.index);
            }
        }
        None
    }

    // Where the leaf of this number stands among those that are present.
    fn place(&self, number: u32) -> Option<usize>
        ensures inside { IfSome result (λ k. k < length self.now.leaves.items) }
        ensures found { IfSome result (IsPlaceOf self.now number) }
        ensures none { IsAscending (numbers_in self.now)
            → IfNone result (¬ (Contains (numbers_in self.now) number)) }
    {
        self.leaves
            .binary_search_by_key(&u64::from(number), |leaf| leaf.place.index)
            .ok()
    }
}

#[cfg(test)]
mod tests;

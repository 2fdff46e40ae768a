//! The inodes of a volume, read once.
ghost use Rattle.std.specs.Prelude.{◌≤◌, length};

use crate::runs::run_length;
use qx_fields::Order;
use qx_geom::Root;
use qx_outside::{Dev, Failed};
use qx_pointers::{Halt, LeafPlace, Shape, read_blocks};
use qx_records::{Inode, InodeView};
use std::alloc::Global;

/// How many bytes one call of the device reads at most.
const MOST_AT_ONCE: usize = 65536;

/// The inodes of a volume: all leaves of its Inode tree, those that aren't present as bytes 0.
#[derive(Drop)]
pub struct InodeTable {
    order: Order,
    // The size of the Inode tree, in bytes.
    size: u64,
    bytes: Vec<u8>,
    ghost covered: { size ≤ length bytes.items },
}

impl InodeTable {
    ghost use Rattle.std.specs.Prelude.{◌≡◌, ◌<◌, ◌≤◌, ◌+◌, ◌*◌, ◌-◌, ℕ, All, IfErr, IfOk, OnOk, Option, drop, slice_range};
    ghost use Rattle.qx_geom.specs.declared.root.Root.{Root as node};
    ghost use Rattle.qx_nodes.specs.BlockMap.{BlockMap};
    ghost use Rattle.qx_view.specs.Images.{inode_bytes, inode_of, places_in};
    ghost use Rattle.qx_view.specs.Sound.{are_zero, has_tail};
    ghost use Rattle.qx_view.specs.declared.findings.Finding.{Finding};
    ghost use Rattle.qx_pointers.specs.declared.halt.Halt.TheVariants as halts;
    ghost use Rattle.qx_pointers.specs.Halts.{HaltsAt};
    ghost use Rattle.qx_pointers.specs.Parts.{IsPlaced};
    ghost use Rattle.qx_pointers.specs.Shown.{Fits, Looks, ReadsOnce, Shows};
    ghost use Rattle.qx_tables.specs.Tables.{AreLeaves, HoldsInodes, IsApart, inode_at, leaf_range, places_of};

    /// Reads the leaves of the Inode tree.
    pub fn read<D: Dev>(
        alloc: Global,
        host: &mut D,
        shape: Shape,
        inodes: &Root,
        leaves: &[LeafPlace],
    ) -> Result<InodeTable, Halt>
        requires placed { All (IsPlaced shape inodes.now) leaves.now }
        requires bounded { inodes.now.size ≤ shape.count * shape.blocksize }
        requires fits { Fits shape (D.outside host.old) }
        ensures holds { (m : BlockMap) → Shows shape (D.outside host.new) m
            → AreLeaves m inodes.now leaves.now → IfOk result (HoldsInodes m inodes.now) }
        ensures places { IfOk result (λ table. places_of table ≡ places_in inodes.now) }
        ensures covers { IfOk result (λ table. places_of table * 128 ≤ length table.bytes.items) }
        ensures looks { Looks halts.Device 0 (length leaves.now) (D.outside host.old) (D.outside host.new) result }

        // An Err is no finding.
        ensures halts { (f : Option Finding) → IfErr result (HaltsAt f) }
    {
        let blocksize = u64::from(shape.blocksize);
        let count = inodes.size.div_ceil(blocksize);
        let most = MOST_AT_ONCE / shape.blocksize as usize;
        let mut bytes = vec![in alloc; 0; (count * blocksize) as usize]?;
        let mut at = 0;
        while at < leaves.len() {
            let run = run_length(leaves, at, most);
            InodeTable::read_run(host, shape, leaves[at], run, &mut bytes)?;
            at += run;
        }
        Ok(InodeTable {
            order: shape.order,
            size: inodes.size,
            bytes,
        })
    }

    /// How many inodes have a place: inode n is one of them where n is at most this number.
    pub fn places(&self) -> u32
        ensures { result ≡ places_of self.now }
    {
        (self.size / 128).min(u64::from(u32::MAX)) as u32
    }

    /// Inode n.
    pub fn inode(&self, n: u32) -> Inode
        requires { (0 < n) × (n ≤ places_of self.now) }
        ensures own { result ≡ inode_at self.now n }
        ensures shown { (m : BlockMap) (inodes : node) → HoldsInodes m inodes self.now
            → result ≡ inode_of m inodes n }
    {
        InodeView::new(self.bytes_of(n), self.order).get()
    }

    /// Whether all bytes of inode n are 0.
    pub fn is_zero(&self, n: u32) -> bool
        requires { (0 < n) × (n ≤ places_of self.now) }
        ensures { (m : BlockMap) (inodes : node) → HoldsInodes m inodes self.now
            → result ≡ are_zero (inode_bytes m inodes n) }
    {
        self.bytes_of(n).iter().all(|byte| *byte == 0)
    }

    /// Whether the bytes of inode n that the format doesn't name are 0.
    pub fn is_plain(&self, n: u32) -> bool
        requires { (0 < n) × (n ≤ places_of self.now) }
        ensures { (m : BlockMap) (inodes : node) → HoldsInodes m inodes self.now
            → result ≡ are_zero (drop 102 (inode_bytes m inodes n)) }
    {
        self.bytes_of(n)[102..].iter().all(|byte| *byte == 0)
    }

    /// Whether a byte past the Inode tree's size, in its last leaf, isn't 0.
    pub fn has_tail(&self) -> bool
        ensures { (m : BlockMap) (inodes : node) → HoldsInodes m inodes self.now
            → result ≡ has_tail m inodes }
    {
        self.bytes[self.size as usize..]
            .iter()
            .any(|byte| *byte != 0)
    }

    // The 128 bytes of inode n.
    fn bytes_of(&self, n: u32) -> &[u8]
        requires { (0 < n) × (n ≤ places_of self.now) }
        ensures bytes { result.now ≡ slice_range self.now.bytes.items ((n - 1) * 128) ((n - 1) * 128 + 128) }
        ensures long { length result.now ≡ 128 }
    {
        let at = (n as usize - 1) * 128;
        &self.bytes[at..at + 128]
    }

    // Reads so many leaves that stand side by side to their places among the bytes of all leaves.
    fn read_run<D: Dev>(
        host: &mut D,
        shape: Shape,
        first: LeafPlace,
        count: usize,
        bytes: &mut [u8],
    ) -> Result<(), Failed>
        requires blocks { first.block + count ≤ shape.count }
        requires inside { first.index * shape.blocksize + count * shape.blocksize ≤ length bytes.old }
        requires fits { Fits shape (D.outside host.old) }
        ensures leaves { (m : BlockMap) → Shows shape (D.outside host.new) m
            → OnOk result ((k : ℕ) → k < count → leaf_range shape.blocksize bytes.new (first.index + k) ≡ m.bytes (first.block + k)) }
        ensures others { (i : ℕ) → IsApart first.index count i
            → leaf_range shape.blocksize bytes.new i ≡ leaf_range shape.blocksize bytes.old i }
        ensures long { length bytes.new ≡ length bytes.old }
        ensures looks { ReadsOnce (D.outside host.old) (D.outside host.new) result }
    {
        let size = shape.blocksize as usize;
        let at = first.index as usize * size;
        read_blocks(host, shape, first.block, &mut bytes[at..at + count * size])
    }
}

#[cfg(test)]
mod tests;

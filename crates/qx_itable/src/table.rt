//! The inodes of a volume, by their numbers.
ghost use Rattle.std.specs.Prelude.{◌≡◌, ◌≤◌, ◌<◌, ◌*◌, ◌/◌, ◌%◌, ◌+◌, ℕ, IfOk, IfSome, length, slice_range};
ghost use Rattle.qx_records.specs.InodeRecord.{inode_in};
ghost use Rattle.qx_itable.specs.TableState.{blank_table, first_free_in, if_live, inode_of, leaf_of, live_in, record_bytes, with_inode, without_inode};

use crate::live::LiveSet;
use qx_fields::Order;
use qx_geom::Root;
use qx_records::{Inode, InodeView, write_inode};
use std::alloc::{AllocError, Global};
use std::marker::Model;

// An inode takes less memory than its record has bytes.
const _: () = prove!(size_of::<Inode>() <= 112);

/// What stands in memory where an inode isn't live.
const DEAD: Inode = Inode {
    root: Root {
        size: 0,
        pointers: [0; 16],
        levels: 0,
    },
    uid: 0,
    gid: 0,
    ftime: 0,
    mtime: 0,
    atime: 0,
    ctime: 0,
    mode: 0,
    ext_mode: 0,
    status: 0,
};

/// The inodes of the numbers from 1 on.
#[derive(Drop)]
pub struct ITable {
    order: Order,
    // Inode n stands at place n - 1. One whose mode is 0 isn't live, and its other fields mean nothing.
    inodes: Vec<Inode>,
    live: LiveSet,
}

impl Model for ITable {
    ghost use Rattle.qx_itable.specs.TableState.{TableState};

    ghost Value = { TableState };

    ghost use Rattle.qx_itable.specs.TableView.{table_in, IsInOrder};

    ghost view = { table_in };

    ghost invariant = { IsInOrder };
}

impl ITable {
    /// A table of so many inodes, none of them live, whose records are read and written in this order of bytes.
    pub fn new(alloc: Global, num_inodes: u32, order: Order) -> Result<ITable, AllocError>
        ensures { IfOk result (λ table. table ≡ blank_table num_inodes order) }
    {
        let inodes = vec![in alloc; DEAD; num_inodes as usize]?;
        let live = LiveSet::new(alloc, num_inodes)?;
        Ok(ITable {
            order,
            inodes,
            live,
        })
    }

    /// A table that is equal, in memory of its own: later changes of one don't show in the other.
    pub fn freeze(&self, alloc: Global) -> Result<ITable, AllocError>
        ensures { IfOk result (λ table. table ≡ self.now) }
    {
        let inodes = Vec::from_slice(alloc, &self.inodes)?;
        let live = self.live.copied(alloc)?;
        Ok(ITable {
            order: self.order,
            inodes,
            live,
        })
    }

    /// How many numbers the table has, from 1 on.
    pub fn num_inodes(&self) -> u32
        ensures { result ≡ length self.now.inodes }
    {
        self.inodes.len() as u32
    }

    /// Gives the number `inode` the inode that a record says, which is 128 bytes.
    pub fn load(&mut self, inode: u32, bytes: &[u8])
        requires from_one { 1 ≤ inode }
        requires within { inode ≤ length self.old.inodes }
        requires record { length bytes.now ≡ 128 }
        ensures { self.new ≡ with_inode self.old inode (inode_in self.old.order bytes.now) }
    {
        let read = InodeView::new(bytes, self.order).get();
        self.set(inode, &read);
    }

    /// The inode of a number, where it is live.
    pub fn get(&self, n: u32) -> Option<Inode>
        requires from_one { 1 ≤ n }
        requires within { n ≤ length self.now.inodes }
        ensures inode { result ≡ inode_of self.now n }
        ensures live { IfSome result (λ inode. 0 < inode.mode) }
    {
        self.at(n as usize - 1)
    }

    /// Gives the number an inode. With mode 0 it isn't live, whatever else it says.
    pub fn set(&mut self, n: u32, inode: &Inode)
        requires from_one { 1 ≤ n }
        requires within { n ≤ length self.old.inodes }
        ensures { self.new ≡ with_inode self.old n inode.now }
    {
        self.inodes[n as usize - 1] = *inode;
        if inode.mode == 0 {
            self.live.remove(n - 1);
        } else {
            self.live.insert(n - 1);
        }
    }

    /// The inode of a number isn't live from now on.
    pub fn clear(&mut self, n: u32)
        requires from_one { 1 ≤ n }
        requires within { n ≤ length self.old.inodes }
        ensures { self.new ≡ without_inode self.old n }
    {
        self.set(n, &DEAD);
    }

    /// The least number whose inode isn't live.
    pub fn first_free(&self) -> Option<u32>
        ensures { result ≡ first_free_in self.now }
    {
        let place = self.live.first_absent()?;
        Some(place + 1)
    }

    /// How many inodes are live.
    pub fn live(&self) -> u32
        ensures { result ≡ live_in self.now }
    {
        self.live.count()
    }

    /// Fills a leaf of the inode tree, of a block's size: a record for each of its numbers, bytes 0 where none is live and past the last number.
    pub fn leaf_bytes(&self, leaf: u32, into: &mut [u8])
        requires whole { length into.old % 128 ≡ 0 }
        requires there { leaf * (length into.old / 128) < length self.now.inodes }
        ensures bytes { into.new ≡ leaf_of self.now (length into.old / 128) leaf }
        ensures read_back { (k : ℕ) → k < length into.old / 128
            → if_live (inode_in self.now.order (slice_range into.new (k * 128) (k * 128 + 128))) ≡ inode_of self.now (leaf * (length into.old / 128) + 1 + k) }
    {
        let order = self.order;
        let count = into.len() / 128;
        let first = leaf as usize * count;
        for place in 0..count {
            write_record(
                self.at(first + place),
                order,
                &mut into[place * 128..place * 128 + 128],
            );
        }
    }

    // The inode of the number behind a place, where it is live.
    fn at(&self, place: usize) -> Option<Inode>
        ensures inode { result ≡ inode_of self.now (place + 1) }
        ensures live { IfSome result (λ inode. 0 < inode.mode) }
    {
        match self.inodes.get(place) {
            Some(inode) if inode.mode != 0 => Some(*inode),
            _ => None,
        }
    }
}

// Fills 128 bytes with the record of an inode, or with that of none.
fn write_record(inode: Option<Inode>, order: Order, into: &mut [u8])
    requires record { length into.old ≡ 128 }
    requires live { IfSome inode (λ inode. 0 < inode.mode) }
    ensures bytes { into.new ≡ record_bytes order inode }
    ensures whole { length into.new ≡ 128 }
    ensures read_back { if_live (inode_in order into.new) ≡ inode }
{
    match inode {
        Some(inode) => write_inode(&inode, order, into),
        None => into.fill(0),
    }
}

//! The records of a block of a directory, whose names are lent.
ghost use Rattle.std.specs.Prelude.{◌≡◌, ◌+◌, ◌*◌, ◌≤◌, length, slice_range};
ghost use Rattle.qx_records.specs.NameRecord.{raw_in};
ghost use Rattle.qx_records.specs.Slots.{raw_of_slot, placed_of, LendsName};

use qx_fields::{Order, get32};
use std::marker::Model;

/// What a directory record says.
#[derive(Clone, Copy, Debug, PartialEq, Eq)]
pub enum Slot<'a> {
    /// No row: the inode or the length is 0.
    Unused,
    /// A row whose name of 1 to 27 bytes stands in the record.
    Short { inode: u32, name: &'a [u8] },
    /// A row whose name is a long one, with its number and its checksum.
    Long { inode: u32, number: u32, sum: u32 },
    /// A length of 28 to 254, which means nothing.
    Bad { length: u8 },
}

/// A record of a block.
#[derive(Clone, Copy, Debug, PartialEq, Eq)]
pub struct Record<'a> {
    /// Which record of the block it is, from 0 on.
    pub place: usize,
    pub slot: Slot<'a>,
}

/// The record of a block at a place, counted in records of 32 bytes.
pub fn slot_at<'a>(block: &'a [u8], order: Order, place: usize) -> Slot<'a>
    requires { place * 32 + 32 ≤ length block.now }
    ensures said { raw_of_slot result ≡ raw_in order (slice_range block.now (place * 32) (place * 32 + 32)) }
    ensures lends { LendsName block.entry (place * 32) result }
{
    slot_in(&block[place * 32..place * 32 + 32], order)
}

/// The record that 32 bytes are.
#[tactic(auto, unfolding(crate::specs::NameRecord::raw_in))]
fn slot_in<'a>(bytes: &'a [u8], order: Order) -> Slot<'a>
    requires { length bytes.now ≡ 32 }
    ensures said { raw_of_slot result ≡ raw_in order bytes.now }
    ensures lends { LendsName bytes.entry 0 result }
{
    let inode = get32(order, bytes, 0);
    let length = bytes[4];
    if inode == 0 || length == 0 {
        Slot::Unused
    } else if length <= 27 {
        Slot::Short {
            inode,
            name: &bytes[5..5 + usize::from(length)],
        }
    } else if length == 255 {
        Slot::Long {
            inode,
            number: get32(order, bytes, 8),
            sum: get32(order, bytes, 12),
        }
    } else {
        Slot::Bad { length }
    }
}

/// The records of a block in order, as an iterator: seen as the list of those that are left.
#[derive(Drop)]
pub struct Records<'a> {
    order: Order,
    block: &'a [u8],
    place: usize,
}

impl<'a> Model for Records<'a> {
    ghost use Rattle.std.specs.Prelude.{◌≤◌, ◌/◌, List, length};
    ghost use Rattle.qx_records.specs.Slots.{PlacedRecord, records_from};

    ghost Value = { List PlacedRecord };

    ghost view = { λ s. records_from s.order s.block.now s.place };

    ghost invariant = { λ s. s.place ≤ length s.block.now / 32 };
}

impl<'a> Records<'a> {
    ghost use Rattle.std.specs.Prelude.{◌≡◌, ◌/◌, ◌%◌, length};
    ghost use Rattle.qx_records.specs.Slots.{records_in};

    /// All records of a block of whole records.
    pub fn new(block: &'a [u8], order: Order) -> Records<'a>
        requires { length block.now % 32 ≡ 0 }
        ensures records { result ≡ records_in order block.now }
        ensures count { length result ≡ length block.now / 32 }
    {
        Records {
            order,
            block,
            place: 0,
        }
    }
}

impl<'a> Iterator for Records<'a> {
    ghost use Rattle.std.specs.Iterator.{YieldsFirstBy, item_count};
    ghost use Rattle.qx_records.specs.Slots.{placed_of};

    type Item = Record<'a>;

    ghost next_gives = { YieldsFirstBy placed_of (λ rest. rest) };

    ghost remaining = { item_count (λ rest. rest) };

    fn next(&mut self) -> Option<Record<'a>> {
        let place = self.place;
        if place == self.block.len() / 32 {
            return None;
        }
        self.place = place + 1;
        Some(Record {
            place,
            slot: slot_at(self.block, self.order, place),
        })
    }
}

//! The rows of a block of a directory, which is lent.
ghost use Rattle.std.specs.Prelude.{◌≡◌, ◌+◌, ◌*◌, ◌/◌, ◌%◌, ◌<◌, ◌≤◌, List, ℕ, Some, None, IfOk, length, replicate, slice_set, if◌then◌else◌};
ghost use Rattle.qx_bytes.specs.Ranges.{put_at};
ghost use Rattle.qx_records.specs.NameRecord.{Unused, raw_in};
ghost use Rattle.qx_records.specs.NameSum.{name_sum_of, name_sum_signed_of};
ghost use Rattle.qx_records.specs.Slots.{raw_of_slot, records_in};
ghost use Rattle.qx_dir.specs.Rows.{may_have, found_as, found_from, first_unused_in, places_of, row_of, row_bytes};

use crate::RowPlaces;
use qx_fields::Order;
use qx_records::{
    Records, Slot, name_sum, name_sum_signed, slot_at, write_long, write_short, write_unused,
};
use std::alloc::{AllocError, Global};

/// What a name is found as in a block.
#[derive(Clone, Copy, Debug, PartialEq, Eq)]
pub enum Found {
    /// No row can have the name.
    None,
    /// The row with this name, which is short.
    Name {
        place: usize,
        inode: u32,
    },
    /// A row with a long name of the same checksum: the name of this number has to be looked at.
    Maybe {
        place: usize,
        inode: u32,
        number: u32,
    },
}

/// The first row of a block that has the name or may have it, from a record on. Places are counted in records of 32 bytes.
pub fn find(block: &[u8], order: Order, from: usize, name: &[u8]) -> Found
    requires { length block.now % 32 ≡ 0 }
    ensures { result ≡ found_from order block.now from (length block.now / 32) name.now }
{
    let unsigned = name_sum(name);
    let signed = name_sum_signed(name);
    for place in from..block.len() / 32 {
        let slot = slot_at(block, order, place);
        if let Some(found) = named(place, slot, name, unsigned, signed) {
            return found;
        }
    }
    Found::None
}

// What a record is found as, where it may have the name, whose checksums are given.
fn named(place: usize, slot: Slot<'_>, name: &[u8], unsigned: u32, signed: u32) -> Option<Found>
    requires unsigned { unsigned ≡ name_sum_of name.now }
    requires signed { signed ≡ name_sum_signed_of name.now }
    ensures { result
        ≡ (if may_have name.now (raw_of_slot slot.entry) then Some (found_as place (raw_of_slot slot.entry)) else None) }
{
    match slot {
        Slot::Short { inode, name: other } if other == name => Some(Found::Name { place, inode }),
        Slot::Long { inode, number, sum } if sum == unsigned || sum == signed => {
            Some(Found::Maybe {
                place,
                inode,
                number,
            })
        }
        _ => None,
    }
}

/// The place of the first record of a block that is not in use.
pub fn first_unused(block: &[u8], order: Order) -> Option<usize>
    requires { length block.now % 32 ≡ 0 }
    ensures { result ≡ first_unused_in order block.now }
{
    for record in Records::new(block, order) {
        if let Slot::Unused = record.slot {
            return Some(record.place);
        }
    }
    None
}

/// Writes the row of a name at a place, over whatever stood there. The number counts where the name has more than 27 bytes.
pub fn put(block: &mut [u8], order: Order, place: usize, inode: u32, name: &[u8], number: u32)
    requires whole { length block.old % 32 ≡ 0 }
    requires within { place < length block.old / 32 }
    requires used { 0 < inode }
    requires named { 0 < length name.now }
    requires short { length name.now ≤ 510 }
    ensures bytes { block.new ≡ put_at block.old (place * 32) (row_bytes order inode name.now number) }
    ensures records { records_in order block.new
        ≡ slice_set (records_in order block.old) place (record { place = place; raw = row_of inode name.now number }) }
{
    write_row(
        &mut block[place * 32..place * 32 + 32],
        order,
        inode,
        name,
        number,
    );
}

// Fills 32 bytes with the row of a name.
fn write_row(into: &mut [u8], order: Order, inode: u32, name: &[u8], number: u32)
    requires record { length into.old ≡ 32 }
    requires used { 0 < inode }
    requires named { 0 < length name.now }
    ensures bytes { into.new ≡ row_bytes order inode name.now number }
    ensures read_back { raw_in order into.new ≡ row_of inode name.now number }
    ensures whole { length into.new ≡ 32 }
{
    if name.len() <= 27 {
        write_short(into, order, inode, name);
    } else {
        write_long(into, order, inode, number, name_sum(name));
    }
}

/// Clears the record at a place: it is unused, and all its bytes are 0.
pub fn clear(block: &mut [u8], place: usize)
    requires whole { length block.old % 32 ≡ 0 }
    requires within { place < length block.old / 32 }
    ensures bytes { block.new ≡ put_at block.old (place * 32) (replicate 32 0) }
    ensures records { (order : Order) → records_in order block.new
        ≡ slice_set (records_in order block.old) place (record { place = place; raw = Unused }) }
{
    write_unused(&mut block[place * 32..place * 32 + 32]);
}

/// The places of the records of a block that are in use, in their order.
pub fn rows(alloc: Global, block: &[u8], order: Order) -> Result<RowPlaces, AllocError>
    requires { length block.now % 32 ≡ 0 }
    ensures { IfOk result (λ places. places ≡ places_of (records_in order block.now)) }
{
    let mut places = RowPlaces::new(alloc);
    for record in Records::new(block, order) {
        match record.slot {
            Slot::Unused => {}
            Slot::Short { .. } | Slot::Long { .. } | Slot::Bad { .. } => places.push(record.place)?,
        }
    }
    Ok(places)
}

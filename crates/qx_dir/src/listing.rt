//! The rows of a block of a directory but `.` and `..`, one after another.
ghost use Rattle.std.specs.Prelude.{◌≡◌, ◌%◌, None, Some, IfNone, IfSome, length};
ghost use Rattle.qx_records.specs.Slots.{placed_of, records_in};
ghost use Rattle.qx_dir.specs.Entries.{entries_in, entry_in, is_dots, said_of};

use qx_fields::Order;
use qx_records::{Record, Records, Slot};
use std::marker::Model;

/// The name of a row: its own bytes, or the number of a long one.
#[derive(Clone, Copy, Debug, PartialEq, Eq)]
pub enum EntryName<'a> {
    Short(&'a [u8]),
    Long(u32),
}

/// A row of a block.
#[derive(Clone, Copy, Debug, PartialEq, Eq)]
pub struct Entry<'a> {
    /// Which record of the block it is, from 0 on.
    pub place: usize,
    /// The inode that it names.
    pub inode: u32,
    pub name: EntryName<'a>,
}

/// The rows of a block in order, but those that are `.` or `..` by a short name, as an iterator: seen as the list of those that are left. Records of a length that means nothing are passed over.
#[derive(Drop)]
pub struct Entries<'a> {
    records: Records<'a>,
}

impl<'a> Model for Entries<'a> {
    ghost use Rattle.std.specs.Prelude.{List};
    ghost use Rattle.qx_dir.specs.Entries.{PlacedEntry, entries_of};

    ghost Value = { List PlacedEntry };

    ghost view = { λ s. entries_of s.records };
}

impl<'a> Entries<'a> {
    /// Those of a block of whole records.
    pub fn new(block: &'a [u8], order: Order) -> Entries<'a>
        requires { length block.now % 32 ≡ 0 }
        ensures { result ≡ entries_in order block.now }
    {
        Entries {
            records: Records::new(block, order),
        }
    }
}

impl<'a> Iterator for Entries<'a> {
    ghost use Rattle.std.specs.Iterator.{YieldsFirstBy, item_count};
    ghost use Rattle.qx_dir.specs.Entries.{said_of};

    type Item = Entry<'a>;

    ghost next_gives = { YieldsFirstBy said_of (λ rest. rest) };

    ghost remaining = { item_count (λ rest. rest) };

    fn next(&mut self) -> Option<Entry<'a>> {
        while let Some(record) = self.records.next() {
            if let Some(entry) = listed(record) {
                return Some(entry);
            }
        }
        None
    }
}

// The row that a record is, unless it is none, or `.` or `..`.
fn listed(item: Record<'_>) -> Option<Entry<'_>>
    ensures row { IfSome result (λ entry. entry_in (placed_of item.entry) ≡ Some (said_of entry)) }
    ensures none { IfNone result (entry_in (placed_of item.entry) ≡ None) }
{
    let place = item.place;
    match item.slot {
        Slot::Short { inode, name } if !is_dots(name) => Some(Entry {
            place,
            inode,
            name: EntryName::Short(name),
        }),
        Slot::Long { inode, number, .. } => Some(Entry {
            place,
            inode,
            name: EntryName::Long(number),
        }),
        Slot::Unused | Slot::Short { .. } | Slot::Bad { .. } => None,
    }
}

// Whether a name is `.` or `..`.
fn is_dots(name: &[u8]) -> bool
    ensures { result ≡ is_dots name.now }
{
    matches!(name, [b'.'] | [b'.', b'.'])
}

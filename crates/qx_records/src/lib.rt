//! Records: what the bytes of an inode, a directory record and a long name say, and how they are written.
//!
//! Stands on `qx_fields` for numbers, on `qx_bytes` for places in lists, on `qx_geom` for its types and on `bitflags` for sets of permissions; trees and their changes stand on it.
//! Its contract: readers answer the definitions of `specs/InodeRecord.antt`, `NameRecord.antt` and `NameSum.antt`, and writers put the bytes of `specs/WrittenInode.antt` and `WrittenNames.antt`, from which the same is read back.
//! It keeps no state, takes no memory, and lends names as the very bytes that it was lent.
#![tactic(auto)]

mod directory;
mod examples;
mod inode;
mod kind;
mod laws;
mod long_name;
mod permissions;
mod rows;
mod sums;

pub use directory::{Record, Records, Slot, slot_at};
pub use examples::{
    the_inode_of_counted_bytes, the_kinds_of_modes, the_long_names_of_leaves, the_records_of_bytes,
};
pub use inode::{Inode, InodeView, write_inode};
pub use kind::{Kind, kind_number};
pub use laws::{
    a_long_name_is_read_back, a_record_that_is_put_changes_no_other, a_row_is_read_back,
    an_inode_is_read_back, the_records_of_a_block, the_sum_of_a_name,
};
pub use long_name::{LongView, write_long_name};
pub use permissions::Permissions;
pub use rows::{write_long, write_short, write_unused};
pub use sums::{name_sum, name_sum_signed};

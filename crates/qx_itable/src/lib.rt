//! The inode table: the inodes of a volume by their numbers, in memory.
//!
//! Stands on `qx_records` for what an inode is and how it is written, and on `qx_blockset` for the set of live ones; files, names and snapshots stand on it.
//! Its contract: `ITable`, which contracts see as the inode of each number, if it is live (`specs/TableState.antt`), each call being one step of it.
//! Beside the inodes it keeps which are live and which number is the least free one, so that neither is searched for.
//! It takes no memory but in `new` and `freeze`, and keeps no bytes of a record that no field has.
#![tactic(auto)]

mod laws;
mod live;
mod table;

pub use laws::{a_number_has_what_it_was_given, the_first_free_number, the_number_of_live_inodes};
pub use table::ITable;

#[cfg(test)]
mod tests;

//! Directories: the rows of one block of a directory, found by name, written, cleared and listed.
//!
//! Stands on `qx_records` for what a record says and how it is written, and on `qx_fields` for the order of bytes; operations on names stand on it.
//! Its contract: each call answers or changes what `specs/Rows.antt` says of the block's records; none but the written one changes.
//! It keeps no state, and takes no memory but for the list of `rows`.
//! It copies no name, and sums a name once, not once a record.
#![tactic(auto)]

mod block;
mod laws;
mod listing;
mod places;

pub use block::{Found, clear, find, first_unused, put, rows};
pub use laws::what_is_found;
pub use listing::{Entries, Entry, EntryName};
pub use places::RowPlaces;

#[cfg(test)]
mod tests;

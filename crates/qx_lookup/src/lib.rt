//! Names in directories over blocks: which row has a name, which inode it leads to; whether a directory has another row than `.` and `..`, and its first unused record.
//!
//! Stands on `qx_working` for the working tree, on `qx_ptree` for present leaves, on `qx_dir` for the rows of a block and on `qx_long` for long names; path walks and operations on names stand on it.
//! Its contract: `lookup`, `row_named`, `is_bare` and `free_record` answer what the definitions of `qx_model` say of each tree for which state and blocks stand.
//! It keeps no state and takes no memory: names are compared where they stand.
//! It reads present leaves alone, a hole's records being unused.
#![tactic(auto)]

mod bare;
mod named;
mod rows;
mod spans;
mod unused;

pub use bare::is_bare;
pub use named::{live_inode, lookup, row_named};
pub use rows::{FoundRow, find_row};
pub use unused::free_record;

#[cfg(test)]
mod tests;

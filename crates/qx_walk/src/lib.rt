//! The walk: what an image is, found by following its pointers and records once.
//!
//! Stands on `qx_pointers` for blocks that are read and pointers that are followed, on `qx_tables` for what is kept of a volume, and on `qx_view` for what the walk's tests are; the checker and the mount stand on it.
//! Its contract: `walk` says what an image is, as the definitions have it: its first finding, or the survey of its tree and the first reason for which it is foreign.
//! It keeps the blocks that were met, the inodes that were listed and their table, the Longfile's leaves, and the names of one directory at a time.
//! It writes nothing, whatever the image holds, and follows pointers that are there, never a size.
#![tactic(auto)]

mod bitmap;
mod directory;
mod halves;
mod inodes;
mod layout;
mod own_nodes;
mod state;
mod survey;
mod surveying;
mod tree;

use directory::walk_records;
use state::{Directory, Ground, Notes, RecordPlace, RootNodes, Seen, Walked, Way};
pub use survey::{Survey, WalkFault};
pub use surveying::walk;

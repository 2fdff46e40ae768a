//! What the walk keeps of a volume: its inodes, the leaves of its Longfile, the names of one directory, and the list of the inodes to come to.
//!
//! Stands on `qx_pointers` for blocks that are read and the leaves of a node, on `qx_blockset` for the inodes that were listed, and on `qx_view` for what inodes and long names are; the walk stands on it.
//! Its contract: each call answers what the image or the earlier calls have of an inode, a long name, a name or the list, as `specs/Tables.antt` says what each keeps.
//! It keeps the leaves of the Inode tree with bytes 0 for those that aren't present, and of the Longfile where its present leaves stand and how often each was named.
//! It writes nothing, reads a leaf of the Inode tree once, those side by side in one call, and takes no memory but where it may answer that there is none.
#![tactic(auto)]

mod listing;
mod long_names;
mod names;
mod runs;
mod table;

pub use listing::{Listing, Queued};
pub use long_names::LongNames;
pub use names::Names;
pub use table::InodeTable;

//! What the pointers of a node lead to, on a device that is only read.
//!
//! Stands on `qx_outside` for the device, on `qx_blockset` for the blocks that were met and on `qx_view` for the walk's tests; the walk stands on it.
//! Its contract: `read_block` gives a block's bytes, and `walk_node` goes through all tests of a node's pointers in the walk's order, each block met once.
//! It follows the pointers that are there, never a size, and reads a pointer block once.
//! It writes nothing; the only memory that it takes is for the leaves that a caller wants kept.
#![tactic(auto)]

mod halt;
mod node;
mod pointers;
mod reading;
mod source;

pub use halt::Halt;
pub use node::{LeafPlace, Part, Visitor, walk_node};
pub use reading::{read_block, read_block_from, read_blocks};
pub use source::Shape;

//! Files: the bytes of a node, with holes that read as 0.
//!
//! Stands on `qx_ptree` for the leaves of a node and for its changes; operations stand on it.
//! Its contract: the plans of `specs/FilePlans.antt`, `Puts` of `specs/Puts.antt`, and `byte_of` of `qx_nodes` for what is read.
//! It keeps no state and takes no memory. A hole costs the zeros that a caller asks for, and nothing else.
//! It writes no block but those of leaves that are ready, and never a pointer block.
#![tactic(auto)]

mod bytes;
mod laws;
mod plans;

pub use bytes::{put, put_fill, read};
pub use laws::{
    a_file_ends_in_its_last_leaf, a_file_without_a_tail, a_planned_size_writes_the_cut_leaf,
    a_planned_write_writes_its_leaves, bytes_in_written_leaves_can_be_put,
    the_content_after_a_change, what_is_put_is_the_nodes, what_is_put_leaves_others,
    what_is_put_leaves_the_pointers, what_is_read_is_the_content,
};
pub use plans::{TooBig, plan_size, plan_write};

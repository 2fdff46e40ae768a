//! Edits: what inodes and the contents of nodes show of a tree after each edit that an operation makes, and what links are then.
//!
//! Stands on `qx_copies` and `qx_working` for what is shown, on `qx_batch` for what a change and a put leave of a node, and on `qx_model` for the edits; operations stand on it.
//! Its contract: the laws below, each over any inodes and contents that show a tree. What an operation does to nodes, inodes and links it shows edit by edit.
//! It says nothing of blocks, pointers or rooted trees.
//! It keeps no state and takes no memory; nothing in it runs.
#![tactic(auto)]

mod inode_laws;
mod joint_laws;
mod move_laws;
mod name_laws;
mod new_laws;
mod put_laws;
mod row_laws;
mod whole_laws;

pub use inode_laws::{
    a_file_is_rewritten, a_file_is_written, an_inode_comes, an_inode_loses_a_row, attributes_change,
};
pub use joint_laws::{a_long_name_is_exchanged, two_records_are_put};
pub use move_laws::a_name_is_moved;
pub use name_laws::{a_name_is_linked, a_name_is_lost, a_name_is_made};
pub use new_laws::{a_new_inode_is_an_entry, a_new_node_is_filled};
pub use put_laws::{
    a_change_and_a_put_are_one, a_content_lies_over_blocks, a_long_name_is_put, a_record_is_put,
    bytes_are_put_into_a_file,
};
pub use row_laws::{a_parent_is_moved, a_row_is_added, a_row_is_cleared, a_row_is_pointed};
pub use whole_laws::{each_edit_keeps_the_tree_whole, new_inodes_are_whole};

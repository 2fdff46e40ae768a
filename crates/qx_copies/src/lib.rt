//! Copies: when inodes in memory and blocks stand for a tree, and for the ids of its blocks.
//!
//! Stands on `qx_view` for what an inode and its node's content are, and on `qx_model` for trees and ids; operations, the walk's end, mounts and snapshots stand on it.
//! Its contract: `Shows` of `specs/Shown.antt`, `Represents`, `IsOwnCopy` and `RepresentsIds` of `specs/Standing.antt`, and the laws below about them.
//! What a node holds stands between blocks and tree: edits keep `Shows` one by one, whatever blocks lie below.
//! It keeps no state and takes no memory; nothing in it runs.
#![tactic(auto)]

mod edit_laws;
mod examples;
mod laws;
mod position_laws;

pub use edit_laws::{an_inode_is_set, contents_that_are_the_same_show_the_same, long_names_change};
pub use examples::the_copy_of_a_new_volume;
pub use laws::{
    a_copy_is_decided_by_its_blocks, a_sound_image_is_laid_out_as_its_own,
    no_reason_applies_to_an_own_copy, the_tree_of_an_image_is_its_inodes,
};
pub use position_laws::the_positions_of_a_copy_are_its_trees;

//! Placing: what an edit of a tree needs, and where its blocks stand once it is made.
//!
//! Stands on `qx_batch` for nodes that are changed together, on `qx_copies` for what they stand for and on `qx_model` for edits, positions and ids; operations stand on it.
//! Its contract: the laws below; `PlansEdit` of `specs/PlannedEdits.antt` says which edit some planned changes make, `AreMoved` of `specs/MovedNodes.antt` where blocks stand once they are made.
//! Blocks are spoken of by positions alone, so that no operation's proof sees a pointer.
//! It keeps no state and takes no memory; nothing in it runs.
#![tactic(auto)]

mod copy_laws;
mod id_laws;
mod need_laws;
mod place_laws;
mod room_laws;
mod write_laws;

pub use copy_laws::a_copy_of_laid_nodes_stands_for_what_it_shows;
pub use id_laws::{
    the_ids_of_a_mounted_tree, the_ids_of_an_edited_tree, the_working_tree_holds_the_edited_tree,
};
pub use need_laws::{
    an_edit_is_made_by_what_is_shown, an_edit_needs_what_its_changes_need, nodes_beside_a_copy,
};
pub use place_laws::{where_the_blocks_of_an_edit_stand, where_the_nodes_of_changes_stand};
pub use room_laws::what_an_edit_gives_up;
pub use write_laws::leaves_are_written_step_by_step;

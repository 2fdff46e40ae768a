//! Pointer trees: where a node's leaves stand, and how a node changes without a write into a block of another tree.
//!
//! Stands on `qx_blocks` for blocks, on `qx_geom` for positions and on `qx_nodes` for what a node's pointers lead to; files and long names stand on it.
//! Its contract: `leaf` answers the leaf of `qx_nodes/specs/Leaves.antt`, `need` the count of `specs/Alterations.antt`, `prepare` what `Prepares` of `specs/PreparedNode.antt` says, and `commit` makes of a node what `Alters` of `specs/Altered.antt` says.
//! It keeps no state: what it knows it reads from the pointers that are there, never leaf by leaf.
//! It never writes a block that another tree holds (`what_a_commit_makes_of_blocks`, clause `shared`), and a commit never fails.
#![tactic(auto)]

mod change;
mod fresh_blocks;
mod giving_up;
mod holes;
mod laws;
mod leaf_path;
mod new_parts;
mod part;
mod plan;
mod pointer_blocks;
mod pointers;
mod prepared;
mod preparing;
mod present;
mod ready_path;
mod work;

pub use change::Change;
pub use fresh_blocks::need;
pub use holes::first_hole;
pub use laws::{
    a_node_stays_with_its_blocks, a_nodes_positions_are_met, a_prepared_change_waits,
    an_empty_node_is_a_node, changes_of_apart_nodes_are_apart, nodes_stay_apart,
    the_leaves_of_a_node, what_a_commit_makes_of_blocks, what_an_altered_node_meets,
    what_is_changed_in_turn, what_is_taken_in_turn, what_leaves_a_node,
    what_leaves_a_waiting_change, what_leaves_an_altered_node, what_leaves_written_leaves,
};
pub use leaf_path::leaf;
pub use prepared::{Prepared, abandon, apart, commit};
pub use preparing::prepare;
pub use present::{Leaf, next_present};
pub use ready_path::ready_leaf;

//! The places of a volume: what a node is on disk, which of two areas is meant, where the system blocks stand, and which positions of a node a change touches.
//!
//! Stands on nothing; superblocks, records and all that follows pointers stand on it.
//! Its contract: the types below, the numbers that the texts give the areas (`specs/Area.antt`), a volume's numbers (`specs/Layout.antt`), and a node's positions, those that a change touches, and its need (`specs/Positions.antt`, `specs/Touch.antt`).
//! It keeps no state and takes no memory.
#![tactic(auto)]

mod area;
mod examples;
mod geometry;
mod laws;
mod root;
mod system;
mod tree;

pub use area::Which;
pub use examples::{
    the_need_of_a_far_leaf, the_need_of_a_filled_node, the_need_of_a_frozen_node,
    the_need_of_a_growing_node, the_need_of_a_moved_leaf, the_need_of_a_sparse_node,
    the_need_of_changed_levels,
};
pub use geometry::{BLOCKS_BEGIN, FIRST_PLACE, GeomFault, Geometry};
pub use laws::{
    a_tree_stands_in_its_half, a_word_points_a_level_below, no_change_needs_no_block,
    positions_of_a_level_ascend, present_leaves_after_a_change, the_fresh_positions_are_touched,
    the_geometry_of_a_device_is_a_volumes, the_levels_are_the_least,
    the_need_depends_on_old_positions, the_second_area_comes_last,
    the_test_decides_what_is_touched, the_volume_has_room_for_both_halves,
};
pub use root::{ABSENT, Root};
pub use system::SystemTree;
pub use tree::levels;

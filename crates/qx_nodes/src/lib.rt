//! Nodes: what the pointers of a node lead to, and what it holds.
//!
//! Stands on `qx_fields` for numbers, `qx_geom` for its types and `qx_records` for long names; trees and their changes stand on it.
//! Its contract: the definitions of `specs/Visits.antt`, `Leaves.antt`, `Content.antt` and `LongNames.antt`, and the laws below about them.
//! It keeps no state, takes no memory and has no code that runs.
#![tactic(auto)]

mod laws;

pub use laws::{
    a_leaf_by_its_path_is_met, a_leaf_that_is_met_is_on_its_path,
    a_leaf_that_is_not_present_reads_as_zeros, a_long_name_is_read_by_its_content,
    a_name_is_what_its_leaf_says, a_piece_is_a_part_of_the_content, no_position_is_met_twice,
    present_leaves_ascend, what_is_met_decides_content, what_is_met_decides_itself,
    what_is_met_decides_leaves,
};

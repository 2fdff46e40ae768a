//! The tree, what a volume means apart from where anything lies, and the machine that a volume is: what each act of each session answers, and which trees a power cut may leave.
//!
//! Stands on `qx_outside` for bytes, `qx_path` for paths and `qx_geom` for the positions of a node; what an image means, operations and turns stand on it.
//! Its contract: the types below, the tree (`specs/Tree.antt`), one operation (`specs/Operate.antt`) and one turn (`specs/Next.antt`).
//! It keeps no state, and takes memory for lists alone.
#![tactic(auto)]

mod attr;
mod examples;
mod fault_laws;
mod id_laws;
mod laws;
mod notices;
mod operation;
mod operation_examples;
mod position_examples;
mod refusal;
mod reply;
mod rows;
mod snapshot_laws;
mod touch_laws;
mod turn;
mod turn_examples;
mod turn_laws;
mod whole_laws;

pub use attr::Attr;
pub use examples::the_links_of_a_small_tree;
pub use fault_laws::{
    a_turn_tells_of_its_faults, an_act_that_calls_nothing_never_fails,
    paths_are_refused_by_themselves,
};
pub use id_laws::{
    ids_are_never_used_again, ids_stay_apart, names_of_ids_are_never_seen,
    placed_blocks_can_be_read, the_ids_after_an_edit, what_is_free_is_what_is_not_held,
    what_is_held_is_what_is_in_use, what_is_read_alike_differs_in_names,
};
pub use laws::{an_inode_with_links_is_named, an_operation_keeps_the_tree_rooted};
pub use notices::{Notice, Notices};
pub use operation::Op;
pub use operation_examples::{
    files_of_a_directory, links_that_lead_on, rows_of_one_inode, the_attributes_of_each_kind,
    the_bytes_of_a_file, the_leaves_that_are_written, the_order_of_refusals, the_times_of_a_file,
    the_times_of_directories,
};
pub use position_examples::{
    the_ids_of_a_first_file, the_need_of_a_fill, the_positions_of_small_trees,
};
pub use refusal::Refusal;
pub use reply::{Reply, SpaceView, StatView};
pub use rows::{Row, RowList};
pub use snapshot_laws::{
    an_act_wants_no_memory_halfway, moves_come_where_they_may, nothing_changes_at_the_last_serial,
    serials_follow_one_another,
};
pub use touch_laws::{
    the_fresh_positions_of_an_edit, the_need_of_an_edit, the_positions_of_a_tree,
    the_test_decides_what_an_edit_touches,
};
pub use turn::{Act, Turn, VolEvent};
pub use turn_examples::{
    a_cut_under_a_hold, a_directory_that_is_removed, a_file_with_holes,
    a_fill_that_wants_a_snapshot, a_fill_under_a_hold, a_first_file, a_mount_for_reading,
    a_removal_under_a_hold, a_sync_that_fails_once, a_timed_snapshot, blocks_of_three_copies,
    directories_that_move, faults_of_one_turn, faults_that_may_come, faults_that_never_come,
    holds_of_two_sessions, links_that_lead_nowhere, names_by_length, names_of_one_file,
    the_last_inode, the_last_serial, the_last_serial_but_one, the_time_between_snapshots,
};
pub use turn_laws::{
    a_mount_for_reading_changes_no_tree, a_refusal_leaves_tree_and_sessions,
    a_turn_finds_the_trees_of_its_two_states, a_turn_tells_at_most_three_things,
    a_turn_without_faults_is_a_function, trees_stay_rooted,
};
pub use whole_laws::{
    a_whole_tree_has_each_position_once, an_operation_keeps_long_names_in_use,
    an_operation_keeps_the_tree_bounded, an_operation_keeps_the_tree_whole,
    the_empty_tree_is_whole, trees_keep_the_inodes_of_the_volume, trees_stay_sound,
    what_an_operation_writes_is_present,
};

#[cfg(test)]
mod tests;

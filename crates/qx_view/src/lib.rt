//! What an image means: its tree, whether it is sound, and the checker's verdict.
//!
//! Stands on `qx_nodes`, `qx_records` and `qx_super` for what bytes say, and on `qx_model` for the tree; the walk, the mount and the snapshots stand on it.
//! Its contract: the definitions of `specs/Entries.antt`, `Reading.antt`, `Walk.antt` and `Sound.antt`, and the laws below about them.
//! It keeps no state and takes no memory; of its code only the numbers of codes and reasons run.
#![tactic(auto)]

mod examples;
mod findings;
mod images;
mod kinds;
mod laws;
mod reasons;
mod volumes;

pub use examples::{
    a_new_volume_is_clean, the_findings_of_changed_volumes, the_last_findings_of_changed_volumes,
    the_leaves_under_levels, the_numbers_of_codes, the_numbers_of_reasons,
    the_reasons_of_changed_volumes, the_usage_of_a_new_volume, the_walk_in_both_orders,
    the_walk_of_a_vast_directory, the_walk_of_two_directories,
};
pub use findings::{Code, Finding};
pub use images::{
    the_small_image_cut_short, the_small_image_is_clean, the_small_image_with_changed_blocks,
    the_small_image_with_changed_superblocks,
};
pub use kinds::{the_attributes_of_counted_bytes, the_tree_of_each_kind};
pub use laws::{
    a_sound_image_has_a_place_for_each_inode, a_tree_means_no_finding,
    an_entry_is_read_by_its_content, clean_images_are_the_sound_ones,
    damaged_images_have_a_finding, foreign_images_have_a_tree, held_blocks_decide_the_tree,
    names_are_read_alike, no_finding_means_a_tree, records_in_holes_say_nothing,
    roots_have_one_tree, the_active_half_is_held, the_records_of_a_leaf,
    the_records_of_present_leaves_say_all, the_walk_comes_to_the_reached_inodes,
    the_walk_counts_the_links, the_walk_meets_the_held_blocks, what_soundness_depends_on,
};
pub use reasons::{Foreign, Reason};
pub use volumes::{
    a_long_name_has_one_row, a_volume_of_eighteen_inodes, a_volume_with_pointer_blocks,
    the_dots_of_long_records, the_sums_of_a_byte_above_127, the_walk_of_the_root_nodes,
    the_walk_of_three_directories, the_walk_takes_what_was_listed_first, the_worked_images,
};

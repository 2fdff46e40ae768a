//! The shell's theorem: what a run of a script promises, whatever fails and wherever power is cut.
//!
//! Stands on `qx_words` for lines and texts, `qx_model` for the machine, `qx_view` for images and `qx_outside` for the trail; the run stands on it.
//! Its contract: the statement of `specs/Headline.antt` with the definitions that it names, and the laws below about them.
//! It keeps no state, takes no memory and has no code that runs.
#![tactic(auto)]

mod cut_laws;
mod end_laws;
mod reply_laws;
mod run_laws;

pub use cut_laws::{
    allowed_trees_are_of_neighbours, an_answered_sync_leaves_one_tree, cuts_come_at_each_prefix,
    cuts_find_neighbours, what_a_cut_leaves_can_be_mounted,
};
pub use end_laws::{
    a_run_of_nothing_is_one, a_run_that_ends_well_leaves_its_tree,
    the_last_text_tells_how_a_run_ends,
};
pub use reply_laws::{
    a_silent_run_is_refused, whole_texts_are_acknowledged, without_faults_a_run_ends_well,
    without_faults_the_output_is_the_machines,
};
pub use run_laws::{a_newline_parts_a_script, turns_are_added_at_the_end, turns_keep_a_run_safe};

//! Words, lines and texts: what the lines of a script ask for, and what turns print.
//!
//! Stands on `qx_model` for acts, replies and turns; the run of a shell stands on it.
//! Its contract: `specs/Lines.antt` says which bytes read as which line and where the others go wrong, `specs/Texts.antt` what the text of each turn is.
//! It keeps no state, and takes memory for the words of a line alone.
#![tactic(auto)]

mod arguments;
mod grammar;
mod laws;
mod line;
mod line_examples;
mod random_scripts;
mod reading;
mod script_examples;
mod telling_scripts;
mod text_examples;
mod texts;
mod words;

pub use laws::{one_reading, where_a_line_goes_wrong};
pub use line::{LINE_LIMIT, Line, LineFault};
pub use line_examples::{lines_that_are_read, lines_that_go_wrong};
pub use random_scripts::{
    random_scripts_of_directories, random_scripts_of_names, random_scripts_that_lack_room,
};
pub use reading::read_line;
pub use script_examples::{
    a_script_at_the_last_serial, a_script_of_directories, a_script_of_links,
    a_script_of_two_sessions, a_script_under_a_hold, a_script_with_a_timed_snapshot,
    a_script_with_holes, lines_of_a_script, lines_without_a_reading,
};
pub use telling_scripts::{
    removals_may_use_the_reserve, what_a_move_and_a_write_change, when_snapshots_are_made,
    where_names_lead,
};
pub use text_examples::{the_texts_of_refusals, the_texts_of_replies};
pub use texts::print_short;

#[cfg(test)]
mod tests;

//! The nodes of a working tree are changed together, where they find room.
//!
//! Stands on `qx_batch` for changes of nodes by number, on `qx_working` for who has which node and on `qx_placing` for where their blocks stand; operations stand on it.
//! Its contract: `change_nodes` makes all planned changes or none, and says where they don't fit; `put_bytes` puts what is to stand in the leaves that they wrote. `AreWritten` of `specs/Made.antt` says what has become of all nodes, and `HasEdited` of `specs/Edited.antt` what an operation that edits the tree has made.
//! It keeps no state. A refusal leaves the working tree and every block of it as they were.
#![tactic(auto)]

mod changing;
mod edited_laws;
mod laws;
mod putting;

pub use changing::{Room, change_nodes};
pub use edited_laws::{a_state_of_ours_stands_for_ids, an_edited_state_stands};
pub use laws::{a_state_stays_readable, what_was_written_takes_bytes};
pub use putting::{Bytes, put_bytes};

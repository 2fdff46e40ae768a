//! The top call: what the words ask for, done over any host, up to the exit status.
//!
//! Stands on `qx_check`, `qx_make`, `qx_super` and `qx_outside`; the program `qx6` calls it with the real host.
//! Its contract: `run` does what `specs/Run.antt` says of what the words ask for, gives exactly the line that belongs to it, and ends with a status that has its cause.
//! It keeps no state between calls, and takes memory in the checker alone.
//! It never writes to the device but through `qx_make`.
#![tactic(auto)]

mod checker;
mod lines;
mod maker;
mod reports;
mod sizes;
mod status;
mod supers;
mod top;
mod words;

pub use lines::Line;
pub use reports::say;
pub use status::Status;
pub use top::{Ended, run};

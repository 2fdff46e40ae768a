//! The checker: the verdict on an image.
//!
//! Stands on `qx_walk`, which walks the image; the top call stands on it.
//! Its contract: `check` answers the verdict of `qx_view`'s definitions on the device's bytes, exactly.
//! It keeps no state.
//! It writes nothing and asks for no sync, whatever the image holds.
#![tactic(auto)]

mod checking;
mod verdict;

pub use checking::check;
pub use verdict::{CheckFault, Verdict};

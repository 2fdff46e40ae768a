//! Changed blocks, kept by number until they are written.
//!
//! Stands on `qx_bytes` for the bytes that a block gets; the cache keeps its changed blocks in one.
//! Its contract: `Patch`, which contracts see as a finite map from block numbers to bytes, and how many more blocks have room (`specs/PatchState.antt`).
//! The blocks stand in ascending order, and the room is taken beforehand.
//! It takes no memory but in `reserve`, and looks at no block where a search by halves will do.
#![tactic(auto)]

mod patch;

pub use patch::Patch;

#[cfg(test)]
mod tests;

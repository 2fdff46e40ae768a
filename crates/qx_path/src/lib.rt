//! Paths: the names that bytes lead through.
//!
//! Stands on `thiserror` alone; operations and the walk along directories stand on it.
//! Its contract: `Path::parse` answers the path that `specs/PathParts.antt` reads from the bytes, or why they are none.
//! A path has 1 to 1,023 bytes, no byte 0 and no name of more than 510 bytes, as long as it lives.
//! It keeps only the bytes that it is lent, takes no memory and follows nothing.
#![tactic(auto)]

mod fault;
mod laws;
mod names;
mod path;

pub use fault::PathFault;
pub use laws::names_of_joined_bytes;
pub use names::Components;
pub use path::Path;

#[cfg(test)]
mod tests;

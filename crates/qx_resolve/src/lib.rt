//! Paths over blocks: where a path leads in the tree for which a working state stands.
//!
//! Stands on `qx_lookup` for names in directories, on `qx_file` for the targets of links and on `qx_path` for names in bytes; operations on paths stand on it.
//! Its contract: each call answers what `qx_model/specs/Paths.antt` says of each tree for which the state stands, or that the device failed or memory is wanting.
//! It keeps no state. A walk takes one buffer of the names to come, once it follows a link, and a second while it joins the next target to them.
//! It changes nothing, follows at most 16 links, and reads no target of a link that it doesn't follow.
#![tactic(auto)]

mod following;
mod last;
mod leads;
mod links;
mod named;
mod parsing;
mod paths;
mod walking;

pub use last::LastLink;
pub use links::read_link;
pub use named::Named;
pub use parsing::parse;
pub use paths::{Place, directory, inode_at, parent_at, place_at};

#[cfg(test)]
mod tests;

//! The working tree in memory: inodes, links and the node of the Longfile, as operations change them.
//!
//! Stands on `qx_itable` for inodes, on `qx_copies` for what a copy stands for and on `qx_batch` for nodes by number; operations, the walk's end and volumes stand on it.
//! Its contract: `Links`, which contracts see as the link of each number (`specs/Links.antt`), and `Working`, whose nodes are lent and put by number (`specs/States.antt`).
//! It keeps what it is given: that state and blocks stand for one tree is `StandsForTree` of `specs/Standing.antt`, which operations ask and keep.
//! It reads and writes no block, and takes no memory but where one is made.
#![tactic(auto)]

mod laws;
mod links;
mod working;

pub use laws::{
    a_link_is_set, a_node_is_put, links_follow_one_inode, the_nodes_of_a_state_are_laid,
};
pub use links::{Link, Links};
pub use working::Working;

#[cfg(test)]
mod tests;

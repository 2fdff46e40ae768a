//! Sets of block numbers below a limit, a bit each.
//!
//! Stands on nothing; the walk, which marks the blocks that it meets, and the sets of held blocks stand on it.
//! Its contract: `BlockSet`, which contracts see as a list with a truth for each number below the limit (`specs/Members.antt`).
//! The count of members is kept beside the bits; only a union, which goes over all words, counts them anew.
//! It takes no memory but in `new`, and looks at no number where a word of 64 will do.
#![tactic(auto)]

mod set;

pub use set::BlockSet;

#[cfg(test)]
mod tests;

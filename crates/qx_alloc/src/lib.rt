//! Space: which blocks the working tree, the frozen one and the durable one hold, and which are free.
//!
//! Stands on `qx_blockset` for sets of blocks; the cache takes and gives up its blocks by it.
//! Its contract: `Space`, which contracts see as the sets of blocks of three trees (`specs/SpaceState.antt`), each call being one step of them.
//! The blocks of the three are kept together in one set as well, so that a free block is one that this set lacks.
//! It takes no memory but in `new`, and a snapshot that begins or ends looks at no block where a word of 64 will do.
#![tactic(auto)]

mod space;

pub use space::Space;

#[cfg(test)]
mod tests;

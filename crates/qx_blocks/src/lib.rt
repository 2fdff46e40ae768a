//! Blocks: what pointer trees, files and operations know of a device.
//!
//! Stands on `qx_outside` for counts of faults and `qx_bytes` for the bytes that a block gets; the cache is one of its implementers, and all that follows pointers stands on it.
//! Its contract: the trait `Blocks`, in whose clauses each call is one step of the meaning in `specs/BlockState.antt`.
//! What holds of the blocks at any moment is `IsConsistent`, which the calls that only look give.
//! It makes no outside call: `MemBlocks` keeps all in memory, and `Untold` does so and tells nothing.
#![tactic(auto)]

mod blocks;
mod copy;
mod memory;
mod untold;

pub use blocks::{Blocks, Stop};
pub use copy::fresh_copy;
pub use memory::MemBlocks;
pub use untold::Untold;

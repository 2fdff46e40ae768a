//! The cache: blocks of a device, with the changed ones kept in memory until a snapshot writes them.
//!
//! Stands on `qx_blocks` for the trait that it implements, `qx_alloc` for who holds which block, `qx_patch` for changed blocks and `qx_outside` for the device; snapshots stand on it.
//! Its contract: `Cache`, which contracts see as `specs/CacheState.antt` says. The bytes of a block are the device's, with the changes over them.
//! What holds of it at any moment is `IsCoherent`: no changed block is the durable tree's, and each block that the working tree alone holds is changed.
//! It writes a block in `write_frozen` alone, and takes memory in `new` and `fresh` alone.
#![tactic(auto)]

mod blocks;
mod cache;
mod host;

pub use cache::Cache;

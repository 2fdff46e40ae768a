//! Tests of what stands on blocks: the blocks themselves, the cache over a device, pointer trees, files, and files that are changed together.
//!
//! They stand above what they test, so that a check of them doesn't prove it again.
//! What a test does with a host or with blocks stands in a function over any of them, whose check is cheaper than that of the same steps over one in memory.
#![tactic(auto)]

#[cfg(test)]
mod batches;
#[cfg(test)]
mod blocks;
#[cfg(test)]
mod cache;
#[cfg(test)]
mod file;
#[cfg(test)]
mod ptree;

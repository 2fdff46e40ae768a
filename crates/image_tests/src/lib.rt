//! Tests of the image as a whole, over a host in memory: nodes that are walked, volumes that are made and cut, and whole runs of the words.
//!
//! Stands on `qx_top` and the crates below it, so that a check of the tests doesn't prove these again; nothing stands on it.
//! What a test does with a host stands in a function over any host, whose check is cheaper than that of the same steps over the host in memory.
#![tactic(auto)]

#[cfg(test)]
mod maker;
#[cfg(test)]
mod pointers;
#[cfg(test)]
mod runs;

//! Tests of the format: the numbers of a volume, inodes, directory records, long names, superblocks and system blocks, and the host in memory.
//!
//! They stand above what they test, so that a check of them doesn't prove it again.
#![tactic(auto)]

#[cfg(test)]
mod active;
#[cfg(test)]
mod directory;
#[cfg(test)]
mod division;
#[cfg(test)]
mod example;
#[cfg(test)]
mod geometry;
#[cfg(test)]
mod inode;
#[cfg(test)]
mod kind;
#[cfg(test)]
mod long_name;
#[cfg(test)]
mod memory;
#[cfg(test)]
mod nodes;
#[cfg(test)]
mod permissions;
#[cfg(test)]
mod rows;
#[cfg(test)]
mod samples;
#[cfg(test)]
mod sums;
#[cfg(test)]
mod superblock;
#[cfg(test)]
mod system;
#[cfg(test)]
mod tree;
#[cfg(test)]
mod writing;

//! What the checker says of an image.

use qx_geom::Which;
use qx_view::{Finding, Foreign};

/// What the checker says of an image that has an active area.
#[derive(Clone, Copy, Debug, PartialEq, Eq)]
pub enum Verdict {
    /// All is right: the active area, its serial, and how many blocks and inodes are free.
    Clean {
        which: Which,
        serial: u64,
        free_blocks: u32,
        free_inodes: u32,
    },
    /// There is a tree, but it isn't laid out as this project writes it: the first reason.
    Foreign(Foreign),
    /// The first test that fails.
    Damaged(Finding),
}

/// Why there is no verdict.
#[derive(Clone, Copy, Debug, PartialEq, Eq)]
pub enum CheckFault {
    /// No area has a valid superblock.
    NoVolume,
    /// Both areas are valid, and are not of one volume.
    Disagree,
    /// A device call failed.
    Device,
    /// There was no memory for what the walk keeps.
    NoMemory,
}

//! What a choice between the two areas answers.

use crate::SuperView;
use qx_geom::Which;

/// What the two areas of an image name.
#[derive(Clone, Copy, Debug, PartialEq, Eq)]
pub enum Pick {
    /// The area whose superblock counts.
    Active(Which),
    /// No area has a valid superblock.
    None,
    /// Both are valid, and are not of one volume.
    Disagree,
}

/// The same, with the superblock that counts.
#[derive(Drop)]
pub enum Choice<'a> {
    /// The area whose superblock counts, and that superblock.
    Active(Which, SuperView<'a>),
    /// No area has a valid superblock.
    None,
    /// Both are valid, and are not of one volume.
    Disagree,
}

//! Where a tree begins, what the walk stands on, what it keeps on its way, and what it knows in the end.

use qx_blockset::BlockSet;
use qx_geom::Root;
use qx_pointers::{LeafPlace, Shape};
use qx_tables::{InodeTable, Listing, LongNames, Names};

/// The root nodes from which a tree is walked.
#[derive(Clone, Copy, Debug, PartialEq, Eq)]
pub struct RootNodes {
    pub inodes: Root,
    pub longfile: Root,
    pub bitmap: Root,
}

/// What doesn't change while records are walked.
#[derive(Drop)]
pub struct Ground {
    pub shape: Shape,
    pub table: InodeTable,
}

/// What grows while records are walked.
#[derive(Drop)]
pub struct Seen {
    /// The names of earlier rows of the directory under the walk.
    pub names: Names,
    pub longs: LongNames,
    pub listing: Listing,
}

/// The directory under the walk.
#[derive(Clone, Copy, Debug, PartialEq, Eq)]
pub struct Directory {
    pub inode: u32,
    /// The directory whose row listed it, or itself for inode 1.
    pub parent: u32,
    pub node: Root,
}

/// Where a record stands: its directory, the directory's parent, and the block that holds it.
#[derive(Clone, Copy, Debug, PartialEq, Eq)]
pub struct RecordPlace {
    pub inode: u32,
    pub parent: u32,
    pub block: u32,
}

/// The least inodes at which something isn't as this project writes it.
#[derive(Clone, Copy, Debug, PartialEq, Eq)]
pub struct Notes {
    /// The least inode whose node isn't: 0 for the Longfile.
    pub nodes: Option<u32>,
    /// The least directory whose first two records aren't `.` and `..`, where no node is noted.
    pub dots: Option<u32>,
    /// The least inode with a byte past its size: 0 for the Inode tree.
    pub tails: Option<u32>,
}

/// What the walk keeps of the nodes that it went through.
#[derive(Drop)]
pub(crate) struct Way {
    /// The blocks that were met.
    pub(crate) met: BlockSet,
    /// The leaves of the directory under the walk.
    pub(crate) leaves: Vec<LeafPlace>,
    pub(crate) notes: Notes,
    // Room for the bytes past a node's size.
    pub(crate) tail: [u8; 4096],
}

/// A tree that was walked without a finding.
#[derive(Drop)]
pub struct Walked {
    /// The blocks that were met.
    pub met: BlockSet,
    /// The inodes that were reached: inode n has bit n - 1.
    pub reached: BlockSet,
    /// How many inodes were reached.
    pub live: u32,
    pub table: InodeTable,
    pub notes: Notes,
    /// The least long name that wasn't named exactly once, or 0 where the Longfile's size is no multiple of the block size.
    pub long: Option<u64>,
}

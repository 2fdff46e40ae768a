//! Why an image with a tree isn't laid out as this project writes it.
ghost use Rattle.std.specs.Prelude.{◌≡◌};
ghost use Rattle.qx_view.specs.Numbers.{reason_number};

/// A reason for which an image is foreign, with the number that is printed of it.
#[derive(Clone, Copy, Debug, PartialEq, Eq)]
pub enum Reason {
    /// The superblock has other numbers than this project writes on such a device, another version, or a fourth root node that isn't empty.
    Numbers = 1,
    /// A half isn't as the layout says, or another node has a block in the halves.
    Halves = 2,
    /// A bit of the bitmap isn't as it must be.
    Bitmap = 3,
    /// A node has more levels than it needs, a stray pointer, a bare block, or a directory's size or holes.
    Nodes = 4,
    /// A directory's first two records aren't short ones with the names `.` and `..`.
    Dots = 5,
    /// A reached inode is special or has other bytes than this project writes, or one that isn't reached has a byte that isn't 0.
    Inodes = 6,
    /// The Longfile ends within a leaf, or a leaf of it isn't named by exactly one record.
    LongNames = 7,
}

impl Reason {
    /// The number that is printed, from 1 to 7.
    pub fn number(self) -> u8
        ensures { result ≡ reason_number self }
    {
        self as u8
    }
}

/// The first reason for which an image is foreign.
#[derive(Clone, Copy, Debug, PartialEq, Eq)]
pub struct Foreign {
    pub reason: Reason,
    /// The least block, inode or long name to which it applies: 0 for the numbers, the halves and the Longfile's node and size.
    pub at: u64,
}

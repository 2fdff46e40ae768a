//! What is found wrong in an image: which test fails, and where.
ghost use Rattle.std.specs.Prelude.{◌≡◌};
ghost use Rattle.qx_view.specs.Numbers.{code_number};

/// A test of the walk, with the number that is printed where it fails.
#[derive(Clone, Copy, Debug, PartialEq, Eq)]
pub enum Code {
    /// A node has more than 5 levels, or more bytes than they reach, than 2^48 or, as a root node, than all blocks.
    Levels = 1,
    /// A pointer leads past the blocks.
    Pointer = 2,
    /// A pointer leads to a block that was met before.
    Twice = 3,
    /// The Inode tree has no place for the inode that a row names, or for inode 1.
    NoInode = 4,
    /// The mode of an inode that a row names says no kind, or inode 1 is no directory.
    Kind = 5,
    /// A link has no bytes, or more than 1,023.
    LinkSize = 6,
    /// A record's length is one of no record: 28 to 254.
    Record = 7,
    /// The long name of a record isn't there, or has a length of none.
    LongName = 8,
    /// The checksum of a record isn't that of its long name.
    LongSum = 9,
    /// An earlier row of the directory has the name.
    SameName = 10,
    /// A name has a byte 0 or `/`.
    NameByte = 11,
    /// A row `.` doesn't name its directory, or a row `..` not the parent.
    Dots = 12,
    /// A row names a directory that was listed before.
    DirTwice = 13,
    /// A byte past the size, in a node's last leaf, isn't 0.
    Tail = 14,
    /// The superblock's free blocks or free inodes are wrong.
    Counts = 15,
}

impl Code {
    /// The number that is printed, from 1 to 15.
    pub fn number(self) -> u8
        ensures { result ≡ code_number self }
    {
        self as u8
    }
}

/// A test that failed.
#[derive(Clone, Copy, Debug, PartialEq, Eq)]
pub struct Finding {
    pub code: Code,
    /// The inode under the walk, 0 for root nodes and for counts.
    pub inode: u32,
    /// The block in question, or `ABSENT`.
    pub block: u32,
}

//! What is answered to an act.
use crate::{Attr, Refusal, RowList};
use qx_outside::ByteList;

/// An answer to an act.
#[derive(Drop)]
pub enum Reply {
    /// The act is done, and says nothing else.
    Done,
    /// The rows of a directory.
    Rows(RowList),
    /// What is said of an inode.
    Stat(StatView),
    /// The bytes of a file.
    Bytes(ByteList),
    /// The target of a link.
    Target(ByteList),
    /// How much is in use.
    Space(SpaceView),
    /// The act is refused.
    Refused(Refusal),
}

/// What is said of one inode.
#[derive(Clone, Copy, Debug, PartialEq, Eq)]
pub struct StatView {
    /// 1 for a directory, 2 for a file, 3 for a link, 4 for a special.
    pub kind: u8,
    /// Its number, from 1 on.
    pub inode: u32,
    /// In bytes; 0 for a special.
    pub size: u64,
    /// How many rows name it, `.` and `..` not counted.
    pub links: u64,
    pub attr: Attr,
}

/// How much of a volume is in use.
#[derive(Clone, Copy, Debug, PartialEq, Eq)]
pub struct SpaceView {
    /// All blocks of the volume.
    pub blocks: u32,
    /// The blocks for files, directories and names; of a foreign image all blocks.
    pub user: u32,
    /// The blocks of these that no tree holds.
    pub free: u64,
    /// All inodes of the volume.
    pub inodes: u32,
    /// The inodes that aren't live.
    pub free_inodes: u32,
    /// The serial of the last snapshot that is done.
    pub serial: u64,
}

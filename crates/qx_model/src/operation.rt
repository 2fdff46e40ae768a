//! What may be asked of a tree.
ghost use Rattle.std.specs.Prelude.{◌≡◌};
ghost use Rattle.qx_model.specs.Requests.{changes};

use qx_outside::ByteList;

/// An operation on a tree. Paths and targets are bytes as they were given; places, sizes and counts are in bytes, times in seconds since 1970.
#[derive(Drop)]
pub enum Op {
    /// The rows of a directory, but `.` and `..`.
    List {
        path: ByteList,
    },
    /// What is said of an inode; a link at the end isn't followed.
    Stat {
        path: ByteList,
    },
    /// The bytes of a file from a place on, at most `count`, as far as the file goes.
    Read {
        path: ByteList,
        at: u64,
        count: u32,
    },
    /// An empty file.
    Create {
        path: ByteList,
    },
    /// A directory with `.` and `..` alone.
    Mkdir {
        path: ByteList,
    },
    /// Bytes put into a file at a place. What lies between the old end and the place reads as 0.
    Write {
        path: ByteList,
        at: u64,
        bytes: ByteList,
    },
    /// One byte put so many times.
    Fill {
        path: ByteList,
        at: u64,
        count: u64,
        byte: u8,
    },
    /// A file cut or grown to a size. What grows reads as 0.
    Truncate {
        path: ByteList,
        size: u64,
    },
    /// A row goes that names no directory, and its inode with the last one.
    Remove {
        path: ByteList,
    },
    /// A directory goes that has no row but `.` and `..`.
    RemoveDir {
        path: ByteList,
    },
    /// A row moves, also onto another one.
    Rename {
        from: ByteList,
        to: ByteList,
    },
    /// One more row for an inode that is no directory and no special.
    Link {
        old: ByteList,
        new: ByteList,
    },
    /// A link to a target, which needn't be there.
    Symlink {
        target: ByteList,
        new: ByteList,
    },
    /// The target of a link.
    ReadLink {
        path: ByteList,
    },
    /// The low 12 bits of a mode.
    Chmod {
        path: ByteList,
        mode: u16,
    },
    /// Owner and group.
    Chown {
        path: ByteList,
        uid: u32,
        gid: u32,
    },
    /// The times of the last reading and of the last change of the bytes.
    Utime {
        path: ByteList,
        atime: u32,
        mtime: u32,
    },
}

impl Op {
    /// Whether it may change the tree.
    pub fn changes(&self) -> bool
        ensures { result ≡ changes self.now }
    {
        !matches!(
            self,
            Op::List { .. } | Op::Stat { .. } | Op::Read { .. } | Op::ReadLink { .. }
        )
    }
}

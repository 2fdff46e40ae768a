//! Why an act is refused.
ghost use Rattle.std.specs.Prelude.{◌≡◌};
ghost use Rattle.qx_model.specs.Refusals.{refusal_number};

/// Why an act is refused, in the order of the numbers.
#[derive(Clone, Copy, Debug, PartialEq, Eq)]
pub enum Refusal {
    /// A name of a path isn't there, or the path begins in a directory that was removed.
    NoEntry,
    /// A name of a path leads on from what is no directory, or a directory is wanted.
    NotDir,
    /// A directory stands where none may.
    IsDir,
    /// The new name is taken.
    Exists,
    /// The directory has rows besides `.` and `..`.
    NotEmpty,
    /// A name has more than 510 bytes.
    NameTooLong,
    /// The bytes are no path: none, more than 1,023, or a byte 0 among them.
    BadPath,
    /// More than 16 links would be followed.
    LinkLoop,
    /// The inode is no file where a file is wanted, no link where a link is, or a special.
    WrongKind,
    /// The end would lie past 2^48 bytes.
    FileTooBig,
    /// So many fresh blocks are needed, and so many are free; an operation that doesn't remove leaves 16 of these.
    NoSpace { need: u64, free: u64 },
    /// All inodes are live.
    NoInodes,
    /// The volume is mounted for reading.
    ReadOnly,
    /// A directory would come below itself.
    IntoItself,
    /// The last name of a path is `.`, `..` or missing.
    Reserved,
    /// A call of the device failed.
    Device,
    /// Memory is wanting.
    NoMemory,
    /// So many sessions, 1 to 16, keep new snapshots away.
    Held { count: u8 },
    /// The last serial, 2^64 - 1, is spent.
    SerialEnd,
    /// The number of the session is above 15.
    NoSession,
    /// The line has no reading; so many of its bytes begin some line that has one. Of a line above 8,192 bytes 8,192 is said.
    BadLine { at: u32 },
}

impl Refusal {
    /// The number by which texts name it, 1 to 21.
    pub fn number(self) -> u8
        ensures { result ≡ refusal_number self }
    {
        match self {
            Refusal::NoEntry => 1,
            Refusal::NotDir => 2,
            Refusal::IsDir => 3,
            Refusal::Exists => 4,
            Refusal::NotEmpty => 5,
            Refusal::NameTooLong => 6,
            Refusal::BadPath => 7,
            Refusal::LinkLoop => 8,
            Refusal::WrongKind => 9,
            Refusal::FileTooBig => 10,
            Refusal::NoSpace { .. } => 11,
            Refusal::NoInodes => 12,
            Refusal::ReadOnly => 13,
            Refusal::IntoItself => 14,
            Refusal::Reserved => 15,
            Refusal::Device => 16,
            Refusal::NoMemory => 17,
            Refusal::Held { .. } => 18,
            Refusal::SerialEnd => 19,
            Refusal::NoSession => 20,
            Refusal::BadLine { .. } => 21,
        }
    }
}

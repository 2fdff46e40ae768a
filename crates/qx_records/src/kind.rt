//! The kinds of inodes.
ghost use Rattle.std.specs.Prelude.{◌≡◌};
ghost use Rattle.qx_records.specs.InodeRecord.{kind_of};
ghost use Rattle.qx_records.specs.KindNumber.{number_of, kind_number_of};

/// What an inode is, by the top four bits of its mode (POSIX's file types).
#[derive(Clone, Copy, Debug, PartialEq, Eq)]
pub enum Kind {
    Directory,
    File,
    Link,
    /// A device, a pipe or a socket: it has no bytes.
    Special,
}

impl Kind {
    /// The kind that a mode says, if it says one.
    #[tactic(auto, unfolding(crate::specs::InodeRecord::kind_of))]
    pub fn of(mode: u16) -> Option<Kind>
        ensures { result ≡ kind_of mode }
    {
        match mode / 0x1000 {
            0x4 => Some(Kind::Directory),
            0x8 => Some(Kind::File),
            0xA => Some(Kind::Link),
            0x1 | 0x2 | 0x6 | 0xC => Some(Kind::Special),
            _ => None,
        }
    }

    /// The number by which the kind is told outside: 1 directory, 2 file, 3 link, 4 special.
    pub fn number(self) -> u8
        ensures { result ≡ number_of self }
    {
        match self {
            Kind::Directory => 1,
            Kind::File => 2,
            Kind::Link => 3,
            Kind::Special => 4,
        }
    }
}

/// The number of the kind that a mode says, or 0 where it says none.
pub fn kind_number(mode: u16) -> u8
    ensures { result ≡ kind_number_of mode }
{
    Kind::of(mode).map_or(0, Kind::number)
}

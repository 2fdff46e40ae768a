//! The two superblock areas, and the two halves of the system blocks that belong to them.
ghost use Rattle.std.specs.Prelude.{◌≡◌};
ghost use Rattle.qx_geom.specs.Area.{area_number, other_area};

/// One of the two areas: the one that begins at byte 0x2000, or the one behind the last block.
#[derive(Clone, Copy, Debug, PartialEq, Eq)]
pub enum Which {
    First,
    Second,
}

impl Which {
    /// The number by which texts name the area, 1 or 2.
    pub fn number(self) -> u8
        ensures { result ≡ area_number self }
    {
        match self {
            Which::First => 1,
            Which::Second => 2,
        }
    }

    /// The area that takes its turn next.
    pub fn other(self) -> Which
        ensures { result ≡ other_area self }
    {
        match self {
            Which::First => Which::Second,
            Which::Second => Which::First,
        }
    }
}

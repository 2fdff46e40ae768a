//! What a change makes of the part of a node that lies below one position.
ghost use Rattle.std.specs.Prelude.{◌≡◌, ◌≤◌, ◌<◌, ◌+◌, ◌^◌};
ghost use Rattle.qx_ptree.specs.Parts.{beside as parts_beside, full_below, leaf_part as leaf_part_of, own_need as own_need_of};

use crate::change::Fate;

#[derive(Clone, Copy, Debug, PartialEq, Eq)]
pub(crate) struct Part {
    // The fresh blocks that it takes.
    pub(crate) need: u64,
    // Whether a leaf is written, comes or goes.
    pub(crate) changed: bool,
    // Whether a leaf is present afterwards.
    pub(crate) present: bool,
}

impl Part {
    // Two parts side by side.
    pub(crate) fn beside(self, other: Part) -> Part
        requires { self.need + other.need < 2 ^ 64 }
        ensures { result ≡ parts_beside self other }
    {
        Part {
            need: self.need + other.need,
            changed: self.changed || other.changed,
            present: self.present || other.present,
        }
    }
}

// What is known of a leaf by its fate.
pub(crate) fn leaf_part(fate: Fate, had: bool, private: bool) -> Part
    ensures { result ≡ leaf_part_of fate had private }
{
    match fate {
        Fate::Stays => Part {
            need: 0,
            changed: false,
            present: had,
        },
        Fate::Written => Part {
            need: own_need(had, private, true, true),
            changed: true,
            present: true,
        },
        Fate::Goes => Part {
            need: 0,
            changed: had,
            present: false,
        },
    }
}

// The fresh blocks that a block itself takes, one or none.
pub(crate) fn own_need(had: bool, private: bool, changed: bool, present: bool) -> u64
    ensures need { result ≡ own_need_of had private changed present }
    ensures few { result ≤ 1 }
{
    if present && (!had || (changed && !private)) {
        1
    } else {
        0
    }
}

// The blocks of a part that is all there, its own block among them.
pub(crate) fn full(words: u64, level: u8) -> u64
    requires words { (128 ≤ words) × (words ≤ 1024) }
    requires level { level ≤ 5 }
    ensures { result ≡ full_below words level }
{
    let mut blocks = 1;
    for _ in 0..level {
        blocks = blocks * words + 1;
    }
    blocks
}

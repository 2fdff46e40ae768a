//! What a walk answers.

use qx_blockset::BlockSet;
use qx_fields::Order;
use qx_geom::Which;
use qx_pointers::Halt;
use qx_view::{Finding, Foreign};

/// What an image is that has a tree.
#[derive(Drop)]
pub struct Survey {
    /// The active area.
    pub which: Which,
    pub serial: u64,
    pub order: Order,
    /// When the volume was made, in seconds since 1970.
    pub ctime: u32,
    /// The size of a block, in bytes.
    pub blocksize: u32,
    pub num_blocks: u32,
    pub num_inodes: u32,
    /// The blocks that the tree holds, those of the system trees among them.
    pub held: BlockSet,
    /// How many inodes are reached.
    pub live: u32,
    /// How many blocks are free: of a sound image as its superblock says, of a foreign one all that the walk didn't meet.
    pub free_blocks: u32,
    /// The first reason for which the image is foreign, if there is one.
    pub foreign: Option<Foreign>,
}

/// Why a walk gives no survey.
#[derive(Clone, Copy, Debug, PartialEq, Eq)]
pub enum WalkFault {
    /// No area has a valid superblock.
    NoVolume,
    /// Both areas are valid, and are not of one volume.
    Disagree,
    /// The image is damaged: the first test that fails.
    Finding(Finding),
    /// A device call failed.
    Device,
    /// There was no memory for what the walk keeps.
    NoMemory,
}

impl WalkFault {
    ghost use Rattle.std.specs.Prelude.{◌≡◌};
    ghost use Rattle.qx_walk.specs.Surveys.{fault_of};

    /// The fault of a walk that halted.
    pub fn of(halt: Halt) -> WalkFault
        ensures { result ≡ fault_of halt }
    {
        match halt {
            Halt::Finding(finding) => WalkFault::Finding(finding),
            Halt::Device => WalkFault::Device,
            Halt::NoMemory => WalkFault::NoMemory,
        }
    }
}

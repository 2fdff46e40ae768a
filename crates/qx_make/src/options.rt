//! What a maker is asked for, and what it answers.

use qx_fields::Order;
use qx_geom::GeomFault;
use qx_outside::Failed;
use thiserror::Error;

/// The numbers of a volume that is to be made.
#[derive(Clone, Copy, Debug, PartialEq, Eq)]
pub struct MakeOptions {
    /// The device's length in bytes, which is set.
    pub size: u64,
    /// Bytes of a block: 512, 1024, 2048 or 4096.
    pub blocksize: u32,
    /// Inodes, 16 to 1,048,576.
    pub inodes: u32,
    /// The order of all numbers.
    pub order: Order,
    /// The moment of making, in seconds since 1970.
    pub moment: u32,
}

/// The numbers of a volume that was made.
#[derive(Clone, Copy, Debug, PartialEq, Eq)]
pub struct Made {
    /// Blocks between the two areas.
    pub blocks: u32,
    /// Blocks that are no half's.
    pub user: u32,
    /// Blocks that nothing holds: all but one of these, which has the root directory.
    pub free: u32,
    /// Inodes, the root directory's among them.
    pub inodes: u32,
}

/// Why no volume was made.
#[derive(Clone, Copy, Debug, PartialEq, Eq, Error)]
pub enum MakeFault {
    /// The numbers are those of no volume. Nothing was asked of the device.
    #[error("the numbers are those of no volume: {0}")]
    Geom(GeomFault),
    /// A device call failed. What was begun is left: on a device that was ready for it no volume, or the old one, or the new one.
    #[error("a device call failed")]
    Device,
}

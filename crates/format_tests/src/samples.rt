//! Superblocks for tests, with a right checksum.

use qx_fields::{Order, put32, put64};
use qx_super::{MAGIC, checksum};

/// The numbers of a superblock that tests turn.
#[derive(Clone, Copy)]
pub struct Sample {
    pub order: Order,
    pub serial: u64,
    pub blocksize: u32,
    pub num_inodes: u32,
    pub num_blocks: u32,
}

/// A volume of 96 blocks on a device of 65536 bytes: its second area stands at 61440.
pub const SMALL: Sample = Sample {
    order: Order::Little,
    serial: 1,
    blocksize: 512,
    num_inodes: 16,
    num_blocks: 96,
};

/// The length of the device that has it.
pub const SMALL_LEN: u64 = 65536;

impl Sample {
    /// The superblock's 512 bytes.
    pub fn bytes(&self) -> [u8; 512] {
        let mut bytes = [0; 512];
        put32(self.order, &mut bytes, 0, MAGIC);
        put64(self.order, &mut bytes, 8, self.serial);
        put32(self.order, &mut bytes, 48, self.blocksize);
        put32(self.order, &mut bytes, 52, self.num_inodes);
        put32(self.order, &mut bytes, 60, self.num_blocks);
        let sum = checksum(&bytes[8..]);
        put32(self.order, &mut bytes, 4, sum);
        bytes
    }
}

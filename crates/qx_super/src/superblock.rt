//! A superblock, read from lent bytes.
ghost use Rattle.std.specs.Prelude.{◌≡◌, length};
ghost use Rattle.qx_super.specs.Superblock.{order_of, fits_device, fields_in};

use crate::{checksum, read_root};
use qx_fields::{Order, get16, get32, get64};
use qx_geom::{BLOCKS_BEGIN, Root};
use std::marker::Model;
use thiserror::Error;

/// The number that a superblock begins with (`QNX6_SUPER_MAGIC` of `linux/magic.h`).
pub const MAGIC: u32 = 0x6819_1122;

/// The bytes of a superblock (`qnx6_fs.h`).
const SUPER_BYTES: u64 = 512;

/// Why 512 bytes are no valid superblock of a device, in the order of the tests.
#[derive(Clone, Copy, Debug, PartialEq, Eq, Error)]
pub enum SuperFault {
    /// The magic stands there in neither order.
    #[error("no superblock's magic")]
    Magic,
    /// The checksum differs from that of bytes 8 to 511.
    #[error("the checksum differs")]
    Checksum,
    /// The block size is none of the four, there is no block, or the device is too short (this project's own test).
    #[error("the blocks don't fit the device")]
    Geometry,
}

/// The four root nodes of a superblock.
#[derive(Clone, Copy, Debug, PartialEq, Eq)]
pub enum RootName {
    Inode,
    Bitmap,
    Longfile,
    Fourth,
}

/// A valid superblock: 512 bytes that are lent, and the order of their numbers.
#[derive(Drop)]
pub struct SuperView<'a> {
    order: Order,
    bytes: &'a [u8],
}

impl<'a> Model for SuperView<'a> {
    ghost use Rattle.std.specs.Prelude.{◌≡◌, length};
    ghost use Rattle.qx_super.specs.Superblock.{Superblock, fields_in};

    ghost Value = { Superblock };

    ghost view = { λ s. fields_in s.order s.bytes.now };

    ghost invariant = { λ s. length s.bytes.now ≡ 512 };
}

impl<'a> SuperView<'a> {
    ghost use Rattle.std.specs.Prelude.{◌≡◌, length};
    ghost use Rattle.qx_super.specs.Superblock.{superblock_of, second_place_of, root_named};

    /// The superblock that the bytes are on a device of `len` bytes, or the first test that fails.
    #[tactic(auto, using(crate::proofs::ValidSuperblocks::superblock_of_valid))]
    pub fn read(bytes: &'a [u8], len: u64) -> Result<SuperView<'a>, SuperFault>
        requires { length bytes.now ≡ 512 }
        ensures { result ≡ superblock_of bytes.now len }
    {
        let Some(order) = order_in(bytes) else {
            return Err(SuperFault::Magic);
        };
        if get32(order, bytes, 4) != checksum(&bytes[8..]) {
            return Err(SuperFault::Checksum);
        }
        if !do_blocks_fit(order, bytes, len) {
            return Err(SuperFault::Geometry);
        }
        Ok(SuperView { order, bytes })
    }

    /// The order of all numbers of the volume.
    pub fn order(&self) -> Order
        ensures { result ≡ self.now.order }
    {
        self.order
    }

    /// The number by which the later of two superblocks is known.
    pub fn serial(&self) -> u64
        ensures { result ≡ self.now.serial }
    {
        get64(self.order, self.bytes, 8)
    }

    /// The bytes of a block: 512, 1024, 2048 or 4096.
    pub fn blocksize(&self) -> u32
        ensures { result ≡ self.now.blocksize }
    {
        get32(self.order, self.bytes, 48)
    }

    /// How many inodes the volume has, in use or not.
    pub fn num_inodes(&self) -> u32
        ensures { result ≡ self.now.num_inodes }
    {
        get32(self.order, self.bytes, 52)
    }

    /// How many inodes are said to be free.
    pub fn free_inodes(&self) -> u32
        ensures { result ≡ self.now.free_inodes }
    {
        get32(self.order, self.bytes, 56)
    }

    /// How many blocks the volume has, from block 0 on.
    pub fn num_blocks(&self) -> u32
        ensures { result ≡ self.now.num_blocks }
    {
        get32(self.order, self.bytes, 60)
    }

    /// How many blocks are said to be free.
    pub fn free_blocks(&self) -> u32
        ensures { result ≡ self.now.free_blocks }
    {
        get32(self.order, self.bytes, 64)
    }

    /// The first of the two version numbers.
    pub fn version1(&self) -> u16
        ensures { result ≡ self.now.version1 }
    {
        get16(self.order, self.bytes, 28)
    }

    /// The moment at which the volume was made, in seconds since 1970.
    pub fn ctime(&self) -> u32
        ensures { result ≡ self.now.ctime }
    {
        get32(self.order, self.bytes, 16)
    }

    /// The byte at which the second area stands, behind the last block.
    pub fn second_place(&self) -> u64
        ensures { result ≡ second_place_of self.now }
    {
        BLOCKS_BEGIN + u64::from(self.num_blocks()) * u64::from(self.blocksize())
    }

    /// One of the four root nodes.
    pub fn root(&self, name: RootName) -> Root
        ensures { result ≡ root_named self.now name }
    {
        match name {
            RootName::Inode => read_root(&self.bytes[72..152], self.order),
            RootName::Bitmap => read_root(&self.bytes[152..232], self.order),
            RootName::Longfile => read_root(&self.bytes[232..312], self.order),
            RootName::Fourth => read_root(&self.bytes[312..392], self.order),
        }
    }
}

/// The order in which the magic stands, if it stands in one.
#[tactic(auto, unfolding(crate::specs::Superblock::order_of))]
fn order_in(bytes: &[u8]) -> Option<Order>
    requires { length bytes.now ≡ 512 }
    ensures { result ≡ order_of bytes.now }
{
    if get32(Order::Little, bytes, 0) == MAGIC {
        Some(Order::Little)
    } else if get32(Order::Big, bytes, 0) == MAGIC {
        Some(Order::Big)
    } else {
        None
    }
}

/// Whether a device of `len` bytes has the blocks, and the second superblock behind them.
fn do_blocks_fit(order: Order, bytes: &[u8], len: u64) -> bool
    requires { length bytes.now ≡ 512 }
    ensures { result ≡ fits_device (fields_in order bytes.now) len }
{
    let blocksize = get32(order, bytes, 48);
    let blocks = get32(order, bytes, 60);
    matches!(blocksize, 512 | 1024 | 2048 | 4096)
        && blocks != 0
        && BLOCKS_BEGIN + u64::from(blocks) * u64::from(blocksize) + SUPER_BYTES <= len
}

//! A superblock, as it is written.
ghost use Rattle.std.specs.Prelude.{◌≡◌, ℕ, length};
ghost use Rattle.qx_super.specs.Superblock.{superblock_of};
ghost use Rattle.qx_super.specs.Written.{super_bytes, written_or_refused, FitsSuper};

use crate::{MAGIC, checksum, write_root};
use qx_fields::{Order, put16, put32, put32s, put64};
use qx_geom::Root;

/// What a superblock is written from. All that isn't named here is written as 0.
#[derive(Clone, Copy, Debug, PartialEq, Eq)]
pub struct Super {
    /// The order of all numbers of the volume.
    pub order: Order,
    /// The number by which the later of two superblocks is known.
    pub serial: u64,
    /// The moment at which the volume was made, in seconds since 1970 (`sb_ctime` of `qnx6_fs.h`).
    pub ctime: u32,
    /// The moment at which the snapshot was begun, in seconds since 1970 (`sb_atime`).
    pub atime: u32,
    /// The first of the two version numbers (`sb_version1`).
    pub version1: u16,
    /// The bytes of a block: 512, 1024, 2048 or 4096.
    pub blocksize: u32,
    /// How many inodes the volume has, in use or not.
    pub num_inodes: u32,
    /// How many inodes are free.
    pub free_inodes: u32,
    /// How many blocks the volume has, from block 0 on.
    pub num_blocks: u32,
    /// How many blocks are free.
    pub free_blocks: u32,
    /// The node of all inodes.
    pub inode: Root,
    /// The node of the bitmap, with a bit for each block.
    pub bitmap: Root,
    /// The node of all long names.
    pub longfile: Root,
    /// The node behind them (`Unknown` of `qnx6_fs.h`), which is empty in this project's volumes.
    pub fourth: Root,
}

/// Fills 512 bytes with a superblock, whatever stood there.
pub fn write_super(s: &Super, into: &mut [u8])
    requires { length into.old ≡ 512 }
    ensures bytes { into.new ≡ super_bytes s.now }
    ensures read_back { (len : ℕ) → superblock_of into.new len ≡ written_or_refused s.now len }
    ensures fits { FitsSuper s.now }
{
    into.fill(0);
    put32(s.order, into, 0, MAGIC);
    put64(s.order, into, 8, s.serial);
    put32(s.order, into, 16, s.ctime);
    put32(s.order, into, 20, s.atime);
    put16(s.order, into, 28, s.version1);
    let counts = [
        s.blocksize,
        s.num_inodes,
        s.free_inodes,
        s.num_blocks,
        s.free_blocks,
    ];
    put32s(s.order, into, 48, &counts);
    write_root(&s.inode, s.order, &mut into[72..152]);
    write_root(&s.bitmap, s.order, &mut into[152..232]);
    write_root(&s.longfile, s.order, &mut into[232..312]);
    write_root(&s.fourth, s.order, &mut into[312..392]);
    // Last, since it is the checksum of all that stands behind it.
    let sum = checksum(&into[8..]);
    put32(s.order, into, 4, sum);
}

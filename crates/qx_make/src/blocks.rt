//! The blocks of a new volume, one after another.
ghost use Rattle.std.specs.Prelude.{◌≡◌, ◌+◌, ◌-◌, ◌*◌, ◌^◌, ◌≤◌, ◌<◌, if◌then◌else◌, length, nat_lt, replicate};
ghost use Rattle.std.specs.Bool.{OnTrue};
ghost use Rattle.qx_geom.specs.Layout.{IsGeometry};
ghost use Rattle.qx_make.specs.Blocks.{blocks_bytes, half_block_bytes, inode_leaf_bytes, made_block_bytes, top_block, top_directory_bytes, top_inode};

use qx_fields::Order;
use qx_geom::{ABSENT, Geometry, Root, SystemTree, Which};
use qx_records::{Inode, write_inode, write_short};
use qx_system::{OneBlock, fill_bitmap_leaf, fill_pointer_block};

/// The volume that is made.
#[derive(Clone, Copy)]
pub struct NewVolume {
    pub geometry: Geometry,
    /// The order of all numbers.
    pub order: Order,
    /// The moment of making, in seconds since 1970.
    pub moment: u32,
}

/// The mode of a new directory: `rwxr-xr-x` (POSIX).
const TOP_MODE: u16 = 0o40755;

/// An inode's status where it is a directory's (this project's own).
const DIRECTORY_STATUS: u8 = 1;

/// A new directory's inode: one block of this size in bytes.
fn directory_inode(size: u32, block: u32, moment: u32) -> Inode
    ensures { result ≡ top_inode size block moment }
{
    let mut pointers = [ABSENT; 16];
    pointers[0] = block;
    Inode {
        root: Root {
            size: u64::from(size),
            pointers,
            levels: 0,
        },
        uid: 0,
        gid: 0,
        ftime: moment,
        mtime: moment,
        atime: moment,
        ctime: moment,
        mode: TOP_MODE,
        ext_mode: 0,
        status: DIRECTORY_STATUS,
    }
}

/// Fills a leaf of the Inode tree: inode 1 stands in the first, all others are 0.
#[tactic(auto, unfolding(crate::specs::Blocks::inode_leaf_bytes))]
fn fill_inode_leaf(geometry: &Geometry, order: Order, moment: u32, leaf: u32, into: &mut [u8])
    requires geometry { IsGeometry geometry.now }
    requires into { length into.old ≡ geometry.now.blocksize }
    ensures { into.new ≡ inode_leaf_bytes geometry.now order moment leaf }
{
    into.fill(0);
    if leaf == 0 {
        let top = 2 * geometry.half;
        let inode = directory_inode(geometry.blocksize, top, moment);
        write_inode(&inode, order, &mut into[0..128]);
    }
}

/// Fills the root directory's block with its rows `.` and `..`. The other records are unused, which is 0.
fn fill_top_directory(order: Order, into: &mut [u8])
    requires { 64 ≤ length into.old }
    ensures { into.new ≡ top_directory_bytes order (length into.old) }
{
    into.fill(0);
    write_short(&mut into[0..32], order, 1, b".");
    write_short(&mut into[32..64], order, 1, b"..");
}

/// Fills a block of an area's half, by its index there.
fn fill_half_block(volume: &NewVolume, which: Which, index: u32, into: &mut [u8])
    requires geometry { IsGeometry volume.now.geometry }
    requires index { index < volume.now.geometry.half }
    requires into { length into.old ≡ volume.now.geometry.blocksize }
    ensures { into.new ≡ half_block_bytes volume.now.geometry volume.now.order volume.now.moment which index }
{
    let geometry = &volume.geometry;
    let first = geometry.first_block(which);
    let bitmap_blocks = geometry.bitmap_leaves + geometry.bitmap_pointers;
    if index < geometry.bitmap_leaves {
        let held = OneBlock {
            number: 2 * geometry.half,
        };
        fill_bitmap_leaf(geometry, &held, index, into);
    } else if index < bitmap_blocks {
        fill_pointer_block(
            geometry,
            volume.order,
            which,
            SystemTree::Bitmap,
            first + index,
            into,
        );
    } else if index < bitmap_blocks + geometry.inode_leaves {
        let leaf = index - bitmap_blocks;
        fill_inode_leaf(geometry, volume.order, volume.moment, leaf, into);
    } else {
        fill_pointer_block(
            geometry,
            volume.order,
            which,
            SystemTree::Inodes,
            first + index,
            into,
        );
    }
}

/// Fills one of the blocks that are written.
#[tactic(auto, using(std::proofs::lemmas::Bool::Decides::nat_tests), unfolding(crate::specs::Blocks::made_block_bytes))]
fn fill_block(volume: &NewVolume, block: u32, into: &mut [u8])
    requires geometry { IsGeometry volume.now.geometry }
    requires block { block ≤ top_block volume.now.geometry }
    requires into { length into.old ≡ volume.now.geometry.blocksize }
    ensures { into.new ≡ made_block_bytes volume.now.geometry volume.now.order volume.now.moment block }
{
    let half = volume.geometry.half;
    if block < half {
        fill_half_block(volume, Which::First, block, into);
    } else if block < 2 * half {
        fill_half_block(volume, Which::Second, block - half, into);
    } else {
        fill_top_directory(volume.order, into);
    }
}

/// A block's index in the half where it lies.
fn index_in_half(geometry: &Geometry, block: u32) -> u32
    ensures { result ≡ (if nat_lt block geometry.now.half then block else block - geometry.now.half) }
{
    if block < geometry.half {
        block
    } else {
        block - geometry.half
    }
}

/// Whether so many of them from one on are all leaves of the Inode tree without an inode, which are 0.
pub fn are_blank(volume: &NewVolume, first: u32, count: u32) -> bool
    requires geometry { IsGeometry volume.now.geometry }
    requires blocks { first + count ≤ top_block volume.now.geometry + 1 }
    ensures { OnTrue result (blocks_bytes volume.now.geometry volume.now.order volume.now.moment first count
        ≡ replicate (count * volume.now.geometry.blocksize) 0) }
{
    let geometry = &volume.geometry;
    let index = index_in_half(geometry, first);
    let leaf = geometry.bitmap_leaves + geometry.bitmap_pointers;
    leaf < index && index + count <= leaf + geometry.inode_leaves
}

/// Fills so many of them from one on.
pub fn fill_blocks(volume: &NewVolume, first: u32, count: u32, into: &mut [u8])
    requires geometry { IsGeometry volume.now.geometry }
    requires blocks { first + count ≤ top_block volume.now.geometry + 1 }
    requires into { length into.old ≡ count * volume.now.geometry.blocksize }
    ensures { into.new ≡ blocks_bytes volume.now.geometry volume.now.order volume.now.moment first count }
{
    let size = volume.geometry.blocksize as usize;
    for index in 0..count {
        let at = index as usize * size;
        fill_block(volume, first + index, &mut into[at..at + size]);
    }
}

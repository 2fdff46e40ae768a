//! The numbers of a volume, and where its system blocks stand.
ghost use Rattle.std.specs.Prelude.{◌≡◌};
ghost use Rattle.qx_geom.specs.Layout.{whole_length};

use crate::tree::LaidTree;
use crate::{ABSENT, Root, SystemTree, Which};
use std::ops::Range;
use thiserror::Error;

/// The byte at which the first superblock area stands, behind the boot area (`qnx6_fs.h`).
pub const FIRST_PLACE: u64 = 0x2000;

/// The byte at which block 0 stands, behind the first area (`qnx6_fs.h`).
pub const BLOCKS_BEGIN: u64 = 0x3000;

/// The bounds on the inodes and the blocks of a volume (this project's own).
const MIN_INODES: u32 = 16;

const MAX_INODES: u32 = 1 << 20;

const MAX_BLOCKS: u64 = 1 << 28;

/// Why numbers are those of no volume.
#[derive(Clone, Copy, Debug, PartialEq, Eq, Error)]
pub enum GeomFault {
    /// The block size is none of 512, 1024, 2048 and 4096 bytes.
    #[error("the block size is none of 512, 1024, 2048 and 4096")]
    BlockSize,
    /// The device has no room for both halves and 17 more blocks.
    #[error("the device is too short")]
    TooShort,
    /// The device has room for more than 2^28 blocks.
    #[error("the device is too large")]
    TooLarge,
    /// There would be fewer than 16 inodes, or more than 1,048,576.
    #[error("the number of inodes is below 16 or above 1048576")]
    Inodes,
}

/// The numbers of a volume. Sizes and rules are this project's own, but for the places of the areas and of block 0 (`qnx6_fs.h`).
#[derive(Clone, Copy, Debug, PartialEq, Eq)]
pub struct Geometry {
    /// The device's length in bytes, without what lies past the last whole 4096.
    pub len4: u64,
    /// Bytes of a block.
    pub blocksize: u32,
    /// Blocks between the two areas, at most 2^28.
    pub num_blocks: u32,
    /// Inodes, 16 to 2^20.
    pub num_inodes: u32,
    /// Blocks of a half's bitmap.
    pub bitmap_leaves: u32,
    /// Pointer blocks above them.
    pub bitmap_pointers: u32,
    /// Blocks of a half's inode table.
    pub inode_leaves: u32,
    /// Pointer blocks above them.
    pub inode_pointers: u32,
    /// Blocks of a half.
    pub half: u32,
}

impl Geometry {
    ghost use Rattle.std.specs.Prelude.{◌≡◌, ◌+◌, ◌<◌, ◌≤◌, ◌^◌, IfOk, IsTrue};
    ghost use Rattle.qx_geom.specs.Layout.{IsGeometry, IsPointerBlock, area_place, block_place, blocks_in, first_block, geometry_of, is_block_size, numbers_of, system_root_of, system_word_of, tree_base, tree_leaves, tree_of, tree_pointers, tree_size, user_blocks};
    ghost use Rattle.qx_geom.specs.Pointer.{per_block};

    /// The numbers of a volume on a device of `len` bytes. The tests come in the order block size, inodes, too short, too large.
    #[tactic(auto, using(std::proofs::lemmas::Bool::Decides::nat_tests), unfolding(crate::specs::Layout::geometry_of))]
    pub fn new(len: u64, blocksize: u32, inodes: u32) -> Result<Geometry, GeomFault>
        ensures numbers { result ≡ geometry_of len blocksize inodes }
        ensures geometry { IfOk result IsGeometry }
    {
        if !matches!(blocksize, 512 | 1024 | 2048 | 4096) {
            return Err(GeomFault::BlockSize);
        }
        if inodes < MIN_INODES || MAX_INODES < inodes {
            return Err(GeomFault::Inodes);
        }
        let len4 = rounded_down(len);
        if len4 < 0x4000 {
            return Err(GeomFault::TooShort);
        }
        let blocks = (len4 - 0x4000) / u64::from(blocksize);
        if blocks > MAX_BLOCKS {
            // So many blocks have room for both halves: the device isn't too short.
            return Err(GeomFault::TooLarge);
        }
        let geometry = Geometry::with_blocks(len, blocksize, blocks as u32, inodes);
        if geometry.num_blocks < 2 * geometry.half + 17 {
            return Err(GeomFault::TooShort);
        }
        Ok(geometry)
    }

    /// The byte at which an area stands.
    pub fn area(&self, which: Which) -> u64
        requires { IsGeometry self.now }
        ensures { result ≡ area_place self.now which }
    {
        match which {
            Which::First => FIRST_PLACE,
            Which::Second => BLOCKS_BEGIN + u64::from(self.num_blocks) * u64::from(self.blocksize),
        }
    }

    /// The byte at which a block stands.
    pub fn place(&self, b: u32) -> u64
        requires geometry { IsGeometry self.now }
        requires block { b < self.now.num_blocks }
        ensures { result ≡ block_place self.now b }
    {
        BLOCKS_BEGIN + u64::from(b) * u64::from(self.blocksize)
    }

    /// How many blocks are no half's.
    pub fn user(&self) -> u32
        requires { IsGeometry self.now }
        ensures { result ≡ user_blocks self.now }
    {
        self.num_blocks - 2 * self.half
    }

    /// The first block of an area's half.
    pub fn first_block(&self, which: Which) -> u32
        requires { IsGeometry self.now }
        ensures first { result ≡ first_block self.now which }
        ensures room { result + self.now.half ≤ self.now.num_blocks }
    {
        match which {
            Which::First => 0,
            Which::Second => self.half,
        }
    }

    /// The pointer blocks of a tree of an area's half.
    pub fn pointer_blocks(&self, which: Which, tree: SystemTree) -> Range<u32>
        requires { IsGeometry self.now }
        ensures first { result.start ≡ tree_base self.now which tree + tree_leaves self.now tree }
        ensures behind { result.end ≡ result.start + tree_pointers self.now tree }
        ensures room { result.end ≤ self.now.num_blocks }
    {
        let first = self.base(which, tree) + self.laid(tree).leaves;
        first..first + self.pointers(tree)
    }

    /// The Bitmap root node of an area, or its Inode root node.
    pub fn system_root(&self, which: Which, bitmap: bool) -> Root
        requires { IsGeometry self.now }
        ensures { result ≡ system_root_of self.now which (tree_of bitmap) }
    {
        self.tree_root(which, SystemTree::of(bitmap))
    }

    /// The root node of a tree of an area.
    pub fn tree_root(&self, which: Which, tree: SystemTree) -> Root
        requires { IsGeometry self.now }
        ensures { result ≡ system_root_of self.now which tree }
    {
        let laid = self.laid(tree);
        let base = self.base(which, tree);
        let levels = laid.levels();
        let mut pointers = [ABSENT; 16];
        for (index, pointer) in pointers.iter_mut().enumerate() {
            *pointer = laid.pointer(base, levels, index as u32);
        }
        Root {
            size: self.size(tree),
            pointers,
            levels,
        }
    }

    /// A word of a pointer block of one of the four system trees.
    pub fn system_word(&self, which: Which, bitmap: bool, block: u32, word: u32) -> u32
        requires geometry { IsGeometry self.now }
        requires block { IsPointerBlock self.now which (tree_of bitmap) block }
        requires word { word < per_block self.now.blocksize }
        ensures { result ≡ system_word_of self.now which (tree_of bitmap) block word }
    {
        self.tree_word(which, SystemTree::of(bitmap), block, word)
    }

    /// A word of a pointer block of a tree of an area.
    pub fn tree_word(&self, which: Which, tree: SystemTree, block: u32, word: u32) -> u32
        requires geometry { IsGeometry self.now }
        requires block { IsPointerBlock self.now which tree block }
        requires word { word < per_block self.now.blocksize }
        ensures { result ≡ system_word_of self.now which tree block word }
    {
        let laid = self.laid(tree);
        let base = self.base(which, tree);
        let place = laid.place(block - base - laid.leaves);
        laid.pointer(
            base,
            place.level - 1,
            place.index * (self.blocksize / 4) + word,
        )
    }

    /// The numbers, where the device has so many blocks.
    fn with_blocks(len: u64, blocksize: u32, blocks: u32, inodes: u32) -> Geometry
        requires blocksize { IsTrue (is_block_size blocksize) }
        requires blocks { blocks ≡ blocks_in len blocksize }
        requires few { blocks ≤ 2 ^ 28 }
        requires inodes { inodes ≤ 1048576 }
        ensures numbers { result ≡ numbers_of len blocksize inodes }
        ensures half { result.half < 2 ^ 28 }
    {
        let bitmap = LaidTree {
            blocksize,
            leaves: blocks.div_ceil(8).div_ceil(blocksize),
        };
        let table = LaidTree {
            blocksize,
            leaves: (inodes * 128).div_ceil(blocksize),
        };
        let bitmap_blocks = bitmap.blocks();
        let table_blocks = table.blocks();
        Geometry {
            len4: rounded_down(len),
            blocksize,
            num_blocks: blocks,
            num_inodes: inodes,
            bitmap_leaves: bitmap.leaves,
            bitmap_pointers: bitmap_blocks - bitmap.leaves,
            inode_leaves: table.leaves,
            inode_pointers: table_blocks - table.leaves,
            half: bitmap_blocks + table_blocks,
        }
    }

    /// A tree of a half, as it is laid out.
    fn laid(&self, tree: SystemTree) -> LaidTree
        requires { IsGeometry self.now }
        ensures blocksize { result.blocksize ≡ self.now.blocksize }
        ensures leaves { result.leaves ≡ tree_leaves self.now tree }
    {
        LaidTree {
            blocksize: self.blocksize,
            leaves: match tree {
                SystemTree::Bitmap => self.bitmap_leaves,
                SystemTree::Inodes => self.inode_leaves,
            },
        }
    }

    /// The first block of that tree in an area's half.
    fn base(&self, which: Which, tree: SystemTree) -> u32
        requires { IsGeometry self.now }
        ensures { result ≡ tree_base self.now which tree }
    {
        let first = self.first_block(which);
        match tree {
            SystemTree::Bitmap => first,
            SystemTree::Inodes => first + self.bitmap_leaves + self.bitmap_pointers,
        }
    }

    /// How many pointer blocks that tree has.
    fn pointers(&self, tree: SystemTree) -> u32
        ensures { result ≡ tree_pointers self.now tree }
    {
        match tree {
            SystemTree::Bitmap => self.bitmap_pointers,
            SystemTree::Inodes => self.inode_pointers,
        }
    }

    /// The bytes of a half's bitmap, or of its inodes.
    fn size(&self, tree: SystemTree) -> u64
        requires { IsGeometry self.now }
        ensures { result ≡ tree_size self.now tree }
    {
        match tree {
            SystemTree::Bitmap => u64::from(self.num_blocks).div_ceil(8),
            SystemTree::Inodes => u64::from(self.num_inodes) * 128,
        }
    }
}

/// The length, without what lies past the last whole 4096 bytes.
fn rounded_down(len: u64) -> u64
    ensures { result ≡ whole_length len }
{
    len / 4096 * 4096
}

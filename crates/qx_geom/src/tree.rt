//! The system trees: their least levels, and the order of their blocks, leaves first and then pointer blocks level by level.
ghost use Rattle.std.specs.Prelude.{◌≡◌, ◌+◌, ◌-◌, ◌*◌, ◌^◌, ◌≤◌, ◌<◌, IsTrue};
ghost use Rattle.qx_geom.specs.Layout.{below_level, is_block_size, level_count, levels_for, pointer_blocks, pointer_place, system_pointer, tree_blocks};
ghost use Rattle.qx_geom.specs.Pointer.{per_block, reach};

use crate::ABSENT;

/// The least number of levels of pointer blocks by which the 16 pointers of a root node reach so many leaves.
pub fn levels(leaves: u64, blocksize: u32) -> u8
    requires blocksize { IsTrue (is_block_size blocksize) }
    requires reached { leaves ≤ reach blocksize 5 }
    ensures { result ≡ levels_for blocksize leaves }
{
    let per_block = u64::from(blocksize / 4);
    let mut reached: u64 = 16;
    for level in 0..5u8 {
        if leaves <= reached {
            return level;
        }
        reached *= per_block;
    }
    5
}

/// Where a pointer block stands in its tree.
#[derive(Clone, Copy)]
pub(crate) struct PointerPlace {
    /// Counted from the leaves, which are level 0.
    pub(crate) level: u8,
    /// Its index among the blocks of the level.
    pub(crate) index: u32,
}

/// A system tree of so many leaves, as its blocks are laid out.
#[derive(Clone, Copy)]
pub(crate) struct LaidTree {
    pub(crate) blocksize: u32,
    pub(crate) leaves: u32,
    ghost block_size: { IsTrue (is_block_size blocksize) },
    ghost few: { leaves ≤ 2 ^ 18 },
}

impl LaidTree {
    /// The levels above the leaves, at most 2.
    pub(crate) fn levels(self) -> u8
        ensures levels { result ≡ levels_for self.blocksize self.leaves }
        ensures few { result ≤ 2 }
    {
        levels(u64::from(self.leaves), self.blocksize)
    }

    /// How many blocks a level has.
    pub(crate) fn count(self, level: u8) -> u32
        requires { level ≤ 2 }
        ensures count { result ≡ level_count self.blocksize self.leaves level }
        ensures few { result ≤ self.leaves }
    {
        let reached = (self.blocksize / 4).pow(u32::from(level));
        self.leaves.div_ceil(reached)
    }

    /// How many blocks the levels below one have.
    pub(crate) fn below(self, level: u8) -> u32
        requires { level ≤ 3 }
        ensures { result ≡ below_level self.blocksize self.leaves level }
    {
        let mut blocks = 0;
        for k in 0..level {
            blocks += self.count(k);
        }
        blocks
    }

    /// How many blocks it has.
    pub(crate) fn blocks(self) -> u32
        ensures blocks { result ≡ tree_blocks self.blocksize self.leaves }
        ensures few { result ≤ 3 * self.leaves }
    {
        self.below(self.levels() + 1)
    }

    /// The pointer to a block of a level, where the tree begins at block `base`.
    pub(crate) fn pointer(self, base: u32, level: u8, index: u32) -> u32
        requires level { level ≤ levels_for self.blocksize self.leaves }
        requires base { base + tree_blocks self.blocksize self.leaves ≤ 2 ^ 28 }
        ensures { result ≡ system_pointer self.blocksize base self.leaves level index }
    {
        if index < self.count(level) {
            base + self.below(level) + index
        } else {
            ABSENT
        }
    }

    /// The place of the pointer block that so many blocks behind the leaves precede.
    pub(crate) fn place(self, behind: u32) -> PointerPlace
        requires { behind < pointer_blocks self.blocksize self.leaves }
        ensures place { result ≡ pointer_place self.blocksize self.leaves 1 behind 5 }
        ensures above { 1 ≤ result.level }
        ensures level { result.level ≤ levels_for self.blocksize self.leaves }
        ensures index { result.index * per_block self.blocksize < self.leaves }
    {
        let levels = self.levels();
        let mut index = behind;
        for level in 1..levels {
            let count = self.count(level);
            if index < count {
                return PointerPlace { level, index };
            }
            index -= count;
        }
        PointerPlace {
            level: levels,
            index,
        }
    }
}

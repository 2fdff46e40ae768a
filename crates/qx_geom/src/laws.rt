//! Laws of the definitions: the least levels, the room that every volume has, the order of a half's blocks, and a node's positions, those that a change touches, and its need.
ghost use Rattle.std.specs.Prelude.{◌≡◌, ℕ, Bool, ◌+◌, ◌-◌, ◌*◌, ◌^◌, ◌<◌, ◌≤◌, ◌⊎◌, ◌↔◌, true, false, List, [], Option, None, Some};
ghost use Rattle.qx_geom.specs.declared.area.Which.{Which};
ghost use Rattle.qx_geom.specs.declared.area.Which.TheVariants as areas;
ghost use Rattle.qx_geom.specs.declared.geometry.Geometry.{Geometry};
ghost use Rattle.qx_geom.specs.declared.system.SystemTree.{SystemTree};
ghost use Rattle.qx_geom.specs.Layout.{IsGeometry, IsPointerBlock, IsTreeBlock, area_place, first_block, geometry_of, levels_for, system_pointer, system_word_of, tree_base, tree_leaves};
ghost use Rattle.qx_geom.specs.Lists.{Distinct, IsAscending, is_in};
ghost use Rattle.qx_geom.specs.Pointer.{ceil_div, per_block, reach};
ghost use Rattle.qx_geom.specs.Positions.{HasPosition, Shape, at_level, present_after, shape_of};
ghost use Rattle.qx_geom.specs.Touch.{IsTouched, fresh_at, is_touched, need_of, need_of_change};

/// The levels of so many leaves reach them, and no fewer levels do.
pub fn the_levels_are_the_least()
    ensures reached { (blocksize n : ℕ) → n ≤ reach blocksize 5 → n ≤ reach blocksize (levels_for blocksize n) }
    ensures least { (blocksize n l : ℕ) → l < levels_for blocksize n → reach blocksize l < n }
{}

/// The geometry of a device is a volume's, though its length is rounded down.
pub fn the_geometry_of_a_device_is_a_volumes()
    ensures { (len blocksize inodes : ℕ) (g : Geometry) → geometry_of len blocksize inodes ≡ Ok g → IsGeometry g }
{}

/// A half has its four parts, and the volume has both halves and 17 blocks more.
pub fn the_volume_has_room_for_both_halves()
    ensures parts { (g : Geometry) → IsGeometry g
        → g.half ≡ g.bitmap_leaves + g.bitmap_pointers + g.inode_leaves + g.inode_pointers }
    ensures room { (g : Geometry) → IsGeometry g → 2 * g.half + 17 ≤ g.num_blocks }
    ensures few { (g : Geometry) → IsGeometry g → g.num_blocks ≤ 2 ^ 28 }
{}

/// The second area is the last 4096 bytes of the device's length.
pub fn the_second_area_comes_last()
    ensures { (g : Geometry) → IsGeometry g → area_place g areas.Second + 0x1000 ≡ g.len4 }
{}

/// The blocks of a system tree: which are pointer blocks, what points to each, and that they lie in its half.
pub fn a_tree_stands_in_its_half()
    ensures above { (g : Geometry) (which : Which) (tree : SystemTree) (level index block : ℕ) → IsGeometry g
        → 1 ≤ level → IsTreeBlock g which tree level index block → IsPointerBlock g which tree block }
    ensures placed { (g : Geometry) (which : Which) (tree : SystemTree) (block : ℕ) → IsGeometry g
        → IsPointerBlock g which tree block
        → (level : ℕ) × (index : ℕ) × (1 ≤ level) × IsTreeBlock g which tree level index block }
    ensures pointer { (g : Geometry) (which : Which) (tree : SystemTree) (level index block : ℕ) → IsGeometry g
        → IsTreeBlock g which tree level index block
        → system_pointer g.blocksize (tree_base g which tree) (tree_leaves g tree) level index ≡ block }
    ensures from { (g : Geometry) (which : Which) (tree : SystemTree) (level index block : ℕ) → IsGeometry g
        → IsTreeBlock g which tree level index block → first_block g which ≤ block }
    ensures to { (g : Geometry) (which : Which) (tree : SystemTree) (level index block : ℕ) → IsGeometry g
        → IsTreeBlock g which tree level index block → block < first_block g which + g.half }
{}

/// The words of a pointer block are pointers to the blocks of the level below, in their order.
pub fn a_word_points_a_level_below()
    ensures { (g : Geometry) (which : Which) (tree : SystemTree) (level index block word : ℕ) → IsGeometry g
        → 1 ≤ level → IsTreeBlock g which tree level index block
        → system_word_of g which tree block word
        ≡ system_pointer g.blocksize (tree_base g which tree) (tree_leaves g tree) (level - 1) (index * per_block g.blocksize + word) }
{}

/// Where the present leaves ascend, the positions of each level do, and none stands twice.
pub fn positions_of_a_level_ascend()
    ensures ascending { (blocksize k : ℕ) (s : Shape) → IsAscending s.present → IsAscending (at_level blocksize s k) }
    ensures distinct { (blocksize k : ℕ) (s : Shape) → IsAscending s.present → Distinct (at_level blocksize s k) }
{}

/// After a change those leaves are present that are written, or were present, lie below the new end and aren't taken out.
pub fn present_leaves_after_a_change()
    ensures members { (present : List ℕ) (new_leaves : ℕ) (written : List ℕ) (gone : Option ℕ) (i : ℕ)
        → (is_in (present_after present new_leaves written gone) i ≡ true) ↔ ((is_in written i ≡ true) ⊎ ((is_in present i ≡ true) × (i < new_leaves) × (gone ≡ Some i → ⊥))) }
    ensures ascending { (present : List ℕ) (new_leaves : ℕ) (written : List ℕ) (gone : Option ℕ) → IsAscending present
        → IsAscending (present_after present new_leaves written gone) }
{}

/// The test of touched positions decides the least set that the rules give, where the written leaves are present afterwards.
pub fn the_test_decides_what_is_touched()
    ensures { (blocksize : ℕ) (old new : Shape) (written : List ℕ) → ((i : ℕ) → is_in written i ≡ true → is_in new.present i ≡ true)
        → (k j : ℕ) → HasPosition blocksize new k j → IsTouched blocksize old new written k j ↔ (is_touched blocksize old new written k j ≡ true) }
{}

/// The positions that take a fresh block are those that are touched, and new or not private.
pub fn the_fresh_positions_are_touched()
    ensures { (blocksize : ℕ) (old new : Shape) (written : List ℕ) (private : ℕ → ℕ → Bool) → ((i : ℕ) → is_in written i ≡ true → is_in new.present i ≡ true)
        → (k j : ℕ) → (is_in (fresh_at blocksize old new written private k) j ≡ true) ↔ (IsTouched blocksize old new written k j × (¬ (HasPosition blocksize old k j) ⊎ (private k j ≡ false))) }
{}

/// A change to the same size that writes nothing and takes nothing out needs no block, nor does a node whose shape stays.
pub fn no_change_needs_no_block()
    ensures size { (blocksize size : ℕ) (present : List ℕ) (private : ℕ → ℕ → Bool) → ((i : ℕ) → is_in present i ≡ true → i < ceil_div size blocksize)
        → need_of_change blocksize (shape_of blocksize size present) size [] None private ≡ 0 }
    ensures shape { (blocksize : ℕ) (s : Shape) (private : ℕ → ℕ → Bool) → need_of blocksize s s [] private ≡ 0 }
{}

/// The need depends on which old positions have a private block, and on no others.
pub fn the_need_depends_on_old_positions()
    ensures { (blocksize : ℕ) (old new : Shape) (written : List ℕ) (p q : ℕ → ℕ → Bool) → ((k j : ℕ) → HasPosition blocksize old k j → p k j ≡ q k j)
        → need_of blocksize old new written p ≡ need_of blocksize old new written q }
{}

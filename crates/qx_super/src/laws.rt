//! Laws of the definitions: what is read back of what is written, what a valid superblock has passed, what decides which area is active, and the checksums that the format works out.
ghost use Rattle.std.specs.Prelude.{◌≡◌, ◌≢◌, ℕ, ◌+◌, ◌<◌, ◌≤◌, List, [], ◌∷◌, ◌++◌, length, replicate, IsSome, IsTrue};
ghost use Rattle.std.specs.Result.{result_ok};
ghost use Rattle.qx_fields.specs.declared.order.Order.{Order};
ghost use Rattle.qx_fields.specs.declared.order.Order.TheVariants as orders;
ghost use Rattle.qx_fields.specs.Number.{field};
ghost use Rattle.qx_geom.specs.Layout.{is_block_size};
ghost use Rattle.qx_geom.specs.declared.area.Which.{Which};
ghost use Rattle.qx_geom.specs.declared.area.Which.TheVariants as areas;
ghost use Rattle.qx_geom.specs.declared.root.Root.{Root};
ghost use Rattle.qx_super.specs.declared.choice.Pick.TheVariants as picks;
ghost use Rattle.qx_super.specs.declared.writing.Super.{Super};
ghost use Rattle.qx_super.specs.declared.superblock.SuperFault.TheVariants as faults;
ghost use Rattle.qx_super.specs.Checksum.{checksum_of};
ghost use Rattle.qx_super.specs.RootNode.{root_of, root_bytes, FitsRoot};
ghost use Rattle.qx_super.specs.Superblock.{Superblock, superblock_of, second_place_of, has_right_checksum};
ghost use Rattle.qx_super.specs.Written.{super_bytes, written_or_refused, FitsSuper};
ghost use Rattle.qx_super.specs.Active.{AreRead, active_area, active_super, choice_in, first_area, first_read, first_super, pick_in, pick_of, second_area, second_read, second_super, super_in, is_same_volume};

/// A node that is written as a root node has 80 bytes, and is read back.
pub fn a_root_node_is_read_back()
    ensures long { (order : Order) (root : Root) → FitsRoot root → length (root_bytes order root) ≡ 80 }
    ensures node { (order : Order) (root : Root) → FitsRoot root → root_of order (root_bytes order root) ≡ root }
{}

/// A superblock that is written has 512 bytes and a right checksum, and is read back where its blocks fit the device.
pub fn a_superblock_is_read_back()
    ensures long { (s : Super) → FitsSuper s → length (super_bytes s) ≡ 512 }
    ensures checksum { (s : Super) → FitsSuper s → IsTrue (has_right_checksum (super_bytes s)) }
    ensures fields { (s : Super) (len : ℕ) → FitsSuper s
        → superblock_of (super_bytes s) len ≡ written_or_refused s len }
{}

/// A valid superblock passed each test.
pub fn a_valid_superblock_passed_each_test()
    ensures checksum { (bytes : List ℕ) (len : ℕ) (s : Superblock) → superblock_of bytes len ≡ Ok s
        → IsTrue (has_right_checksum bytes) }
    ensures blocksize { (bytes : List ℕ) (len : ℕ) (s : Superblock) → superblock_of bytes len ≡ Ok s
        → IsTrue (is_block_size s.blocksize) }
    ensures blocks { (bytes : List ℕ) (len : ℕ) (s : Superblock) → superblock_of bytes len ≡ Ok s
        → 0 < s.num_blocks }
    ensures room { (bytes : List ℕ) (len : ℕ) (s : Superblock) → superblock_of bytes len ≡ Ok s
        → second_place_of s + 512 ≤ len }
{}

/// Bytes without the magic and a right checksum are no superblock, whatever the device.
pub fn bytes_without_a_right_checksum_are_no_superblock()
    ensures { (bytes : List ℕ) (len : ℕ) → ¬ IsTrue (has_right_checksum bytes)
        → result_ok (superblock_of bytes len) ≡ None }
{}

/// A superblock that is valid on one device is valid on every other that has room for its blocks.
pub fn a_superblock_is_valid_where_there_is_room()
    ensures { (bytes : List ℕ) (len other : ℕ) (s : Superblock) → superblock_of bytes len ≡ Ok s
        → second_place_of s + 512 ≤ other → superblock_of bytes other ≡ Ok s }
{}

/// Bytes that begin with another number than the magic in both orders are no superblock.
pub fn bytes_without_the_magic_are_no_superblock()
    ensures { (bytes : List ℕ) (len : ℕ) → field orders.Little 4 bytes 0 ≢ 0x68191122
        → field orders.Big 4 bytes 0 ≢ 0x68191122 → superblock_of bytes len ≡ Err faults.Magic }
{}

/// Bytes 0 have the magic in neither order, so a buffer that stayed empty names no superblock.
pub fn a_buffer_of_zeros_is_no_superblock()
    ensures { (len : ℕ) → superblock_of (replicate 512 0) len ≡ Err faults.Magic }
{}

/// Two buffers of what the areas hold give the image's superblocks and its active area.
pub fn what_was_read_decides()
    ensures first { (img first second : List ℕ) → AreRead img first second
        → first_read first (length img) ≡ first_super img }
    ensures second { (img first second : List ℕ) → AreRead img first second
        → second_read first second (length img) ≡ second_super img }
    ensures active { (img first second : List ℕ) → AreRead img first second
        → pick_of (first_read first (length img)) (second_read first second (length img)) ≡ active_area img }
{}

/// Of an image its length and its two areas decide, whatever its other bytes are.
pub fn the_areas_decide()
    ensures area { (img other : List ℕ) → length other ≡ length img
        → first_area other ≡ first_area img → second_area other ≡ second_area img
        → active_area other ≡ active_area img }
    ensures superblock { (img other : List ℕ) → length other ≡ length img
        → first_area other ≡ first_area img → second_area other ≡ second_area img
        → active_super other ≡ active_super img }
{}

/// The active superblock is that of the active area, and it is there.
pub fn the_active_superblock_is_its_areas()
    ensures first { (img : List ℕ) → active_area img ≡ picks.Active areas.First
        → active_super img ≡ first_super img }
    ensures second { (img : List ℕ) → active_area img ≡ picks.Active areas.Second
        → active_super img ≡ second_super img }
    ensures there { (img : List ℕ) (which : Which) → active_area img ≡ picks.Active which
        → IsSome (active_super img) }
{}

/// What is chosen is the active area, and its superblock the active one.
pub fn the_choice_is_the_active_area()
    ensures area { (img : List ℕ) → active_area img ≡ pick_in (choice_in img) }
    ensures superblock { (img : List ℕ) → active_super img ≡ super_in (choice_in img) }
{}

/// Without a superblock in either area none is active.
pub fn no_superblock_means_no_active_area()
    ensures area { (img : List ℕ) → first_super img ≡ None → second_super img ≡ None
        → active_area img ≡ picks.None }
    ensures superblock { (img : List ℕ) → first_super img ≡ None → second_super img ≡ None
        → active_super img ≡ None }
{}

/// Where one area alone has a superblock, that area is active, with it.
pub fn a_superblock_alone_is_active()
    ensures first { (img : List ℕ) (a : Superblock) → first_super img ≡ Some a → second_super img ≡ None
        → (active_area img ≡ picks.Active areas.First) × (active_super img ≡ Some a) }
    ensures second { (img : List ℕ) (b : Superblock) → first_super img ≡ None → second_super img ≡ Some b
        → (active_area img ≡ picks.Active areas.Second) × (active_super img ≡ Some b) }
{}

/// Of two superblocks of one volume the one with the greater serial is active, the first at equal serials.
pub fn the_later_of_two_superblocks_is_active()
    ensures second { (img : List ℕ) (a b : Superblock) → first_super img ≡ Some a → second_super img ≡ Some b
        → IsTrue (is_same_volume a b) → a.serial < b.serial
        → (active_area img ≡ picks.Active areas.Second) × (active_super img ≡ Some b) }
    ensures first { (img : List ℕ) (a b : Superblock) → first_super img ≡ Some a → second_super img ≡ Some b
        → IsTrue (is_same_volume a b) → b.serial ≤ a.serial
        → (active_area img ≡ picks.Active areas.First) × (active_super img ≡ Some a) }
{}

/// The checksums of 504 bytes that the format works out.
pub fn the_checksum_of_few_bits()
    ensures zeros { checksum_of (replicate 504 0) ≡ 0 }
    ensures one { checksum_of (replicate 503 0 ++ 1 ∷ []) ≡ 0x04C11DB7 }
    ensures two { checksum_of (replicate 503 0 ++ 2 ∷ []) ≡ 0x09823B6E }
{}

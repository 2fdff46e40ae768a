//! What a copy depends on, and the copies of images.
ghost use Rattle.std.specs.Prelude.{◌≡◌, ℕ, ◌+◌, ◌<◌, ◌≤◌, false, true, List, None, Some, drop, length};
ghost use Rattle.qx_model.specs.Machine.{Copy};
ghost use Rattle.qx_model.specs.Tree.{Tree};
ghost use Rattle.qx_nodes.specs.BlockMap.{BlockMap, with_bytes};
ghost use Rattle.qx_nodes.specs.Content.{HasSize};
ghost use Rattle.qx_records.specs.declared.inode.Inode.{Inode};
ghost use Rattle.qx_super.specs.Active.{active_super};
ghost use Rattle.qx_super.specs.Superblock.{Superblock};
ghost use Rattle.qx_view.specs.Images.{Roots, image_blocks, inode_bytes, inode_places, main_roots};
ghost use Rattle.qx_view.specs.Reading.{IsTreeOf};
ghost use Rattle.qx_view.specs.Sound.{IsSound, are_zero, bad_long_name, fails_dots, fails_inodes, fails_nodes, fails_tail, has_tail};
ghost use Rattle.qx_view.specs.Walk.{walked_inodes};
ghost use Rattle.qx_copies.specs.Copies.{BlockCopy, inode_at};
ghost use Rattle.qx_copies.specs.ImageCopies.{HasInodesAt, HasReached, LiesBeside};
ghost use Rattle.qx_copies.specs.Standing.{IsOwnCopy, MeetsBlock, Represents, RepresentsIds};

/// A copy depends on the blocks that its nodes meet alone.
pub fn a_copy_is_decided_by_its_blocks()
    ensures tree { (m : BlockMap) (bytes : ℕ → List ℕ) (c : BlockCopy) (t : Tree) → HasSize m → ((b : ℕ) → MeetsBlock m c b → m.bytes b ≡ bytes b)
        → Represents m c t → Represents (with_bytes m bytes) c t }
    ensures own { (m : BlockMap) (bytes : ℕ → List ℕ) (c : BlockCopy) (t : Tree) → HasSize m → ((b : ℕ) → MeetsBlock m c b → m.bytes b ≡ bytes b)
        → Represents m c t → IsOwnCopy m c t → IsOwnCopy (with_bytes m bytes) c t }
    ensures ids { (m : BlockMap) (bytes : ℕ → List ℕ) (c : BlockCopy) (k : Copy) (block : ℕ → ℕ) → HasSize m → ((b : ℕ) → MeetsBlock m c b → m.bytes b ≡ bytes b)
        → RepresentsIds m c k block → RepresentsIds (with_bytes m bytes) c k block }
    ensures met { (m : BlockMap) (bytes : ℕ → List ℕ) (c : BlockCopy) (b : ℕ) → ((b : ℕ) → MeetsBlock m c b → m.bytes b ≡ bytes b)
        → MeetsBlock (with_bytes m bytes) c b → MeetsBlock m c b }
{}

/// What begins at some roots has the tree for which the copy of its inodes stands.
pub fn the_tree_of_an_image_is_its_inodes()
    ensures copy { (m : BlockMap) (r : Roots) (c : BlockCopy) (t : Tree) → length r.longfile.pointers ≡ 16 → IsTreeOf m r t → HasReached m r c → Represents m c t }
    ensures there { (m : BlockMap) (r : Roots) (c : BlockCopy) (t : Tree) → IsTreeOf m r t → HasReached m r c → HasInodesAt m r c }

    // And back, where the Inode tree and the further roots lie beside the copy's nodes.
    ensures tree { (m : BlockMap) (r : Roots) (c : BlockCopy) (t : Tree) → HasSize m → Represents m c t → HasInodesAt m r c → LiesBeside m r c → IsTreeOf m r t }
{}

/// The inodes to which the walk of a sound image comes are a copy that stands for its tree, laid out as this project does.
pub fn a_sound_image_is_laid_out_as_its_own()
    ensures tree { (img : List ℕ) (t : Tree) (s : Superblock) (c : BlockCopy) → IsSound img t → active_super img ≡ Some s → HasReached (image_blocks img s) (main_roots s) c
        → Represents (image_blocks img s) c t }
    ensures own { (img : List ℕ) (t : Tree) (s : Superblock) (c : BlockCopy) → IsSound img t → active_super img ≡ Some s → HasReached (image_blocks img s) (main_roots s) c
        → IsOwnCopy (image_blocks img s) c t }
{}

/// Of what begins at the roots of a copy that is laid out as this project does none of the reasons from 4 on applies, and nothing has a tail, where the Inode tree's own bytes are as they must be.
pub fn no_reason_applies_to_an_own_copy()
    ensures nodes { (m : BlockMap) (r : Roots) (c : BlockCopy) (t : Tree) → IsTreeOf m r t → Represents m c t → HasInodesAt m r c → IsOwnCopy m c t → (n : ℕ) → fails_nodes m r (walked_inodes m r) n ≡ false }
    ensures dots { (m : BlockMap) (r : Roots) (c : BlockCopy) (t : Tree) → IsTreeOf m r t → Represents m c t → HasInodesAt m r c → IsOwnCopy m c t → (n : ℕ) → fails_dots m r (walked_inodes m r) n ≡ false }
    ensures inodes { (m : BlockMap) (r : Roots) (c : BlockCopy) (t : Tree) → IsTreeOf m r t → Represents m c t → HasInodesAt m r c → IsOwnCopy m c t
        → ((n : ℕ) (i : Inode) → inode_at c.inodes n ≡ Some i → are_zero (drop 102 (inode_bytes m r.inodes n)) ≡ true)
        → ((n : ℕ) → 0 < n → n ≤ length c.inodes → inode_at c.inodes n ≡ None → are_zero (inode_bytes m r.inodes n) ≡ true)
        → (n : ℕ) → n < inode_places r + 1 → fails_inodes m r (walked_inodes m r) n ≡ false }
    ensures long_names { (m : BlockMap) (r : Roots) (c : BlockCopy) (t : Tree) → IsTreeOf m r t → Represents m c t → HasInodesAt m r c → IsOwnCopy m c t → bad_long_name m r (walked_inodes m r) ≡ None }
    ensures tails { (m : BlockMap) (r : Roots) (c : BlockCopy) (t : Tree) → IsTreeOf m r t → Represents m c t → HasInodesAt m r c → IsOwnCopy m c t → has_tail m r.inodes ≡ false
        → (n : ℕ) → fails_tail m r (walked_inodes m r) n ≡ false }
{}

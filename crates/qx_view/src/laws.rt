//! Laws of what an image means.
ghost use Rattle.std.specs.Prelude.{◌≡◌, ◌⊎◌, ◌↔◌, ◌+◌, ◌*◌, ◌<◌, ◌≤◌, ℕ, ◌/◌, ◌%◌, IsTrue, List, [], Contains, count_by, flat_map, ◌==◌, length, Option, Some, None};
ghost use Rattle.qx_geom.specs.declared.system.SystemTree.{SystemTree};
ghost use Rattle.qx_geom.specs.declared.area.Which.{Which};
ghost use Rattle.qx_geom.specs.declared.geometry.Geometry.{Geometry};
ghost use Rattle.qx_geom.specs.Layout.{IsPointerBlock, first_block};
ghost use Rattle.qx_geom.specs.Lists.{Distinct};
ghost use Rattle.qx_nodes.specs.BlockMap.{BlockMap, with_bytes};
ghost use Rattle.qx_nodes.specs.Content.{HasSize, leaf_bytes, levels_fit};
ghost use Rattle.qx_geom.specs.declared.root.Root.{Root};
ghost use Rattle.qx_nodes.specs.NodeContents.{IsSameContent, NodeContent};
ghost use Rattle.qx_records.specs.declared.inode.Inode.{Inode};
ghost use Rattle.qx_records.specs.NameRecord.{Unused};
ghost use Rattle.qx_records.specs.Slots.{record_at};
ghost use Rattle.qx_model.specs.Tree.{Entry, Reached, Tree, links_of};
ghost use Rattle.qx_super.specs.declared.choice.Pick.TheVariants as picks;
ghost use Rattle.qx_super.specs.Active.{active_area, active_super};
ghost use Rattle.qx_super.specs.Superblock.{Superblock};
ghost use Rattle.qx_view.specs.declared.findings.Finding.{Finding};
ghost use Rattle.qx_view.specs.declared.reasons.Foreign.{Foreign as Why};
ghost use Rattle.qx_view.specs.Entries.{IsEntryOf, Reader};
ghost use Rattle.qx_view.specs.Images.{IsInHole, Roots, all_records, block_bytes, image_blocks, main_roots, present_records, raw_of};
ghost use Rattle.qx_view.specs.Reading.{IsHeld, IsTreeOf};
ghost use Rattle.qx_view.specs.Usage.{met_blocks};
ghost use Rattle.qx_view.specs.Walk.{Place, finding_of, inodes_named_in, named_inode, named_inodes, record_tests, records_tests, walked_inodes};
ghost use Rattle.qx_view.specs.Sound.{Clean, Damaged, Foreign, IsDamaged, IsForeign, IsSound, long_number, numbers_named_in, verdict_of, written_geometry};

/// An inode is the same entry with the same content of its node, wherever that stands.
pub fn an_entry_is_read_by_its_content()
    ensures { (r : Reader) (i : Inode) (a b : NodeContent) (e : Entry) → 0 < r.blocksize → IsSameContent r.blocksize a b
        → IsEntryOf r i a e → IsEntryOf r i b e }
{}

/// And with the same long names, wherever those stand.
pub fn names_are_read_alike()
    ensures { (r : Reader) (names : ℕ → Option (List ℕ)) (i : Inode) (c : NodeContent) (e : Entry) → ((n : ℕ) → names n ≡ r.names n)
        → IsEntryOf r i c e → IsEntryOf (record r { names = names }) i c e }
{}

/// Roots have one tree at most.
pub fn roots_have_one_tree()
    ensures { (m : BlockMap) (r : Roots) (t u : Tree) → IsTreeOf m r t → IsTreeOf m r u → t ≡ u }
{}

/// Blocks that agree on each one which the tree holds have the same tree.
pub fn held_blocks_decide_the_tree()
    ensures { (m : BlockMap) (bytes : ℕ → List ℕ) (r : Roots) (t : Tree) → ((b : ℕ) → IsHeld m r t b → m.bytes b ≡ bytes b)
        → IsTreeOf m r t → IsTreeOf (with_bytes m bytes) r t }
{}

/// Where no test of the walk fails, the roots have a tree.
pub fn no_finding_means_a_tree()
    ensures { (m : BlockMap) (r : Roots) → finding_of m r ≡ None → (t : Tree) × IsTreeOf m r t }
{}

/// Where the roots have a tree, no test of the walk fails.
pub fn a_tree_means_no_finding()
    ensures { (m : BlockMap) (r : Roots) (t : Tree) → IsTreeOf m r t → finding_of m r ≡ None }
{}

/// Where a block has whole records, those of a directory stand leaf by leaf: the record at a place of a leaf has the number that both
/// give, and a record's number gives its leaf and its place there.
pub fn the_records_of_a_leaf()
    ensures placed { (m : BlockMap) (node : Root) (leaf place : ℕ) → m.size % 32 ≡ 0 → place < m.size / 32
        → raw_of m node (leaf * (m.size / 32) + place) ≡ (record_at m.order (leaf_bytes m node leaf) place).raw }
    ensures numbered { (m : BlockMap) (node : Root) (k : ℕ) → m.size % 32 ≡ 0 → 0 < m.size
        → raw_of m node k ≡ (record_at m.order (leaf_bytes m node (k / (m.size / 32))) (k % (m.size / 32))).raw }
{}

/// A record of a directory in a leaf that isn't present is unused: it has no test, and names no inode and no long name.
pub fn records_in_holes_say_nothing()
    ensures unused { (m : BlockMap) (node : Root) (k : ℕ) → HasSize m → IsTrue (levels_fit m node) → IsInHole m node k
        → raw_of m node k ≡ Unused }
    ensures tests { (m : BlockMap) (r : Roots) (at : Place) (names : List (List ℕ)) (listed : List ℕ) (node : Root) (k : ℕ)
        → HasSize m → IsTrue (levels_fit m node) → IsInHole m node k → record_tests m r at names listed (raw_of m node k) ≡ [] }
    ensures inode { (m : BlockMap) (longfile node : Root) (k : ℕ) → HasSize m → IsTrue (levels_fit m node) → IsInHole m node k
        → named_inode m longfile (raw_of m node k) ≡ None }
    ensures number { (m : BlockMap) (node : Root) (k : ℕ) → HasSize m → IsTrue (levels_fit m node) → IsInHole m node k
        → long_number (raw_of m node k) ≡ None }
{}

/// So the records of present leaves alone, in their order, give all the tests of a directory, all inodes and all long names that it names,
/// where a block has whole records.
pub fn the_records_of_present_leaves_say_all()
    ensures tests { (m : BlockMap) (r : Roots) (d p : ℕ) (node : Root) (names : List (List ℕ)) (listed : List ℕ)
        → HasSize m → m.size % 32 ≡ 0 → IsTrue (levels_fit m node)
        → records_tests m r d p node names listed (all_records node) ≡ records_tests m r d p node names listed (present_records m node) }
    ensures inodes { (m : BlockMap) (longfile node : Root) → HasSize m → m.size % 32 ≡ 0 → IsTrue (levels_fit m node)
        → inodes_named_in m longfile node (all_records node) ≡ inodes_named_in m longfile node (present_records m node) }
    ensures numbers { (m : BlockMap) (node : Root) → HasSize m → m.size % 32 ≡ 0 → IsTrue (levels_fit m node)
        → numbers_named_in m node (all_records node) ≡ numbers_named_in m node (present_records m node) }
{}

/// The walk of roots that have a tree comes to each block that the tree holds, to each once, and to no other.
pub fn the_walk_meets_the_held_blocks()
    ensures held { (m : BlockMap) (r : Roots) (t : Tree) (b : ℕ) → IsTreeOf m r t → Contains (met_blocks m r) b ↔ IsHeld m r t b }
    ensures once { (m : BlockMap) (r : Roots) (t : Tree) → IsTreeOf m r t → Distinct (met_blocks m r) }
{}

/// And to each inode that the tree reaches, to each once, and to no other.
pub fn the_walk_comes_to_the_reached_inodes()
    ensures reached { (m : BlockMap) (r : Roots) (t : Tree) (n : ℕ) → IsTreeOf m r t → Contains (walked_inodes m r) n ↔ Reached t n }
    ensures once { (m : BlockMap) (r : Roots) (t : Tree) → IsTreeOf m r t → Distinct (walked_inodes m r) }
{}

/// An inode of a tree has as many links as the records of the walk's directories that name it.
pub fn the_walk_counts_the_links()
    ensures { (m : BlockMap) (r : Roots) (t : Tree) (n : ℕ) → IsTreeOf m r t
        → links_of t n ≡ count_by (λ i. i == n) (flat_map (named_inodes m r) (walked_inodes m r)) }
{}

/// An image is clean exactly where it is sound, and then with its active area and that area's superblock.
pub fn clean_images_are_the_sound_ones()
    ensures clean { (img : List ℕ) (area : Which) (s : Superblock) → verdict_of img ≡ Clean area s
        → (active_area img ≡ picks.Active area) × (active_super img ≡ Some s) × ((t : Tree) × IsSound img t) }
    ensures sound { (img : List ℕ) (t : Tree) (area : Which) (s : Superblock) → IsSound img t
        → active_area img ≡ picks.Active area → active_super img ≡ Some s → verdict_of img ≡ Clean area s }
{}

/// An image is foreign for a reason exactly where it has a tree and the reason is the first that applies.
pub fn foreign_images_have_a_tree()
    ensures foreign { (img : List ℕ) (why : Why) → verdict_of img ≡ Foreign why → IsForeign img why }
    ensures reason { (img : List ℕ) (why : Why) → IsForeign img why → verdict_of img ≡ Foreign why }
{}

/// An image is damaged by a finding exactly where the walk finds it, or else the tail or the counts do and no reason applies.
pub fn damaged_images_have_a_finding()
    ensures damaged { (img : List ℕ) (f : Finding) → verdict_of img ≡ Damaged f → IsDamaged img f }
    ensures found { (img : List ℕ) (f : Finding) → IsDamaged img f → verdict_of img ≡ Damaged f }
{}

/// In a sound image the active half is held, and what is held lies in it or outside both halves.
pub fn the_active_half_is_held()
    ensures held { (img : List ℕ) (t : Tree) (which : Which) (s : Superblock) (g : Geometry) (b : ℕ) → IsSound img t
        → active_area img ≡ picks.Active which → active_super img ≡ Some s → written_geometry s (length img) ≡ Some g
        → first_block g which ≤ b → b < first_block g which + g.half → IsHeld (image_blocks img s) (main_roots s) t b }
    ensures others { (img : List ℕ) (t : Tree) (which : Which) (s : Superblock) (g : Geometry) (b : ℕ) → IsSound img t
        → active_area img ≡ picks.Active which → active_super img ≡ Some s → written_geometry s (length img) ≡ Some g
        → IsHeld (image_blocks img s) (main_roots s) t b
        → ((first_block g which ≤ b) × (b < first_block g which + g.half)) ⊎ (2 * g.half ≤ b) }
{}

/// In a sound image the tree has a place for each inode that the superblock counts.
pub fn a_sound_image_has_a_place_for_each_inode()
    ensures { (img : List ℕ) (t : Tree) (s : Superblock) → IsSound img t → active_super img ≡ Some s
        → length t.inodes ≡ s.num_inodes }
{}

/// Images with one length, active area and superblock that agree on each block which the tree holds, and on the other half's pointer blocks,
/// are both sound with this tree, or neither is.
pub fn what_soundness_depends_on()
    ensures { (img other : List ℕ) (t : Tree) → length other ≡ length img
        → active_area other ≡ active_area img → active_super other ≡ active_super img
        → ((s : Superblock) → active_super img ≡ Some s → (b : ℕ) → IsHeld (image_blocks img s) (main_roots s) t b
        → block_bytes img s.blocksize b ≡ block_bytes other s.blocksize b)
        → ((s : Superblock) (g : Geometry) (which : Which) (tree : SystemTree) → active_super img ≡ Some s
        → written_geometry s (length img) ≡ Some g → ¬ (active_area img ≡ picks.Active which)
        → (b : ℕ) → IsPointerBlock g which tree b → block_bytes img s.blocksize b ≡ block_bytes other s.blocksize b)
        → IsSound img t ↔ IsSound other t }
{}

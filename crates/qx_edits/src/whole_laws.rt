//! A whole tree stays whole edit by edit, so that an operation's edits follow one another.
ghost use Rattle.std.specs.Prelude.{◌≡◌, ℕ, ◌/◌, ◌<◌, ◌≤◌, List, Some, length, true};
ghost use Rattle.qx_model.specs.declared.attr.Attr.{Attr};
ghost use Rattle.qx_model.specs.Directories.{is_directory};
ghost use Rattle.qx_model.specs.Edits.{Edit, Setting, add_row, clear_row, lose_row, new_link, point_row, putting, with_attr, with_parent};
ghost use Rattle.qx_model.specs.EmptyTree.{new_directory};
ghost use Rattle.qx_model.specs.NewNames.{empty_file};
ghost use Rattle.qx_model.specs.Tree.{Entry, slots_of};
ghost use Rattle.qx_model.specs.Whole.{HoldsRecords, IsWhole, IsWholeEntry};
ghost use Rattle.qx_edits.specs.UnnumberedEntries.{HasNoNumbers};

/// Each edit leaves a whole tree whole: what it writes follows from the tree that it finds, whatever was written before.
pub fn each_edit_keeps_the_tree_whole()
    ensures added { (s : Setting) (e : Edit) (d n : ℕ) (name : List ℕ) → HoldsRecords s.blocksize → IsWhole s.blocksize e.tree → is_directory e.tree d ≡ true → IsWhole s.blocksize (add_row s d n name e).tree }
    ensures cleared { (s : Setting) (e : Edit) (d k : ℕ) → HoldsRecords s.blocksize → IsWhole s.blocksize e.tree → is_directory e.tree d ≡ true → 2 ≤ k → k < length (slots_of e.tree d) → IsWhole s.blocksize (clear_row s d k e).tree }
    ensures pointed { (s : Setting) (e : Edit) (d k n : ℕ) → HoldsRecords s.blocksize → IsWhole s.blocksize e.tree → is_directory e.tree d ≡ true → 2 ≤ k → k < length (slots_of e.tree d) → IsWhole s.blocksize (point_row s d k n e).tree }
    ensures moved { (s : Setting) (e : Edit) (n to : ℕ) → HoldsRecords s.blocksize → IsWhole s.blocksize e.tree → is_directory e.tree n ≡ true → IsWhole s.blocksize (with_parent s n to e).tree }
    ensures lost { (s : Setting) (e : Edit) (n : ℕ) → IsWhole s.blocksize e.tree → IsWhole s.blocksize (lose_row s n e).tree }
    ensures attributes { (blocksize : ℕ) (e : Edit) (n : ℕ) (change : Attr → Attr) → IsWhole blocksize e.tree → IsWhole blocksize (with_attr n change e).tree }
    ensures comes { (blocksize : ℕ) (e : Edit) (n : ℕ) (x : Entry) → IsWhole blocksize e.tree → IsWholeEntry blocksize n x → HasNoNumbers x → IsWhole blocksize (putting n (Some x) e).tree }
{}

/// New inodes are whole and have no long name.
pub fn new_inodes_are_whole()
    ensures file { (blocksize n moment : ℕ) → IsWholeEntry blocksize n (empty_file moment) × HasNoNumbers (empty_file moment) }
    ensures directory { (blocksize n parent moment : ℕ) → HoldsRecords blocksize → IsWholeEntry blocksize n (new_directory blocksize n parent moment) × HasNoNumbers (new_directory blocksize n parent moment) }
    ensures link { (blocksize n moment : ℕ) (target : List ℕ) → IsWholeEntry blocksize n (new_link blocksize moment target) × HasNoNumbers (new_link blocksize moment target) }
{}

//! What the steps of an edit write.
ghost use Rattle.std.specs.Prelude.{◌≡◌, ℕ, List, [], ◌∷◌, Option};
ghost use Rattle.std.specs.List.{position_or_len};
ghost use Rattle.std.specs.Option.{option_to_list};
ghost use Rattle.qx_model.specs.Answering.{FileAt};
ghost use Rattle.qx_model.specs.Contents.{rewriting};
ghost use Rattle.qx_model.specs.Directories.{has_name, is_unused};
ghost use Rattle.qx_model.specs.Edits.{Edit, Setting, add_row, clear_row, leaf_of_record, lose_row, number_for, point_row, unchanged, with_long, with_parent, writing};
ghost use Rattle.qx_model.specs.Owners.{OfInode, OfLongfile, Owner};
ghost use Rattle.qx_model.specs.Tree.{Tree, dots_name, slots_of};
ghost use Rattle.qx_placing.specs.WrittenLeaves.{WritesLeaves};

/// A step of an edit writes the leaf of its row, of its name, or of its bytes, and no other.
pub fn leaves_are_written_step_by_step()
    ensures step { (o : Owner) (leaves : List ℕ) (e : Edit) → WritesLeaves o leaves e (writing o leaves e) }
    ensures name { (blocksize : ℕ) (long : Option ℕ) (name : List ℕ) (e : Edit) → WritesLeaves OfLongfile (option_to_list long) e (with_long blocksize long name e) }

    // A row is added once its name is.
    ensures added { (s : Setting) (d n : ℕ) (name : List ℕ) (e : Edit)
        → WritesLeaves (OfInode d) (leaf_of_record s.blocksize (position_or_len is_unused (slots_of e.tree d)) ∷ []) (with_long s.blocksize (number_for e.tree name) name e) (add_row s d n name e) }
    ensures cleared { (s : Setting) (d k : ℕ) (e : Edit) → WritesLeaves (OfInode d) (leaf_of_record s.blocksize k ∷ []) e (clear_row s d k e) }
    ensures pointed { (s : Setting) (d k n : ℕ) (e : Edit) → WritesLeaves (OfInode d) (leaf_of_record s.blocksize k ∷ []) e (point_row s d k n e) }
    ensures moved { (s : Setting) (n parent : ℕ) (e : Edit) → WritesLeaves (OfInode n) (leaf_of_record s.blocksize (position_or_len (has_name dots_name) (slots_of e.tree n)) ∷ []) e (with_parent s n parent e) }
    ensures lost { (s : Setting) (n : ℕ) (e : Edit) → (lose_row s n e).written ≡ e.written }
    ensures bytes { (s : Setting) (t : Tree) (f : FileAt) (size : ℕ) (content leaves : List ℕ) → WritesLeaves (OfInode f.inode) leaves (unchanged t) (rewriting s t f size content leaves) }
{}

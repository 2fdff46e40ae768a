//! Rows that are added, cleared and pointed elsewhere, and a directory that gets another parent: what is shown then, and what links are.
ghost use Rattle.std.specs.Prelude.{◌≡◌, ◌≢◌, ℕ, ◌<◌, List, Option, Some, false, length, true};
ghost use Rattle.std.specs.List.{position_or_len};
ghost use Rattle.qx_dir.specs.Rows.{row_of};
ghost use Rattle.qx_fields.specs.declared.order.Order.{Order};
ghost use Rattle.qx_nodes.specs.NodeContents.{IsSameContent};
ghost use Rattle.qx_records.specs.NameRecord as raws;
ghost use Rattle.qx_records.specs.declared.inode.Inode.{Inode};
ghost use Rattle.qx_model.specs.Directories.{is_directory, is_live, is_unused, long_of_slot, slot_at};
ghost use Rattle.qx_model.specs.Edits.{Edit, Setting, absent_number, add_row, clear_row, content_changed, number_for, point_row, with_parent};
ghost use Rattle.qx_model.specs.Tree.{is_dots, named_by, slots_of};
ghost use Rattle.qx_model.specs.Whole.{HoldsRecords, IsWhole};
ghost use Rattle.qx_copies.specs.Copies.{Contents};
ghost use Rattle.qx_copies.specs.Shown.{Shows};
ghost use Rattle.qx_working.specs.declared.links.Link.{Link};
ghost use Rattle.qx_working.specs.Links.{HasLinks};
ghost use Rattle.qx_edits.specs.LinkEdits.{into_parent, one_less, one_more};
ghost use Rattle.qx_edits.specs.NameEdits.{GetsName, LosesName};
ghost use Rattle.qx_edits.specs.RecordEdits.{SetsRecord, raw_naming, record_of};
ghost use Rattle.qx_edits.specs.SetInodes.{SetsAttr};

/// A row is added in the first unused record, or in a leaf more, and a long name at the least number that isn't there.
pub fn a_row_is_added()
    ensures shows { (order : Order) (s : Setting) (before after : List (Option Inode)) (old new : Contents) (e : Edit) (d n : ℕ) (name : List ℕ)
        → HoldsRecords s.blocksize → IsWhole s.blocksize e.tree → Shows order s.blocksize before old e.tree → is_directory e.tree d ≡ true
        → SetsAttr before after d (content_changed s.moment) → ((o : ℕ) → o ≢ 0 → o ≢ d → IsSameContent s.blocksize (old o) (new o))
        → GetsName order s.blocksize (number_for e.tree name) name (old 0) (new 0)
        → SetsRecord order s.blocksize (position_or_len is_unused (slots_of e.tree d)) (row_of n name (absent_number e.tree)) (old d) (new d)
        → Shows order s.blocksize after new (add_row s d n name e).tree }
    ensures links { (s : Setting) (links : List Link) (e : Edit) (d n : ℕ) (name : List ℕ) → is_directory e.tree d ≡ true → is_live e.tree n ≡ true → is_dots name ≡ false
        → HasLinks links e.tree → HasLinks (one_more links n) (add_row s d n name e).tree }
{}

/// A row is cleared, and its long name has no leaf any more.
pub fn a_row_is_cleared()
    ensures shows { (order : Order) (s : Setting) (before after : List (Option Inode)) (old new : Contents) (e : Edit) (d k : ℕ)
        → HoldsRecords s.blocksize → IsWhole s.blocksize e.tree → Shows order s.blocksize before old e.tree → is_directory e.tree d ≡ true → k < length (slots_of e.tree d)
        → SetsAttr before after d (content_changed s.moment) → ((o : ℕ) → o ≢ 0 → o ≢ d → IsSameContent s.blocksize (old o) (new o))
        → LosesName order s.blocksize (long_of_slot (slot_at e.tree d k)) (old 0) (new 0)
        → SetsRecord order s.blocksize k raws.Unused (old d) (new d)
        → Shows order s.blocksize after new (clear_row s d k e).tree }
    ensures links { (s : Setting) (links : List Link) (e : Edit) (d k n : ℕ) → is_directory e.tree d ≡ true → k < length (slots_of e.tree d) → named_by (slot_at e.tree d k) ≡ Some n → is_live e.tree n ≡ true
        → HasLinks links e.tree → HasLinks (one_less links n) (clear_row s d k e).tree }
{}

/// A row names another inode, by the same name.
pub fn a_row_is_pointed()
    ensures shows { (order : Order) (s : Setting) (before after : List (Option Inode)) (old new : Contents) (e : Edit) (d k n : ℕ)
        → HoldsRecords s.blocksize → IsWhole s.blocksize e.tree → Shows order s.blocksize before old e.tree → is_directory e.tree d ≡ true → k < length (slots_of e.tree d)
        → SetsAttr before after d (content_changed s.moment) → ((o : ℕ) → o ≢ d → IsSameContent s.blocksize (old o) (new o))
        → SetsRecord order s.blocksize k (raw_naming n (record_of order s.blocksize (old d) k)) (old d) (new d)
        → Shows order s.blocksize after new (point_row s d k n e).tree }
    ensures links { (s : Setting) (links : List Link) (e : Edit) (d k m n : ℕ) → is_directory e.tree d ≡ true → k < length (slots_of e.tree d) → named_by (slot_at e.tree d k) ≡ Some m → m ≢ n
        → is_live e.tree m ≡ true → is_live e.tree n ≡ true → HasLinks links e.tree → HasLinks (one_more (one_less links m) n) (point_row s d k n e).tree }
{}

/// The row `..` of a directory, which is its second record, names another one.
pub fn a_parent_is_moved()
    ensures shows { (order : Order) (s : Setting) (before after : List (Option Inode)) (old new : Contents) (e : Edit) (n to : ℕ)
        → HoldsRecords s.blocksize → IsWhole s.blocksize e.tree → Shows order s.blocksize before old e.tree → is_directory e.tree n ≡ true
        → SetsAttr before after n (λ a. a) → ((o : ℕ) → o ≢ n → IsSameContent s.blocksize (old o) (new o))
        → SetsRecord order s.blocksize 1 (raw_naming to (record_of order s.blocksize (old n) 1)) (old n) (new n)
        → Shows order s.blocksize after new (with_parent s n to e).tree }
    ensures links { (s : Setting) (links : List Link) (e : Edit) (n to : ℕ) → IsWhole s.blocksize e.tree → is_directory e.tree n ≡ true
        → HasLinks links e.tree → HasLinks (into_parent links n to) (with_parent s n to e).tree }
{}

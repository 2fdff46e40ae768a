//! Operations that make and lose names, composed of their edits: what is shown then, and what links are.
ghost use Rattle.std.specs.Prelude.{◌≡◌, ◌≢◌, ℕ, ◌<◌, ◌≤◌, List, None, Option, Some, false, length, true};
ghost use Rattle.std.specs.List.{position_or_len};
ghost use Rattle.qx_dir.specs.Rows.{row_of};
ghost use Rattle.qx_fields.specs.declared.order.Order.{Order};
ghost use Rattle.qx_nodes.specs.NodeContents.{IsSameContent};
ghost use Rattle.qx_records.specs.NameRecord as raws;
ghost use Rattle.qx_records.specs.declared.inode.Inode.{Inode};
ghost use Rattle.qx_model.specs.Directories.{is_bare, is_directory, is_live, is_unused, long_of_slot, parent_of_body, slot_at};
ghost use Rattle.qx_model.specs.Edits.{Setting, absent_number, add_row, attr_changed, content_changed, number_for, unchanged, with_attr};
ghost use Rattle.qx_model.specs.LostNames.{RowAt, without_row};
ghost use Rattle.qx_model.specs.NewNames.{made_at};
ghost use Rattle.qx_model.specs.Paths.{Place};
ghost use Rattle.qx_model.specs.Tree.{Entry, Tree, entry_of, is_dots, links_of, named_by, slots_of};
ghost use Rattle.qx_model.specs.Whole.{HoldsRecords, IsWhole, IsWholeEntry};
ghost use Rattle.qx_view.specs.Entries.{IsEntryOf};
ghost use Rattle.qx_copies.specs.Copies.{Contents};
ghost use Rattle.qx_copies.specs.Shown.{SetsInode, Shows, reader_by};
ghost use Rattle.qx_working.specs.declared.links.Link.{Link};
ghost use Rattle.qx_working.specs.Links.{HasLinks, with_link};
ghost use Rattle.qx_edits.specs.LinkEdits.{NamesNone, one_less, one_more};
ghost use Rattle.qx_edits.specs.NameEdits.{GetsName, LosesName};
ghost use Rattle.qx_edits.specs.RecordEdits.{SetsRecord};
ghost use Rattle.qx_edits.specs.SetInodes.{SetsAttr};
ghost use Rattle.qx_edits.specs.UnnumberedEntries.{HasNoNumbers};

/// Create, Mkdir and Symlink: a new inode comes, and a row for it.
pub fn a_name_is_made()
    ensures shows { (order : Order) (s : Setting) (before mid after : List (Option Inode)) (old new : Contents) (t : Tree) (p : Place) (n : ℕ) (i : Inode) (x : Entry) (leaves : List ℕ)
        → HoldsRecords s.blocksize → IsWhole s.blocksize t → Shows order s.blocksize before old t → is_directory t p.directory ≡ true → 1 ≤ n → n ≤ length before → entry_of t n ≡ None
        → IsWholeEntry s.blocksize n x → HasNoNumbers x → SetsInode before mid n (Some i) → SetsAttr mid after p.directory (content_changed s.moment)
        → ((o : ℕ) → o ≢ 0 → o ≢ p.directory → o ≢ n → IsSameContent s.blocksize (old o) (new o)) → IsEntryOf (reader_by order s.blocksize (old 0)) i (new n) x
        → GetsName order s.blocksize (number_for t p.name) p.name (old 0) (new 0)
        → SetsRecord order s.blocksize (position_or_len is_unused (slots_of t p.directory)) (row_of n p.name (absent_number t)) (old p.directory) (new p.directory)
        → Shows order s.blocksize after new (made_at s t p n x leaves).tree }
    ensures links { (s : Setting) (links : List Link) (t : Tree) (p : Place) (n : ℕ) (x : Entry) (leaves : List ℕ) (link : Link) → is_directory t p.directory ≡ true → 1 ≤ n → n ≤ length links → entry_of t n ≡ None
        → NamesNone x → is_dots p.name ≡ false → link.rows ≡ links_of t n → ((up : ℕ) → parent_of_body x.body ≡ Some up → link.parent ≡ up)
        → HasLinks links t → HasLinks (one_more (with_link links n link) n) (made_at s t p n x leaves).tree }
{}

/// Link: one more row names an inode, whose ctime changes.
pub fn a_name_is_linked()
    ensures shows { (order : Order) (s : Setting) (before mid after : List (Option Inode)) (old new : Contents) (t : Tree) (p : Place) (n : ℕ)
        → HoldsRecords s.blocksize → IsWhole s.blocksize t → Shows order s.blocksize before old t → is_directory t p.directory ≡ true
        → SetsAttr before mid p.directory (content_changed s.moment) → SetsAttr mid after n (attr_changed s.moment)
        → ((o : ℕ) → o ≢ 0 → o ≢ p.directory → IsSameContent s.blocksize (old o) (new o)) → GetsName order s.blocksize (number_for t p.name) p.name (old 0) (new 0)
        → SetsRecord order s.blocksize (position_or_len is_unused (slots_of t p.directory)) (row_of n p.name (absent_number t)) (old p.directory) (new p.directory)
        → Shows order s.blocksize after new (with_attr n (attr_changed s.moment) (add_row s p.directory n p.name (unchanged t))).tree }
    ensures links { (s : Setting) (links : List Link) (t : Tree) (p : Place) (n : ℕ) → is_directory t p.directory ≡ true → is_live t n ≡ true → is_dots p.name ≡ false
        → HasLinks links t → HasLinks (one_more links n) (with_attr n (attr_changed s.moment) (add_row s p.directory n p.name (unchanged t))).tree }
{}

/// Remove and RemoveDir: a row goes, and its inode with the last one.
pub fn a_name_is_lost()
    ensures last { (order : Order) (s : Setting) (before mid after : List (Option Inode)) (old new : Contents) (t : Tree) (row : RowAt)
        → HoldsRecords s.blocksize → IsWhole s.blocksize t → Shows order s.blocksize before old t → is_directory t row.directory ≡ true → row.record_number < length (slots_of t row.directory)
        → named_by (slot_at t row.directory row.record_number) ≡ Some row.inode → is_live t row.inode ≡ true → row.inode ≢ row.directory → links_of t row.inode ≡ 1
        → SetsAttr before mid row.directory (content_changed s.moment) → SetsInode mid after row.inode None
        → ((o : ℕ) → o ≢ 0 → o ≢ row.directory → o ≢ row.inode → IsSameContent s.blocksize (old o) (new o))
        → LosesName order s.blocksize (long_of_slot (slot_at t row.directory row.record_number)) (old 0) (new 0) → SetsRecord order s.blocksize row.record_number raws.Unused (old row.directory) (new row.directory)
        → Shows order s.blocksize after new (without_row s t row).tree }
    ensures stays { (order : Order) (s : Setting) (before mid after : List (Option Inode)) (old new : Contents) (t : Tree) (row : RowAt)
        → HoldsRecords s.blocksize → IsWhole s.blocksize t → Shows order s.blocksize before old t → is_directory t row.directory ≡ true → row.record_number < length (slots_of t row.directory)
        → named_by (slot_at t row.directory row.record_number) ≡ Some row.inode → 1 < links_of t row.inode
        → SetsAttr before mid row.directory (content_changed s.moment) → SetsAttr mid after row.inode (attr_changed s.moment) → ((o : ℕ) → o ≢ 0 → o ≢ row.directory → IsSameContent s.blocksize (old o) (new o))
        → LosesName order s.blocksize (long_of_slot (slot_at t row.directory row.record_number)) (old 0) (new 0) → SetsRecord order s.blocksize row.record_number raws.Unused (old row.directory) (new row.directory)
        → Shows order s.blocksize after new (without_row s t row).tree }
    ensures links { (s : Setting) (links : List Link) (t : Tree) (row : RowAt) → is_directory t row.directory ≡ true → row.record_number < length (slots_of t row.directory)
        → named_by (slot_at t row.directory row.record_number) ≡ Some row.inode → is_live t row.inode ≡ true → row.inode ≢ row.directory → is_bare t row.inode ≡ true
        → HasLinks links t → HasLinks (one_less links row.inode) (without_row s t row).tree }
{}

//! Rename onto a name that isn't taken, composed of its edits: what is shown then, and what links are.
ghost use Rattle.std.specs.Prelude.{◌≡◌, ℕ, ◌<◌, ◌≤◌, not, ◌&&◌, ◌==◌, false, List, Option, Some, if◌then◌else◌, length, true};
ghost use Rattle.qx_fields.specs.declared.order.Order.{Order};
ghost use Rattle.qx_records.specs.declared.inode.Inode.{Inode};
ghost use Rattle.qx_model.specs.Directories.{is_directory, is_live, slot_at};
ghost use Rattle.qx_model.specs.Edits.{Setting, attr_changed, clear_row, unchanged};
ghost use Rattle.qx_model.specs.LostNames.{RowAt, moved_to};
ghost use Rattle.qx_model.specs.Paths.{Place};
ghost use Rattle.qx_model.specs.Tree.{Tree, is_dots, named_by, slots_of};
ghost use Rattle.qx_model.specs.Whole.{HoldsRecords, IsWhole};
ghost use Rattle.qx_copies.specs.Copies.{Contents};
ghost use Rattle.qx_copies.specs.Shown.{Shows};
ghost use Rattle.qx_working.specs.declared.links.Link.{Link};
ghost use Rattle.qx_working.specs.Links.{HasLinks};
ghost use Rattle.qx_edits.specs.LinkEdits.{into_parent, one_less, one_more};
ghost use Rattle.qx_edits.specs.RowSteps.{AddsRow, ClearsRow, MayMoveParent};
ghost use Rattle.qx_edits.specs.SetInodes.{SetsAttr};

/// Rename to a name that isn't taken: the old row is cleared, the new one added, a directory's parent moved, and the inode's ctime set.
pub fn a_name_is_moved()
    ensures shows { (order : Order) (s : Setting) (first cleared added moved last : List (Option Inode)) (old without with new : Contents) (t : Tree) (from : RowAt) (to : Place)
        → HoldsRecords s.blocksize → IsWhole s.blocksize t → Shows order s.blocksize first old t → is_directory t from.directory ≡ true → 2 ≤ from.record_number → from.record_number < length (slots_of t from.directory) → is_directory t to.directory ≡ true
        → ClearsRow order s t from.directory from.record_number first cleared old without
        → AddsRow order s (clear_row s from.directory from.record_number (unchanged t)).tree to.directory from.inode to.name cleared added without with
        → MayMoveParent order s t from.inode from.directory to.directory added moved with new → SetsAttr moved last from.inode (attr_changed s.moment)
        → Shows order s.blocksize last new (moved_to s t from to).tree }
    ensures links { (s : Setting) (links : List Link) (t : Tree) (from : RowAt) (to : Place) → HoldsRecords s.blocksize → IsWhole s.blocksize t → is_directory t from.directory ≡ true → 2 ≤ from.record_number → from.record_number < length (slots_of t from.directory)
        → named_by (slot_at t from.directory from.record_number) ≡ Some from.inode → is_live t from.inode ≡ true → is_directory t to.directory ≡ true → is_dots to.name ≡ false → HasLinks links t
        → HasLinks (if is_directory t from.inode && not (from.directory == to.directory) then into_parent (one_more (one_less links from.inode) from.inode) from.inode to.directory else one_more (one_less links from.inode) from.inode) (moved_to s t from to).tree }
{}

//! New inodes: what the contents of their nodes are as entries, and how they are filled.
ghost use Rattle.std.specs.Prelude.{◌≡◌, ℕ, ◌^◌, ◌<◌, List, [], ◌∷◌, ◌++◌, None, length};
ghost use Rattle.std.specs.List.{range_with_len};
ghost use Rattle.qx_fields.specs.declared.order.Order.{Order};
ghost use Rattle.qx_geom.specs.Pointer.{ceil_div};
ghost use Rattle.qx_nodes.specs.NodeContents.{NodeContent, bytes_in};
ghost use Rattle.qx_ptree.specs.declared.change.Change.{Change};
ghost use Rattle.qx_ptree.specs.Fates.{written_by};
ghost use Rattle.qx_records.specs.declared.inode.Inode.{Inode};
ghost use Rattle.qx_records.specs.WrittenNames.{short_bytes};
ghost use Rattle.qx_model.specs.EmptyTree.{new_directory};
ghost use Rattle.qx_model.specs.Edits.{directory_mode, file_mode, link_mode, new_attr, new_link};
ghost use Rattle.qx_model.specs.NewNames.{empty_file};
ghost use Rattle.qx_model.specs.Tree.{dot_name, dots_name};
ghost use Rattle.qx_model.specs.Whole.{HoldsRecords};
ghost use Rattle.qx_view.specs.Entries.{IsEntryOf, Reader, attr_of};
ghost use Rattle.qx_edits.specs.NewDirectories.{IsNewDirectory};
ghost use Rattle.qx_edits.specs.PutContents.{IsOverBlocks, IsPutInto};

/// A new inode and its node's content are a new file, a new directory or a new link.
pub fn a_new_inode_is_an_entry()
    ensures file { (r : Reader) (i : Inode) (c : NodeContent) (moment : ℕ) → attr_of i ≡ new_attr file_mode moment → c.size ≡ 0 → c.present ≡ [] → IsEntryOf r i c (empty_file moment) }
    ensures directory { (r : Reader) (i : Inode) (c : NodeContent) (n parent moment : ℕ) → HoldsRecords r.blocksize → attr_of i ≡ new_attr directory_mode moment → IsNewDirectory r.order r.blocksize n parent c
        → IsEntryOf r i c (new_directory r.blocksize n parent moment) }
    ensures link { (r : Reader) (i : Inode) (c : NodeContent) (target : List ℕ) (moment : ℕ) → attr_of i ≡ new_attr link_mode moment → 0 < length target → length target < 1024
        → c.size ≡ length target → c.present ≡ range_with_len 0 (ceil_div (length target) r.blocksize) → bytes_in r.blocksize c ≡ target → IsEntryOf r i c (new_link r.blocksize moment target) }
{}

/// A node of nothing into which `.` and `..` are put is a new directory's, and one into which a target is put has it.
pub fn a_new_node_is_filled()
    ensures directory { (order : Order) (blocksize n parent : ℕ) (c : Change) (a b : NodeContent) → HoldsRecords blocksize → IsOverBlocks blocksize a → a.size ≡ 0 → 0 < n → n < 2 ^ 32 → 0 < parent → parent < 2 ^ 32
        → c.size ≡ blocksize → written_by c ≡ 0 ∷ [] → c.gone ≡ None → IsPutInto blocksize c 0 (short_bytes order n dot_name ++ short_bytes order parent dots_name) a b → IsNewDirectory order blocksize n parent b }
    ensures link { (blocksize : ℕ) (target : List ℕ) (c : Change) (a b : NodeContent) → 0 < blocksize → IsOverBlocks blocksize a → a.size ≡ 0
        → c.size ≡ length target → written_by c ≡ range_with_len 0 (ceil_div (length target) blocksize) → c.gone ≡ None → IsPutInto blocksize c 0 target a b
        → (b.size ≡ length target) × (b.present ≡ range_with_len 0 (ceil_div (length target) blocksize)) × (bytes_in blocksize b ≡ target) }
{}

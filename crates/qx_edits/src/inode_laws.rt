//! Inodes that come, go and get other attributes, and files that get other bytes: what is shown then, and what links are.
ghost use Rattle.std.specs.Prelude.{◌≡◌, ◌≢◌, ℕ, ◌+◌, ◌/◌, ◌<◌, ◌≤◌, List, [], ◌∷◌, None, Option, Some, length, max, true};
ghost use Rattle.qx_fields.specs.declared.order.Order.{Order};
ghost use Rattle.qx_geom.specs.Pointer.{ceil_div};
ghost use Rattle.qx_geom.specs.Positions.{present_after};
ghost use Rattle.qx_nodes.specs.NodeContents.{IsSameContent, bytes_in};
ghost use Rattle.qx_ptree.specs.declared.change.Change.{Change};
ghost use Rattle.qx_ptree.specs.Fates.{written_by};
ghost use Rattle.qx_outside.specs.Trail.{resized};
ghost use Rattle.qx_records.specs.declared.inode.Inode.{Inode};
ghost use Rattle.qx_model.specs.declared.attr.Attr.{Attr};
ghost use Rattle.qx_model.specs.Answering.{FileAt};
ghost use Rattle.qx_model.specs.Contents.{cut_leaves, leaves_of_range, rewriting, written_at};
ghost use Rattle.qx_model.specs.Directories.{is_bare, is_live, parent_of_body};
ghost use Rattle.qx_model.specs.Edits.{Edit, Setting, attr_changed, content_changed, lose_row, putting, with_attr};
ghost use Rattle.qx_model.specs.Tree.{Entry, File, Tree, entry_of, links_of};
ghost use Rattle.qx_view.specs.Entries.{IsEntryOf};
ghost use Rattle.qx_copies.specs.Copies.{Contents};
ghost use Rattle.qx_copies.specs.Shown.{SetsInode, Shows, reader_by};
ghost use Rattle.qx_working.specs.declared.links.Link.{Link};
ghost use Rattle.qx_working.specs.Links.{HasLinks, with_link};
ghost use Rattle.qx_edits.specs.LinkEdits.{NamesNone};
ghost use Rattle.qx_edits.specs.PutContents.{HasZerosBehind, IsOverBlocks, IsPutInto};
ghost use Rattle.qx_edits.specs.SetInodes.{SetsAttr};

/// A number gets a new inode, whose node's content makes it an entry.
pub fn an_inode_comes()
    ensures shows { (order : Order) (blocksize : ℕ) (before after : List (Option Inode)) (old new : Contents) (e : Edit) (n : ℕ) (i : Inode) (x : Entry)
        → 0 < blocksize → 1 ≤ n → n ≤ length before → Shows order blocksize before old e.tree → SetsInode before after n (Some i) → ((o : ℕ) → o ≢ n → IsSameContent blocksize (old o) (new o))
        → IsEntryOf (reader_by order blocksize (old 0)) i (new n) x → Shows order blocksize after new (putting n (Some x) e).tree }
    ensures links { (links : List Link) (e : Edit) (n : ℕ) (x : Entry) (link : Link) → 1 ≤ n → n ≤ length links → entry_of e.tree n ≡ None → NamesNone x → link.rows ≡ links_of e.tree n
        → ((p : ℕ) → parent_of_body x.body ≡ Some p → link.parent ≡ p) → HasLinks links e.tree → HasLinks (with_link links n link) (putting n (Some x) e).tree }
{}

/// An inode that lost a row goes with the last one; else its ctime changes.
pub fn an_inode_loses_a_row()
    ensures goes { (order : Order) (s : Setting) (before after : List (Option Inode)) (old new : Contents) (e : Edit) (n : ℕ) → 0 < s.blocksize → Shows order s.blocksize before old e.tree
        → is_live e.tree n ≡ true → links_of e.tree n ≡ 0 → SetsInode before after n None → ((o : ℕ) → o ≢ n → IsSameContent s.blocksize (old o) (new o))
        → Shows order s.blocksize after new (lose_row s n e).tree }
    ensures stays { (order : Order) (s : Setting) (before after : List (Option Inode)) (old new : Contents) (e : Edit) (n : ℕ) → 0 < s.blocksize → Shows order s.blocksize before old e.tree
        → 0 < links_of e.tree n → SetsAttr before after n (attr_changed s.moment) → ((o : ℕ) → IsSameContent s.blocksize (old o) (new o))
        → Shows order s.blocksize after new (lose_row s n e).tree }
    ensures links { (s : Setting) (links : List Link) (e : Edit) (n : ℕ) → is_live e.tree n ≡ true → is_bare e.tree n ≡ true → HasLinks links e.tree → HasLinks links (lose_row s n e).tree }
{}

/// An inode gets other attributes of the same kind.
pub fn attributes_change()
    ensures shows { (order : Order) (blocksize : ℕ) (before after : List (Option Inode)) (old new : Contents) (e : Edit) (n : ℕ) (change : Attr → Attr)
        → 0 < blocksize → Shows order blocksize before old e.tree → ((a : Attr) → (change a).mode / 4096 ≡ a.mode / 4096)
        → SetsAttr before after n change → ((o : ℕ) → IsSameContent blocksize (old o) (new o)) → Shows order blocksize after new (with_attr n change e).tree }
    ensures links { (links : List Link) (e : Edit) (n : ℕ) (change : Attr → Attr) → HasLinks links e.tree → HasLinks links (with_attr n change e).tree }
{}

/// A file gets other bytes, some of its leaves being written, and its times.
pub fn a_file_is_rewritten()
    ensures shows { (order : Order) (s : Setting) (before after : List (Option Inode)) (old new : Contents) (t : Tree) (f : FileAt) (size : ℕ) (content leaves : List ℕ)
        → 0 < s.blocksize → Shows order s.blocksize before old t → entry_of t f.inode ≡ Some f.entry → f.entry.body ≡ File f.content
        → SetsAttr before after f.inode (content_changed s.moment) → ((o : ℕ) → o ≢ f.inode → IsSameContent s.blocksize (old o) (new o))
        → (new f.inode).size ≡ size → (new f.inode).present ≡ present_after (old f.inode).present (ceil_div size s.blocksize) leaves None → bytes_in s.blocksize (new f.inode) ≡ content
        → Shows order s.blocksize after new (rewriting s t f size content leaves).tree }
    ensures links { (s : Setting) (links : List Link) (t : Tree) (f : FileAt) (size : ℕ) (content leaves : List ℕ) → entry_of t f.inode ≡ Some f.entry → f.entry.body ≡ File f.content
        → HasLinks links t → HasLinks links (rewriting s t f size content leaves).tree }
{}

/// Bytes put into a file's node are written into the file; with none the times alone change. A new size cuts it or fills it up.
pub fn a_file_is_written()
    ensures written { (order : Order) (s : Setting) (before after : List (Option Inode)) (old new : Contents) (t : Tree) (f : FileAt) (at b : ℕ) (bytes : List ℕ) (c : Change)
        → 0 < s.blocksize → Shows order s.blocksize before old t → entry_of t f.inode ≡ Some f.entry → f.entry.body ≡ File f.content
        → SetsAttr before after f.inode (content_changed s.moment) → ((o : ℕ) → o ≢ f.inode → IsSameContent s.blocksize (old o) (new o))
        → IsOverBlocks s.blocksize (old f.inode) → HasZerosBehind s.blocksize (old f.inode)
        → c.size ≡ max (old f.inode).size (at + length (b ∷ bytes)) → written_by c ≡ leaves_of_range s.blocksize at (length (b ∷ bytes)) → c.gone ≡ None
        → IsPutInto s.blocksize c at (b ∷ bytes) (old f.inode) (new f.inode) → Shows order s.blocksize after new (written_at s t f at (b ∷ bytes)).tree }
    ensures timed { (order : Order) (s : Setting) (before after : List (Option Inode)) (old new : Contents) (t : Tree) (f : FileAt) (at : ℕ)
        → 0 < s.blocksize → Shows order s.blocksize before old t → SetsAttr before after f.inode (content_changed s.moment) → ((o : ℕ) → IsSameContent s.blocksize (old o) (new o))
        → Shows order s.blocksize after new (written_at s t f at []).tree }
    ensures sized { (order : Order) (s : Setting) (before after : List (Option Inode)) (old new : Contents) (t : Tree) (f : FileAt) (size at : ℕ) (bytes : List ℕ) (c : Change)
        → 0 < s.blocksize → Shows order s.blocksize before old t → entry_of t f.inode ≡ Some f.entry → f.entry.body ≡ File f.content
        → SetsAttr before after f.inode (content_changed s.moment) → ((o : ℕ) → o ≢ f.inode → IsSameContent s.blocksize (old o) (new o))
        → IsOverBlocks s.blocksize (old f.inode) → HasZerosBehind s.blocksize (old f.inode)
        → c.size ≡ size → written_by c ≡ cut_leaves s.blocksize f.entry size → c.gone ≡ None → size ≤ at
        → IsPutInto s.blocksize c at bytes (old f.inode) (new f.inode) → Shows order s.blocksize after new (rewriting s t f size (resized f.content size) (cut_leaves s.blocksize f.entry size)).tree }
    ensures links { (s : Setting) (links : List Link) (t : Tree) (f : FileAt) (at : ℕ) (bytes : List ℕ) → entry_of t f.inode ≡ Some f.entry → f.entry.body ≡ File f.content
        → HasLinks links t → HasLinks links (written_at s t f at bytes).tree }
{}

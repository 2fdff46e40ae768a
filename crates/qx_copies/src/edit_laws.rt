//! What contents show of a tree, and what they show after one edit.
ghost use Rattle.std.specs.Prelude.{◌≡◌, ◌≢◌, ℕ, ◌<◌, ◌≤◌, List, Option, length};
ghost use Rattle.qx_fields.specs.declared.order.Order.{Order};
ghost use Rattle.qx_geom.specs.Lists.{each_below};
ghost use Rattle.qx_geom.specs.Pointer.{ceil_div};
ghost use Rattle.qx_nodes.specs.LongNames.{name_in};
ghost use Rattle.qx_nodes.specs.NodeContents.{IsSameContent};
ghost use Rattle.qx_records.specs.declared.inode.Inode.{Inode};
ghost use Rattle.qx_model.specs.Directories.{with_entry};
ghost use Rattle.qx_model.specs.Tree.{Entry, Tree};
ghost use Rattle.qx_model.specs.Whole.{HasRowFor};
ghost use Rattle.qx_copies.specs.Copies.{Contents};
ghost use Rattle.qx_copies.specs.Shown.{IsSameInode, SetsInode, Shows, reader_by};

/// Where each node's content is the same, wherever its blocks stand, the same tree is shown.
pub fn contents_that_are_the_same_show_the_same()
    ensures { (order : Order) (blocksize : ℕ) (inodes : List (Option Inode)) (old new : Contents) (t : Tree) → 0 < blocksize
        → ((n : ℕ) → IsSameContent blocksize (old n) (new n)) → Shows order blocksize inodes old t → Shows order blocksize inodes new t }
{}

/// Where one inode is set or taken away, with what its node holds, the tree with it so is shown.
pub fn an_inode_is_set()
    ensures { (order : Order) (blocksize : ℕ) (before after : List (Option Inode)) (old new : Contents) (t : Tree) (n : ℕ) (x : Option Inode) (y : Option Entry)
        → 0 < blocksize → 1 ≤ n → n ≤ length before → Shows order blocksize before old t → SetsInode before after n x
        → ((o : ℕ) → o ≢ n → IsSameContent blocksize (old o) (new o)) → IsSameInode (reader_by order blocksize (old 0)) (new n) x y
        → Shows order blocksize after new (with_entry t n y) }
{}

/// Where the Longfile changes and each number that a row has keeps its name, the tree with the new long names is shown.
pub fn long_names_change()
    ensures { (order : Order) (blocksize : ℕ) (inodes : List (Option Inode)) (old new : Contents) (t u : Tree) → 0 < blocksize → Shows order blocksize inodes old t
        → ((o : ℕ) → o ≢ 0 → IsSameContent blocksize (old o) (new o)) → u.inodes ≡ t.inodes
        → ((number : ℕ) → HasRowFor t number → name_in order blocksize (new 0) number ≡ name_in order blocksize (old 0) number)
        → u.long_size ≡ (new 0).size → u.long_present ≡ (new 0).present → u.long_names ≡ each_below (ceil_div (new 0).size blocksize) (name_in order blocksize (new 0))
        → Shows order blocksize inodes new u }
{}

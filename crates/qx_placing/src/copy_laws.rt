//! When a copy stands for a tree whose nodes lie over the blocks.
ghost use Rattle.std.specs.Prelude.{◌≡◌, ◌*◌, ◌<◌, ◌≤◌, ℕ, false, suc, Some, length};
ghost use Rattle.qx_fields.specs.declared.order.Order.{Order};
ghost use Rattle.qx_geom.specs.declared.root.Root.{Root};
ghost use Rattle.qx_nodes.specs.NodeContents.{IsSameContent, NodeContent, node_content};
ghost use Rattle.qx_nodes.specs.Visits.{present_of};
ghost use Rattle.qx_records.specs.declared.inode.Inode.{Inode};
ghost use Rattle.qx_blocks.specs.BlockState.{BlockState};
ghost use Rattle.qx_ptree.specs.Trees.{IsToldNode, block_map};
ghost use Rattle.qx_batch.specs.Nodes.{AreLaid, Nodes};
ghost use Rattle.qx_model.specs.Rooted.{IsRooted};
ghost use Rattle.qx_model.specs.Tree.{Tree};
ghost use Rattle.qx_model.specs.Whole.{AreUsed, IsWhole};
ghost use Rattle.qx_view.specs.Sound.{has_tail};
ghost use Rattle.qx_copies.specs.Copies.{BlockCopy, contents_of, inode_at, node_in};
ghost use Rattle.qx_copies.specs.Shown.{Shows};
ghost use Rattle.qx_copies.specs.Standing.{AreBounded, IsOwnCopy, IsOwnInode, Represents};
ghost use Rattle.qx_placing.specs.PlannedEdits.{HasNodesOf};
ghost use Rattle.qx_placing.specs.Resized.{has_tail_in};

/// A copy whose nodes lie over the blocks stands for the tree that its inodes and contents show, and is laid out as this project does where its inodes are and nothing has a tail.
pub fn a_copy_of_laid_nodes_stands_for_what_it_shows()
    ensures stands { (order : Order) (m : BlockState) (c : BlockCopy) (nodes : Nodes) → AreLaid order m nodes → HasNodesOf c nodes → (t : Tree) → AreBounded (block_map order m) (node_in c)
        → c.longfile.size ≤ m.holdings.count * m.holdings.size → IsRooted t → Shows order m.holdings.size c.inodes (contents_of (block_map order m) c) t → Represents (block_map order m) c t }
    ensures own { (order : Order) (m : BlockState) (c : BlockCopy) (nodes : Nodes) → AreLaid order m nodes → HasNodesOf c nodes → (t : Tree) → IsWhole m.holdings.size t → AreUsed t
        → ((k : ℕ) (i : Inode) → inode_at c.inodes k ≡ Some i → IsOwnInode i) → ((k : ℕ) (x : Root) → node_in c (suc k) ≡ Some x → has_tail (block_map order m) x ≡ false) → IsOwnCopy (block_map order m) c t }

    // Whether a node has a tail is said by its content, and it has no more leaves than there are blocks.
    ensures tail { (order : Order) (m : BlockState) (x : Root) (held : NodeContent) → 0 < m.holdings.size → IsSameContent m.holdings.size held (node_content (block_map order m) x) → has_tail (block_map order m) x ≡ has_tail_in m.holdings.size held }
    ensures leaves { (order : Order) (m : BlockState) (x : Root) → IsToldNode order m x → length (present_of (block_map order m) x) ≤ m.holdings.count }
{}

//! What a working state's nodes and links are for those that change them.
ghost use Rattle.std.specs.Prelude.{◌≡◌, ◌≢◌, ◌≤◌, ℕ, List, Some, IsTrue, length};
ghost use Rattle.qx_geom.specs.declared.root.Root.{Root};
ghost use Rattle.qx_blocks.specs.BlockState.{BlockState, IsConsistent};
ghost use Rattle.qx_ptree.specs.Trees.{block_map};
ghost use Rattle.qx_batch.specs.Nodes.{AreLaid, with_node};
ghost use Rattle.qx_model.specs.Tree.{Entry, IsDirectory, Tree, entry_of, links_of};
ghost use Rattle.qx_copies.specs.Copies.{node_in};
ghost use Rattle.qx_copies.specs.Standing.{IsOwnCopy};
ghost use Rattle.qx_working.specs.declared.links.Link.{Link};
ghost use Rattle.qx_working.specs.declared.working.Working.{Working};
ghost use Rattle.qx_working.specs.Links.{HasLinks, NamesAlike, link_of, with_link};
ghost use Rattle.qx_working.specs.Standing.{StandsForTree};
ghost use Rattle.qx_working.specs.States.{copy_of, with_node_at};

/// The nodes of a state that stands for a tree and is laid out as this project does can be asked and changed, several at once.
pub fn the_nodes_of_a_state_are_laid()
    ensures { (m : BlockState) (w : Working) (t : Tree) → IsConsistent m → IsTrue m.tells → StandsForTree m w t → IsOwnCopy (block_map w.order m) (copy_of w) t
        → AreLaid w.order m (node_in (copy_of w)) }
{}

/// A node that is put is the number's, and every other number has the node that it had.
pub fn a_node_is_put()
    ensures { (w : Working) (o q : ℕ) (node old : Root) → node_in (copy_of w) o ≡ Some old → node_in (copy_of (with_node_at w o node)) q ≡ with_node (node_in (copy_of w)) o (Some node) q }
{}

/// A link that is set is the number's, and every other number has its own.
pub fn a_link_is_set()
    ensures here { (links : List Link) (n : ℕ) (link : Link) → 1 ≤ n → n ≤ length links → link_of (with_link links n link) n ≡ link }
    ensures others { (links : List Link) (n m : ℕ) (link : Link) → m ≢ n → link_of (with_link links n link) m ≡ link_of links m }
{}

/// Where the link of one inode is set to what the next tree says of it, and the others are named as before, the links are the next tree's.
pub fn links_follow_one_inode()
    ensures { (links : List Link) (t u : Tree) (n : ℕ) (link : Link) → 1 ≤ n → n ≤ length links → HasLinks links t → length u.inodes ≡ length t.inodes → NamesAlike t u n
        → ((e : Entry) → entry_of u n ≡ Some e → link.rows ≡ links_of u n) → ((p : ℕ) → IsDirectory u n p → link.parent ≡ p) → HasLinks (with_link links n link) u }
{}

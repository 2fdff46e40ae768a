//! What an edit of a tree needs that planned changes of nodes make.
ghost use Rattle.std.specs.Prelude.{◌≡◌, ℕ, Bool, false, List, [], Some, None, Contains, length};
ghost use Rattle.qx_fields.specs.declared.order.Order.{Order};
ghost use Rattle.qx_blocks.specs.BlockState.{BlockState};
ghost use Rattle.qx_geom.specs.Lists.{is_in};
ghost use Rattle.qx_ptree.specs.Fates.{written_by};
ghost use Rattle.qx_ptree.specs.Trees.{block_map, empty_node};
ghost use Rattle.qx_batch.specs.declared.planned.Planned.{Planned};
ghost use Rattle.qx_batch.specs.Nodes.{AreLaid, AreNodesOf, Nodes, owners_of, with_node};
ghost use Rattle.qx_batch.specs.Plans.{need_of_all};
ghost use Rattle.qx_model.specs.Edits.{Edit};
ghost use Rattle.qx_model.specs.Machine.{Machine};
ghost use Rattle.qx_model.specs.Space.{is_private, need_of};
ghost use Rattle.qx_model.specs.Tree.{Tree};
ghost use Rattle.qx_model.specs.TreePositions.{Position};
ghost use Rattle.qx_model.specs.TreeTouch.{fresh_positions, written_in};
ghost use Rattle.qx_copies.specs.Copies.{BlockCopy, Contents, contents_of, node_in};
ghost use Rattle.qx_copies.specs.Shown.{Shows};
ghost use Rattle.qx_copies.specs.Standing.{Represents};
ghost use Rattle.qx_placing.specs.PlannedEdits.{ArePrivate, HasNodesOf, IsMadeBy, PlansEdit, owner_of_number};
ghost use Rattle.qx_placing.specs.Resized.{AreResized, HoldNothingElse};

/// A copy has its nodes; and where a number has none, it may get one of nothing, as an inode does that is to come.
pub fn nodes_beside_a_copy()
    ensures own { (c : BlockCopy) → HasNodesOf c (node_in c) }
    ensures comes { (c : BlockCopy) (nodes : Nodes) (o : ℕ) → HasNodesOf c nodes → nodes o ≡ None → HasNodesOf c (with_node nodes o (Some empty_node)) }
{}

/// An edit needs what its changes need together: as many blocks as it has fresh positions, which is what the machine says.
pub fn an_edit_needs_what_its_changes_need()
    ensures positions { (order : Order) (m : BlockState) (c : BlockCopy) (t : Tree) (nodes : Nodes) (ps : List Planned) (e : Edit) (private : Position → Bool) → PlansEdit order m c t nodes ps e
        → ArePrivate order m c private → need_of_all order m ps ≡ length (fresh_positions m.holdings.size t e private) }
    ensures machine { (order : Order) (m : BlockState) (c : BlockCopy) (nodes : Nodes) (ps : List Planned) (e : Edit) (s : Machine) → PlansEdit order m c s.working.tree nodes ps e
        → s.volume.blocksize ≡ m.holdings.size → ArePrivate order m c (is_private s) → need_of_all order m ps ≡ need_of s e }
{}

/// Where the contents that the changes leave show the edited tree, the changes make the edit, if they write what it writes.
pub fn an_edit_is_made_by_what_is_shown()
    ensures { (order : Order) (m : BlockState) (c d : BlockCopy) (t : Tree) (nodes : Nodes) (ps : List Planned) (e : Edit) (held : Contents) → Represents (block_map order m) c t → AreLaid order m nodes → HasNodesOf c nodes
        → AreNodesOf nodes ps → Shows order m.holdings.size d.inodes held e.tree → HoldNothingElse d held → AreResized m.holdings.size ps (contents_of (block_map order m) c) held
        → ((p : Planned) → Contains ps p → (i : ℕ) → is_in (written_in (owner_of_number p.owner) e.written) i ≡ is_in (written_by p.change) i)
        → ((o : ℕ) → is_in (owners_of ps) o ≡ false → written_in (owner_of_number o) e.written ≡ []) → IsMadeBy order m t e ps }
{}

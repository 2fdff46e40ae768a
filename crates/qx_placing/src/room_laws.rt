//! What an edit gives up, and what is free then.
ghost use Rattle.std.specs.Prelude.{◌≡◌, ◌+◌, ℕ, Bool, List, length};
ghost use Rattle.qx_fields.specs.declared.order.Order.{Order};
ghost use Rattle.qx_blocks.specs.BlockState.{BlockState};
ghost use Rattle.qx_batch.specs.declared.planned.Planned.{Planned};
ghost use Rattle.qx_batch.specs.Changes.{total_lost};
ghost use Rattle.qx_batch.specs.Nodes.{Nodes};
ghost use Rattle.qx_model.specs.Edits.{Edit};
ghost use Rattle.qx_model.specs.Ids.{HasIds, HasRoom};
ghost use Rattle.qx_model.specs.Machine.{Machine};
ghost use Rattle.qx_model.specs.Space.{free_count, held_count, need_of, with_edit, is_private};
ghost use Rattle.qx_model.specs.Tree.{Tree};
ghost use Rattle.qx_model.specs.TreePositions.{Position, PresentAscend};
ghost use Rattle.qx_copies.specs.Copies.{BlockCopy};
ghost use Rattle.qx_placing.specs.MovedNodes.{IsEdited};
ghost use Rattle.qx_placing.specs.Placed.{lost_positions};
ghost use Rattle.qx_placing.specs.PlannedEdits.{ArePrivate, PlansEdit};

/// What the changes of an edit give up are the private blocks at positions that don't keep them; so as many blocks are free as the machine says that has the edited tree.
pub fn what_an_edit_gives_up()
    ensures lost { (order : Order) (m : BlockState) (c : BlockCopy) (t : Tree) (nodes : Nodes) (ps : List Planned) (e : Edit) (private : Position → Bool) → PlansEdit order m c t nodes ps e
        → ArePrivate order m c private → total_lost order m ps ≡ length (lost_positions m.holdings.size t e private) }
    ensures held { (s : Machine) (e : Edit) → HasIds s → PresentAscend s.volume.blocksize s.working.tree → PresentAscend s.volume.blocksize e.tree
        → held_count (with_edit e s) + length (lost_positions s.volume.blocksize s.working.tree e (is_private s)) ≡ held_count s + need_of s e }
    ensures free { (order : Order) (m n : BlockState) (c d : BlockCopy) (nodes after : Nodes) (ps : List Planned) (e : Edit) (s : Machine) → IsEdited order m n c d s.working.tree nodes after ps e
        → s.volume.blocksize ≡ m.holdings.size → ArePrivate order m c (is_private s) → HasIds s → HasRoom s → free_count s ≡ m.holdings.free → free_count (with_edit e s) ≡ n.holdings.free }
{}

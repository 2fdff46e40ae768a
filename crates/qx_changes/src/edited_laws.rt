//! What a state stands for once an edit was made.
ghost use Rattle.std.specs.Prelude.{ℕ, List, IsTrue};
ghost use Rattle.qx_blocks.specs.BlockState.{BlockState, IsConsistent};
ghost use Rattle.qx_batch.specs.declared.planned.Planned.{Planned};
ghost use Rattle.qx_batch.specs.Nodes.{AreLaid, AreNodesOf};
ghost use Rattle.qx_ptree.specs.Trees.{block_map};
ghost use Rattle.qx_model.specs.Edits.{Edit};
ghost use Rattle.qx_model.specs.Machine.{Copy};
ghost use Rattle.qx_model.specs.Tree.{Tree};
ghost use Rattle.qx_model.specs.TreePositions.{HasPosition, Position};
ghost use Rattle.qx_copies.specs.Copies.{Contents, node_in};
ghost use Rattle.qx_copies.specs.Standing.{StandsAt};
ghost use Rattle.qx_working.specs.declared.working.Working.{Working};
ghost use Rattle.qx_working.specs.Standing.{StandsForIds};
ghost use Rattle.qx_working.specs.States.{copy_of};
ghost use Rattle.qx_placing.specs.PlannedEdits.{IsMadeBy};
ghost use Rattle.qx_changes.specs.Edited.{BeginsAs, EndsAs, HasEdited, ShowsSound, StandsForOwn};
ghost use Rattle.qx_changes.specs.Made.{AreWritten};

/// A state whose planned changes were made, and whose inodes and contents show the edited tree, stands for it: so an operation has to show this alone.
pub fn an_edited_state_stands()
    ensures edited { (m n : BlockState) (w v after x : Working) (t : Tree) (e : Edit) (ps : List Planned) (held : Contents) → IsTrue n.tells → StandsForOwn m w t → BeginsAs m w v
        → AreNodesOf (node_in (copy_of v)) ps → AreWritten m n v after ps held → IsMadeBy w.order m t e ps → EndsAs n after x → ShowsSound n x e.tree → HasEdited m n w x t e }
    ensures laid { (m : BlockState) (w : Working) (t : Tree) → IsConsistent m → IsTrue m.tells → StandsForOwn m w t → BeginsAs m w w }
{}

/// A state that stands for a tree of ours stands for ids, read as blocks, as soon as these stand at the tree's positions; and back.
pub fn a_state_of_ours_stands_for_ids()
    ensures ids { (m : BlockState) (w : Working) (k : Copy) (block : ℕ → ℕ) → StandsForOwn m w k.tree
        → (IsTrue m.tells → (p : Position) → HasPosition m.holdings.size k.tree p → StandsAt (block_map w.order m) (copy_of w) p (block (k.ids p))) → StandsForIds m w k block }
    ensures own { (m : BlockState) (w : Working) (k : Copy) (block : ℕ → ℕ) → StandsForIds m w k block → StandsForOwn m w k.tree }
{}

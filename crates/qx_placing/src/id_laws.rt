//! The ids of an edited tree, read as blocks, and the blocks that the working tree then holds.
ghost use Rattle.std.specs.Prelude.{◌≡◌, ◌↔◌, ℕ, List, IsTrue, false};
ghost use Rattle.qx_fields.specs.declared.order.Order.{Order};
ghost use Rattle.qx_blocks.specs.BlockState.{BlockState};
ghost use Rattle.qx_ptree.specs.Trees.{block_map};
ghost use Rattle.qx_batch.specs.declared.planned.Planned.{Planned};
ghost use Rattle.qx_batch.specs.Nodes.{AreAllMet, Nodes};
ghost use Rattle.qx_model.specs.Edits.{Edit};
ghost use Rattle.qx_model.specs.IdReadings.{IsPlaced, IsReading, ReadsPlaced};
ghost use Rattle.qx_model.specs.Ids.{HasIds};
ghost use Rattle.qx_model.specs.Machine.{Machine, Volume, start_of};
ghost use Rattle.qx_model.specs.Space.{with_edit};
ghost use Rattle.qx_model.specs.Tree.{Tree};
ghost use Rattle.qx_model.specs.TreePositions.{HasPosition, Position};
ghost use Rattle.qx_copies.specs.Copies.{BlockCopy, node_in};
ghost use Rattle.qx_copies.specs.Standing.{IsOwnCopy, Represents, RepresentsIds, StandsAt};
ghost use Rattle.qx_working.specs.declared.working.Working.{Working};
ghost use Rattle.qx_working.specs.Standing.{StandsForIds, StandsForTree};
ghost use Rattle.qx_working.specs.States.{copy_of};
ghost use Rattle.qx_placing.specs.MovedNodes.{IsEdited, KeepsShared};
ghost use Rattle.qx_placing.specs.Placed.{IsReadAs, block_at, first_block};

/// So the ids of the edited tree are read as the blocks at its positions.
pub fn the_ids_of_an_edited_tree()
    ensures placed { (order : Order) (m n : BlockState) (c d : BlockCopy) (nodes after : Nodes) (ps : List Planned) (e : Edit) (s : Machine) (block : ℕ → ℕ) → IsEdited order m n c d s.working.tree nodes after ps e
        → IsReadAs order m c s block → IsPlaced s e block (block_at (block_map order n) d) }
    ensures ids { (order : Order) (m n : BlockState) (c d : BlockCopy) (nodes after : Nodes) (ps : List Planned) (e : Edit) (s : Machine) (block : ℕ → ℕ) → IsEdited order m n c d s.working.tree nodes after ps e
        → s.volume.blocksize ≡ m.holdings.size → (r : ReadsPlaced s e block (block_at (block_map order n) d)) → RepresentsIds (block_map order n) d (with_edit e s).working r.later }

    // And the blocks are as the machine says again, which has the edited tree.
    ensures again { (order : Order) (m n : BlockState) (c d : BlockCopy) (nodes after : Nodes) (ps : List Planned) (e : Edit) (s : Machine) (block : ℕ → ℕ) → IsEdited order m n c d s.working.tree nodes after ps e
        → IsReadAs order m c s block → HasIds s → IsReading s block → AreAllMet order m (node_in c) → KeepsShared m n → (r : ReadsPlaced s e block (block_at (block_map order n) d))
        → IsReadAs order n d (with_edit e s) r.later }
    ensures state { (m n : BlockState) (w x : Working) (nodes after : Nodes) (ps : List Planned) (e : Edit) (s : Machine) (block : ℕ → ℕ) → IsTrue m.tells → x.order ≡ w.order
        → IsEdited w.order m n (copy_of w) (copy_of x) s.working.tree nodes after ps e → StandsForIds m w s.working block → StandsForTree n x e.tree
        → s.volume.blocksize ≡ m.holdings.size → (r : ReadsPlaced s e block (block_at (block_map w.order n) (copy_of x))) → StandsForIds n x (with_edit e s).working r.later }
{}

/// The first ids of a tree that is mounted are read as the blocks of its copy, where these are held and no block is the working tree's alone.
pub fn the_ids_of_a_mounted_tree()
    ensures apart { (order : Order) (m : BlockState) (c : BlockCopy) (t : Tree) (v : Volume) (serial moment : ℕ) → Represents (block_map order m) c t → IsOwnCopy (block_map order m) c t → v.blocksize ≡ m.holdings.size
        → IsReading (start_of v t serial moment) (first_block (block_map order m) c v.blocksize t) }
    ensures read { (order : Order) (m : BlockState) (c : BlockCopy) (t : Tree) (v : Volume) (serial moment : ℕ) → Represents (block_map order m) c t → IsOwnCopy (block_map order m) c t → v.blocksize ≡ m.holdings.size
        → ((p : Position) (b : ℕ) → StandsAt (block_map order m) c p b → IsTrue (m.holdings.held b)) → ((b : ℕ) → m.holdings.private b ≡ false)
        → IsReadAs order m c (start_of v t serial moment) (first_block (block_map order m) c v.blocksize t) }
{}

/// The working tree holds the blocks at the positions of the edited tree, and no others.
pub fn the_working_tree_holds_the_edited_tree()
    ensures met { (order : Order) (m n : BlockState) (c d : BlockCopy) (t : Tree) (nodes after : Nodes) (ps : List Planned) (e : Edit) → IsEdited order m n c d t nodes after ps e
        → AreAllMet order m (node_in c) → AreAllMet order n (node_in d) }
    ensures blocks { (order : Order) (m n : BlockState) (c d : BlockCopy) (t : Tree) (nodes after : Nodes) (ps : List Planned) (e : Edit) → IsEdited order m n c d t nodes after ps e
        → AreAllMet order m (node_in c) → (b : ℕ) → IsTrue (n.holdings.works b) ↔ ((p : Position) × HasPosition n.holdings.size e.tree p × StandsAt (block_map order n) d p b) }
{}

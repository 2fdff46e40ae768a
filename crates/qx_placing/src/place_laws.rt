//! Where the blocks of an edited tree stand.
ghost use Rattle.std.specs.Prelude.{◌≡◌, ℕ, Bool, false, List, [], IsTrue, Contains};
ghost use Rattle.qx_fields.specs.declared.order.Order.{Order};
ghost use Rattle.qx_blocks.specs.BlockState.{BlockState};
ghost use Rattle.qx_ptree.specs.Takings.{Takes};
ghost use Rattle.qx_ptree.specs.Trees.{block_map};
ghost use Rattle.qx_batch.specs.declared.planned.Planned.{Planned};
ghost use Rattle.qx_batch.specs.Batches.{LeavesShared};
ghost use Rattle.qx_batch.specs.Changes.{AreChanged};
ghost use Rattle.qx_batch.specs.Nodes.{AreLaid, Nodes};
ghost use Rattle.qx_batch.specs.PutNodes.{ArePut};
ghost use Rattle.qx_model.specs.Edits.{Edit};
ghost use Rattle.qx_model.specs.Tree.{Tree};
ghost use Rattle.qx_model.specs.TreePositions.{Position};
ghost use Rattle.qx_model.specs.TreeTouch.{fresh_positions};
ghost use Rattle.qx_copies.specs.Copies.{BlockCopy};
ghost use Rattle.qx_copies.specs.Standing.{StandsAt};
ghost use Rattle.qx_placing.specs.MovedNodes.{AreMoved, IsEdited, KeepsShared};
ghost use Rattle.qx_placing.specs.Placed.{block_at};
ghost use Rattle.qx_placing.specs.PlannedEdits.{ArePrivate};

/// Where blocks stand in the nodes that changes make, and that a put leaves them there; where nothing is changed, they stand where they stood.
pub fn where_the_nodes_of_changes_stand()
    ensures made { (order : Order) (nodes after : Nodes) (m n : BlockState) (ps : List Planned) → AreChanged order nodes after m n ps → AreMoved order nodes after m n ps }
    ensures put { (order : Order) (nodes after : Nodes) (m n o : BlockState) (ps : List Planned) (owner at : ℕ) (bytes : List ℕ) → AreMoved order nodes after m n ps → ArePut order after n o owner at bytes
        → AreMoved order nodes after m o ps }

    ensures same { (order : Order) (nodes : Nodes) (m : BlockState) → AreLaid order m nodes → AreMoved order nodes nodes m m [] }

    // The blocks of other trees stay through preparations, commits and puts.
    ensures shared { (fresh : List ℕ) (m now n : BlockState) → Takes fresh m now → LeavesShared now n → KeepsShared m n }
    ensures shared_put { (order : Order) (nodes : Nodes) (m n o : BlockState) (owner at : ℕ) (bytes : List ℕ) → KeepsShared m n → ArePut order nodes n o owner at bytes → KeepsShared m o }
{}

/// At a position of the edited tree that takes a fresh block stands one that no tree held, the working tree's alone; at any other the block that stood there.
pub fn where_the_blocks_of_an_edit_stand()
    ensures fresh { (order : Order) (m n : BlockState) (c d : BlockCopy) (t : Tree) (nodes after : Nodes) (ps : List Planned) (e : Edit) (private : Position → Bool) → IsEdited order m n c d t nodes after ps e
        → ArePrivate order m c private → (p : Position) (b : ℕ) → StandsAt (block_map order n) d p b → Contains (fresh_positions m.holdings.size t e private) p
        → (m.holdings.held b ≡ false) × IsTrue (n.holdings.private b) }
    ensures stays { (order : Order) (m n : BlockState) (c d : BlockCopy) (t : Tree) (nodes after : Nodes) (ps : List Planned) (e : Edit) (private : Position → Bool) → IsEdited order m n c d t nodes after ps e
        → ArePrivate order m c private → (p : Position) (b : ℕ) → StandsAt (block_map order n) d p b → ¬ (Contains (fresh_positions m.holdings.size t e private) p)
        → StandsAt (block_map order m) c p b × (n.holdings.private b ≡ private p) }
    ensures at { (order : Order) (n : BlockState) (d : BlockCopy) (p : Position) (b : ℕ) → StandsAt (block_map order n) d p b → block_at (block_map order n) d p ≡ b }
{}

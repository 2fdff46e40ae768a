//! Where the blocks of a copy stand.
ghost use Rattle.std.specs.Prelude.{◌≡◌, ℕ};
ghost use Rattle.qx_model.specs.Machine.{Copy};
ghost use Rattle.qx_model.specs.Tree.{Tree};
ghost use Rattle.qx_model.specs.TreePositions.{HasPosition, Position};
ghost use Rattle.qx_nodes.specs.BlockMap.{BlockMap};
ghost use Rattle.qx_copies.specs.Copies.{BlockCopy};
ghost use Rattle.qx_copies.specs.Standing.{IsOwnCopy, Represents, RepresentsIds, StandsAt};

/// The positions of a copy that is laid out as this project does are those of its tree: at each of them stands one block, and at no other any.
pub fn the_positions_of_a_copy_are_its_trees()
    ensures stands { (m : BlockMap) (c : BlockCopy) (t : Tree) → Represents m c t → IsOwnCopy m c t → (p : Position) → HasPosition m.size t p → (b : ℕ) × StandsAt m c p b }
    ensures others { (m : BlockMap) (c : BlockCopy) (t : Tree) → Represents m c t → IsOwnCopy m c t → (p : Position) (b : ℕ) → StandsAt m c p b → HasPosition m.size t p }
    ensures one { (m : BlockMap) (c : BlockCopy) (p : Position) (b d : ℕ) → StandsAt m c p b → StandsAt m c p d → b ≡ d }

    // So it stands for ids as soon as they are read as the blocks at the tree's positions.
    ensures ids { (m : BlockMap) (c : BlockCopy) (k : Copy) (block : ℕ → ℕ) → Represents m c k.tree → IsOwnCopy m c k.tree
        → ((p : Position) → HasPosition m.size k.tree p → StandsAt m c p (block (k.ids p))) → RepresentsIds m c k block }
{}

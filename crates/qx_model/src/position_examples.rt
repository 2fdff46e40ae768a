//! Positions, ids and needs on a small volume that was just made, each computed.
#![tactic(auto, unfolding(crate::specs::Space::free_count, crate::specs::TreeTouch::fresh_positions, crate::specs::EmptyTree::empty_tree, qx_geom::specs::Layout::levels_for, qx_geom::specs::Positions::present_after))]

ghost use Rattle.std.specs.Prelude.{◌≡◌, [], ◌∷◌, codes, replicate, true, false, ◌^◌, ◌-◌};
ghost use Rattle.qx_geom.specs.Room.{fits};
ghost use Rattle.qx_model.specs.declared.operation.Op.TheVariants as op;
ghost use Rattle.qx_model.specs.Owners.{OfInode, OfLongfile};
ghost use Rattle.qx_model.specs.Space.{free_count, fresh_in, need_of};
ghost use Rattle.qx_model.specs.SmallVolume.{at_first, edit_by, edited, letters, made, position_at, small, tree_after};
ghost use Rattle.qx_model.specs.TreePositions.{positions_of};

/// A byte far past the end of a file: one leaf, and a pointer block on each of five levels. A long name has a leaf in the Longfile.
pub fn the_positions_of_small_trees()
    ensures made { positions_of 512 made ≡ position_at (OfInode 1) 0 0 ∷ [] }
    ensures far { positions_of 512 (tree_after made (at_first (op.Create (codes "a")) ∷ at_first (op.Write (codes "a") (2 ^ 41) (codes "x")) ∷ []))
        ≡ position_at (OfInode 1) 0 0 ∷ position_at (OfInode 2) 0 (2 ^ 32) ∷ position_at (OfInode 2) 1 (2 ^ 25) ∷ position_at (OfInode 2) 2 (2 ^ 18)
        ∷ position_at (OfInode 2) 3 (2 ^ 11) ∷ position_at (OfInode 2) 4 16 ∷ position_at (OfInode 2) 5 0 ∷ [] }
    ensures long_name { positions_of 512 (tree_after made (at_first (op.Create (letters 28)) ∷ [])) ≡ position_at OfLongfile 0 0 ∷ position_at (OfInode 1) 0 0 ∷ [] }
{}

/// A first file takes a block for the directory, which the durable tree holds; a second one writes that block again.
pub fn the_ids_of_a_first_file()
    ensures before { (small 1000).working.ids (position_at (OfInode 1) 0 0) ≡ 0 }
    ensures fresh { fresh_in (small 1000) (edit_by made (at_first (op.Create (codes "a")))) ≡ position_at (OfInode 1) 0 0 ∷ [] }
    ensures after { (edited (small 1000) (at_first (op.Create (codes "a")))).working.ids (position_at (OfInode 1) 0 0) ≡ 1 }
    ensures durable { (edited (small 1000) (at_first (op.Create (codes "a")))).durable.copy.ids (position_at (OfInode 1) 0 0) ≡ 0 }
    ensures next { (edited (small 1000) (at_first (op.Create (codes "a")))).next_id ≡ 2 }
    ensures free { free_count (edited (small 1000) (at_first (op.Create (codes "a")))) ≡ 84 }
    ensures again { fresh_in (edited (small 1000) (at_first (op.Create (codes "a")))) (edit_by (tree_after made (at_first (op.Create (codes "a")) ∷ [])) (at_first (op.Create (codes "b")))) ≡ [] }
{}

/// What 68 leaves need, and what fits in 84 free blocks.
pub fn the_need_of_a_fill()
    ensures need { need_of (edited (small 1000) (at_first (op.Create (codes "a")))) (edit_by (tree_after made (at_first (op.Create (codes "a")) ∷ [])) (at_first (op.Fill (codes "a") 0 34816 65))) ≡ 69 }
    ensures lacks { fits false 69 84 ≡ false }
    ensures leaves_the_reserve { fits false 68 84 ≡ true }
    ensures removing { fits true 84 84 ≡ true }
    ensures nothing { fits false 0 0 ≡ true }
{}

//! Laws of an edit of a tree: which positions it touches, which take a fresh block, and how many these are.
ghost use Rattle.std.specs.Prelude.{◌≡◌, ◌≤◌, ◌↔◌, ℕ, Bool, true, [], length, sum_by, Contains};
ghost use Rattle.qx_geom.specs.Lists.{Distinct};
ghost use Rattle.qx_geom.specs.Touch as node;
ghost use Rattle.qx_model.specs.Edits.{Edit};
ghost use Rattle.qx_model.specs.Owners.{Owner};
ghost use Rattle.qx_model.specs.Tree.{Tree};
ghost use Rattle.qx_model.specs.TreePositions.{HasPosition, Position, PresentAscend, owners_of, positions_of, shape_in};
ghost use Rattle.qx_model.specs.TreeTouch.{IsTouched, TakesFresh, WritesPresent, fresh_positions, is_touched, private_in, written_in};

/// The positions that are listed of a tree are those that it has, each once where the present leaves ascend.
pub fn the_positions_of_a_tree()
    ensures listed { (blocksize : ℕ) (t : Tree) (p : Position) → HasPosition blocksize t p → Contains (positions_of blocksize t) p }
    ensures others { (blocksize : ℕ) (t : Tree) (p : Position) → Contains (positions_of blocksize t) p → HasPosition blocksize t p }
    ensures once { (blocksize : ℕ) (t : Tree) → PresentAscend blocksize t → Distinct (positions_of blocksize t) }
{}

/// The test of touched positions, which looks at one node, decides the least set that the rules give over the tree, where the written leaves are present afterwards.
pub fn the_test_decides_what_an_edit_touches()
    ensures { (blocksize : ℕ) (old : Tree) (e : Edit) → WritesPresent blocksize e
        → (p : Position) → HasPosition blocksize e.tree p → IsTouched blocksize old e p ↔ (is_touched blocksize old e p ≡ true) }
{}

/// The positions that take a fresh block are those of the least set that are new or not private.
pub fn the_fresh_positions_of_an_edit()
    ensures { (blocksize : ℕ) (old : Tree) (e : Edit) (private : Position → Bool) → WritesPresent blocksize e
        → (p : Position) → Contains (fresh_positions blocksize old e private) p ↔ TakesFresh blocksize old e private p }
{}

/// What an edit needs is what its nodes need, node by node; a node that is left alone needs nothing; and no more is needed than the new tree has positions.
pub fn the_need_of_an_edit()
    ensures sum { (blocksize : ℕ) (old : Tree) (e : Edit) (private : Position → Bool)
        → length (fresh_positions blocksize old e private)
        ≡ sum_by (λ o. node.need_of blocksize (shape_in blocksize old o) (shape_in blocksize e.tree o) (written_in o e.written) (private_in private o)) (owners_of e.tree) }
    ensures left_alone { (blocksize : ℕ) (old : Tree) (e : Edit) (private : Position → Bool) (o : Owner) → shape_in blocksize e.tree o ≡ shape_in blocksize old o → written_in o e.written ≡ []
        → node.need_of blocksize (shape_in blocksize old o) (shape_in blocksize e.tree o) (written_in o e.written) (private_in private o) ≡ 0 }
    ensures bound { (blocksize : ℕ) (old : Tree) (e : Edit) (private : Position → Bool) → length (fresh_positions blocksize old e private) ≤ length (positions_of blocksize e.tree) }
{}

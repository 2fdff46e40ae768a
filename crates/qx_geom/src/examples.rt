//! The need of changes of small nodes, and of one far leaf, with blocks of 512 bytes.
ghost use Rattle.std.specs.Prelude.{◌≡◌, ◌+◌, ◌^◌, [], ◌∷◌, None, Some};
ghost use Rattle.std.specs.List.{range_with_len};
ghost use Rattle.qx_geom.specs.Positions.{shape_of};
ghost use Rattle.qx_geom.specs.Touch.{all_private, need_of_change, none_private};

/// A node that grows leaf by leaf past its 16 pointers, and shrinks by one leaf.
pub fn the_need_of_a_growing_node()
    ensures leaves { need_of_change 512 (shape_of 512 0 []) 8192 (range_with_len 0 16) None none_private ≡ 16 }
    ensures level { need_of_change 512 (shape_of 512 8192 (range_with_len 0 16)) 8704 (16 ∷ []) None all_private ≡ 2 }
    ensures leaf { need_of_change 512 (shape_of 512 8704 (range_with_len 0 17)) 9216 (17 ∷ []) None all_private ≡ 1 }
    ensures shorter { need_of_change 512 (shape_of 512 9216 (range_with_len 0 18)) 8704 [] None all_private ≡ 0 }
{}

/// The same node, none of whose blocks is private.
pub fn the_need_of_a_frozen_node()
    ensures shorter { need_of_change 512 (shape_of 512 9216 (range_with_len 0 18)) 8704 [] None none_private ≡ 1 }
    ensures taken_out { need_of_change 512 (shape_of 512 9216 (range_with_len 0 18)) 9216 [] (Some 3) none_private ≡ 1 }
    ensures two_leaves { need_of_change 512 (shape_of 512 9216 (range_with_len 0 18)) 9216 (0 ∷ 17 ∷ []) None none_private ≡ 3 }
{}

/// One leaf that only five levels reach, in an empty node.
pub fn the_need_of_a_far_leaf()
    ensures { need_of_change 512 (shape_of 512 0 []) (2 ^ 41 + 1) (2 ^ 32 ∷ []) None none_private ≡ 6 }
{}

/// An empty node that 300,000 bytes fill, or 68 leaves: each leaf, and a pointer block for each 128.
pub fn the_need_of_a_filled_node()
    ensures bytes { need_of_change 512 (shape_of 512 0 []) 300000 (range_with_len 0 586) None none_private ≡ 591 }
    ensures leaves { need_of_change 512 (shape_of 512 0 []) 34816 (range_with_len 0 68) None none_private ≡ 69 }
{}

/// A node whose levels change under leaves that stay: down to none it gives its pointer blocks up, up to five it takes one on each level.
pub fn the_need_of_changed_levels()
    ensures down { need_of_change 512 (shape_of 512 9216 (range_with_len 0 18)) 8192 [] None none_private ≡ 0 }
    ensures up { need_of_change 512 (shape_of 512 8192 (0 ∷ [])) (2 ^ 41 + 1) [] None none_private ≡ 5 }
    ensures up_by_one { need_of_change 512 (shape_of 512 9216 (range_with_len 0 18)) 1048577 [] None none_private ≡ 1 }
    ensures down_by_one { need_of_change 512 (shape_of 512 1048577 (0 ∷ 2048 ∷ [])) 1048576 [] None none_private ≡ 0 }
{}

/// A leaf that takes another's place, as a name that is moved does: both pointer blocks above them, where they differ.
pub fn the_need_of_a_moved_leaf()
    ensures one_above { need_of_change 512 (shape_of 512 9216 (3 ∷ 5 ∷ [])) 9216 (4 ∷ []) (Some 3) none_private ≡ 2 }
    ensures two_above { need_of_change 512 (shape_of 512 131072 (3 ∷ 5 ∷ [])) 131072 (200 ∷ []) (Some 3) none_private ≡ 3 }
    ensures same { need_of_change 512 (shape_of 512 9216 (3 ∷ 5 ∷ [])) 9216 (3 ∷ []) (Some 3) none_private ≡ 2 }
    ensures same_private { need_of_change 512 (shape_of 512 9216 (3 ∷ 5 ∷ [])) 9216 (3 ∷ []) (Some 3) all_private ≡ 0 }
{}

/// A node with holes: its one leaf stays while a level comes above it, and a leaf that is taken out leaves no pointer block.
pub fn the_need_of_a_sparse_node()
    ensures raised { need_of_change 512 (shape_of 512 512 (0 ∷ [])) 8704 [] None none_private ≡ 1 }
    ensures emptied { need_of_change 512 (shape_of 512 131072 (0 ∷ 128 ∷ [])) 131072 [] (Some 128) none_private ≡ 0 }
{}

//! The definitions on a small volume.
ghost use Rattle.std.specs.Prelude.{◌∷◌, None, Some, replicate};
ghost use Rattle.qx_view.specs.Examples.{made_blocks, made_tree};
ghost use Rattle.qx_copies.specs.Examples.{copy_with, made_copy, top_inode};
ghost use Rattle.qx_copies.specs.Standing.{IsOwnCopy, Represents};

/// The copy of a new volume stands for its tree, laid out as this project does; with its inode at another number, or twice, it doesn't stand for it, and with another status it isn't laid out so.
pub fn the_copy_of_a_new_volume()
    ensures tree { Represents made_blocks made_copy made_tree }
    ensures own { IsOwnCopy made_blocks made_copy made_tree }
    ensures other_number { ¬ (Represents made_blocks (copy_with (None ∷ Some top_inode ∷ replicate 14 None)) made_tree) }
    ensures twice { ¬ (Represents made_blocks (copy_with (Some top_inode ∷ Some top_inode ∷ replicate 14 None)) made_tree) }
    ensures other_status { ¬ (IsOwnCopy made_blocks (copy_with (Some (record top_inode { status = 3 }) ∷ replicate 15 None)) made_tree) }
{}

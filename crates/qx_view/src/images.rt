//! Whole images, byte by byte: what the maker leaves at the moment 1000 on a device of 65536 bytes that are 0, and what changed superblocks make of it.
ghost use Rattle.std.specs.Prelude.{◌≡◌, [], ◌∷◌, length, take, Some};
ghost use Rattle.qx_geom.specs.declared.area.Which.TheVariants as areas;
ghost use Rattle.qx_super.specs.declared.choice.Pick.TheVariants as picks;
ghost use Rattle.qx_super.specs.Active.{active_area, active_super};
ghost use Rattle.qx_view.specs.declared.reasons.Reason.TheVariants as reasons;
ghost use Rattle.qx_view.specs.Examples.{bitmap_bytes, directory_bytes, made_super, made_tree};
ghost use Rattle.qx_view.specs.SmallImage.{changed, changed_image, first_bytes, image_with, made_first, second_bytes, small_image};
ghost use Rattle.qx_view.specs.Sound.{Clean, Foreign, IsSound, NoVolume, verdict_of};

/// What the maker writes: its second area is active, and it is sound with the empty tree, so the checker calls it clean.
pub fn the_small_image_is_clean()
    ensures length { length small_image ≡ 65536 }
    ensures active { active_area small_image ≡ picks.Active areas.Second }
    ensures superblock { active_super small_image ≡ Some made_super }
    ensures sound { IsSound small_image made_tree }
    ensures clean { verdict_of small_image ≡ Clean areas.Second made_super }
{}

/// With a byte of one superblock changed the other area is active, and the same tree is there; with both changed there is no volume.
pub fn the_small_image_with_changed_superblocks()
    ensures first { verdict_of (image_with (changed first_bytes) second_bytes)
        ≡ Clean areas.Second made_super }
    ensures first_tree { IsSound (image_with (changed first_bytes) second_bytes) made_tree }
    ensures second { verdict_of (image_with first_bytes (changed second_bytes))
        ≡ Clean areas.First made_first }
    ensures second_tree { IsSound (image_with first_bytes (changed second_bytes)) made_tree }
    ensures both { verdict_of (image_with (changed first_bytes) (changed second_bytes)) ≡ NoVolume }
{}

/// With the top directory's block in a half, or a bit of the bitmap for a free block, it is foreign for these reasons.
pub fn the_small_image_with_changed_blocks()
    ensures halves { verdict_of (changed_image ((6, directory_bytes 4) ∷ []))
        ≡ Foreign (record { reason = reasons.Halves; at = 0 }) }
    ensures bitmap { verdict_of (changed_image ((5, bitmap_bytes 15) ∷ []))
        ≡ Foreign (record { reason = reasons.Bitmap; at = 11 }) }
{}

/// Cut to the end of the second superblock it still has its active area; with a byte less no superblock is valid.
pub fn the_small_image_cut_short()
    ensures whole { active_area (take 61952 small_image) ≡ picks.Active areas.Second }
    ensures part { active_area (take 61951 small_image) ≡ picks.None }
    ensures no_volume { verdict_of (take 61951 small_image) ≡ NoVolume }
{}

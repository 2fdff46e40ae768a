//! Laws of a new volume, and rows of what the maker writes.
ghost use Rattle.std.specs.Prelude.{◌≡◌, ◌<◌, ◌^◌, ℕ, List, None, [], ◌∷◌, ◌++◌, replicate, slice_range};
ghost use Rattle.qx_fields.specs.declared.order.Order.{Order};
ghost use Rattle.qx_fields.specs.declared.order.Order.TheVariants as orders;
ghost use Rattle.qx_geom.specs.declared.area.Which.{Which};
ghost use Rattle.qx_geom.specs.declared.area.Which.TheVariants as areas;
ghost use Rattle.qx_geom.specs.declared.geometry.Geometry.{Geometry};
ghost use Rattle.qx_geom.specs.Layout.{IsGeometry, geometry_of, numbers_of};
ghost use Rattle.qx_nodes.specs.BlockMap.{BlockMap};
ghost use Rattle.qx_model.specs.EmptyTree.{empty_tree};
ghost use Rattle.qx_view.specs.Examples.{made_blocks, made_super};
ghost use Rattle.qx_view.specs.Reading.{IsTreeOf};
ghost use Rattle.qx_view.specs.SmallImage.{first_bytes, second_bytes};
ghost use Rattle.qx_view.specs.Sound.{IsSound, last_finding, reason_of};
ghost use Rattle.qx_make.specs.Blocks.{AreMade, made_block_bytes};
ghost use Rattle.qx_make.specs.NewVolume.{HasNewVolume, made_superblock, new_roots};
ghost use Rattle.qx_make.specs.Superblocks.{made_super_bytes};

/// What the maker writes means the empty tree, from the roots of either half.
pub fn a_new_volume_has_the_empty_tree()
    ensures { (m : BlockMap) (g : Geometry) (order : Order) (moment : ℕ) (which : Which) → IsGeometry g
        → moment < 2 ^ 32 → AreMade g order moment m
        → IsTreeOf m (new_roots g which) (empty_tree g.blocksize g.num_inodes moment) }
{}

/// For the superblock that the maker writes into an area no reason applies and nothing is found last, and the image is sound with the empty tree.
pub fn a_new_volume_is_sound()
    ensures reason { (m : BlockMap) (g : Geometry) (order : Order) (moment serial len : ℕ) (which : Which)
        → geometry_of len g.blocksize g.num_inodes ≡ Ok g
        → moment < 2 ^ 32 → AreMade g order moment m
        → reason_of m (made_superblock g order moment serial which) which len ≡ None }
    ensures last { (m : BlockMap) (g : Geometry) (order : Order) (moment serial len : ℕ) (which : Which)
        → geometry_of len g.blocksize g.num_inodes ≡ Ok g
        → moment < 2 ^ 32 → AreMade g order moment m
        → last_finding m (made_superblock g order moment serial which) len ≡ None }
    ensures sound { (img : List ℕ) (g : Geometry) (order : Order) (moment serial : ℕ) (which : Which)
        → HasNewVolume img g order moment serial which
        → IsSound img (empty_tree g.blocksize g.num_inodes moment) }
{}

/// A volume of 65536 bytes with 16 inodes that was written by hand for the checker is the one that the maker makes at that moment, block by block and both superblocks.
pub fn the_volume_by_hand_is_a_new_one()
    ensures geometry { IsGeometry (numbers_of 65536 512 16) }
    ensures blocks { AreMade (numbers_of 65536 512 16) orders.Little 1000 made_blocks }
    ensures superblock { made_superblock (numbers_of 65536 512 16) orders.Little 1000 2 areas.Second ≡ made_super }
    ensures first { made_super_bytes (numbers_of 65536 512 16) orders.Little 1000 areas.First ≡ first_bytes }
    ensures second { made_super_bytes (numbers_of 65536 512 16) orders.Little 1000 areas.Second ≡ second_bytes }
{}

/// Bytes that a script computed from the format's tables: 252 blocks of 4096 bytes in big order with 256 inodes, and an Inode tree of 17 leaves below a pointer block.
pub fn the_blocks_by_the_tables()
    ensures bitmap { slice_range (made_block_bytes (numbers_of 1048576 4096 256) orders.Big 0x01020304 0) 0 8 ≡ 255 ∷ 255 ∷ 7 ∷ 0 ∷ 0 ∷ 0 ∷ 0 ∷ 0 ∷ [] }
    ensures bitmap_end { slice_range (made_block_bytes (numbers_of 1048576 4096 256) orders.Big 0x01020304 0) 28 36 ≡ 0 ∷ 0 ∷ 0 ∷ 240 ∷ 255 ∷ 255 ∷ 255 ∷ 255 ∷ [] }
    ensures top_inode { slice_range (made_block_bytes (numbers_of 1048576 4096 256) orders.Big 0x01020304 1) 0 128 ≡ replicate 6 0 ++ 16 ∷ [] ++ replicate 9 0 ++ 1 ∷ 2 ∷ 3 ∷ 4 ∷ 1 ∷ 2 ∷ 3 ∷ 4 ∷ 1 ∷ 2 ∷ 3 ∷ 4 ∷ 1 ∷ 2 ∷ 3 ∷ 4 ∷ 65 ∷ 237 ∷ 0 ∷ 0 ∷ 0 ∷ 0 ∷ 0 ∷ 18 ∷ [] ++ replicate 60 255 ++ 0 ∷ 1 ∷ [] ++ replicate 26 0 }
    ensures second_inode { slice_range (made_block_bytes (numbers_of 1048576 4096 256) orders.Big 0x01020304 1) 128 136 ≡ replicate 8 0 }
    ensures further_inodes { slice_range (made_block_bytes (numbers_of 1048576 4096 256) orders.Big 0x01020304 2) 0 8 ≡ replicate 8 0 }
    ensures other_half { slice_range (made_block_bytes (numbers_of 1048576 4096 256) orders.Big 0x01020304 10) 0 40 ≡ replicate 6 0 ++ 16 ∷ [] ++ replicate 9 0 ++ 1 ∷ 2 ∷ 3 ∷ 4 ∷ 1 ∷ 2 ∷ 3 ∷ 4 ∷ 1 ∷ 2 ∷ 3 ∷ 4 ∷ 1 ∷ 2 ∷ 3 ∷ 4 ∷ 65 ∷ 237 ∷ 0 ∷ 0 ∷ 0 ∷ 0 ∷ 0 ∷ 18 ∷ [] }
    ensures top { slice_range (made_block_bytes (numbers_of 1048576 4096 256) orders.Big 0x01020304 18) 0 72 ≡ 0 ∷ 0 ∷ 0 ∷ 1 ∷ 1 ∷ 46 ∷ [] ++ replicate 29 0 ++ 1 ∷ 2 ∷ 46 ∷ 46 ∷ [] ++ replicate 33 0 }
    ensures pointers { slice_range (made_block_bytes (numbers_of 65536 512 68) orders.Little 0 18) 0 8 ≡ 1 ∷ 0 ∷ 0 ∷ 0 ∷ 2 ∷ 0 ∷ 0 ∷ 0 ∷ [] }
    ensures last_pointers { slice_range (made_block_bytes (numbers_of 65536 512 68) orders.Little 0 18) 60 76 ≡ 16 ∷ 0 ∷ 0 ∷ 0 ∷ 17 ∷ 0 ∷ 0 ∷ 0 ∷ [] ++ replicate 8 255 }
    ensures unused_pointers { slice_range (made_block_bytes (numbers_of 65536 512 68) orders.Little 0 18) 504 512 ≡ replicate 8 255 }
    ensures other_pointers { slice_range (made_block_bytes (numbers_of 65536 512 68) orders.Little 0 37) 0 8 ≡ 20 ∷ 0 ∷ 0 ∷ 0 ∷ 21 ∷ 0 ∷ 0 ∷ 0 ∷ [] }
    ensures other_last_pointers { slice_range (made_block_bytes (numbers_of 65536 512 68) orders.Little 0 37) 60 76 ≡ 35 ∷ 0 ∷ 0 ∷ 0 ∷ 36 ∷ 0 ∷ 0 ∷ 0 ∷ [] ++ replicate 8 255 }
    ensures leaf_before_pointers { slice_range (made_block_bytes (numbers_of 65536 512 68) orders.Little 0 17) 0 8 ≡ replicate 8 0 }
    ensures top_behind_pointers { slice_range (made_block_bytes (numbers_of 65536 512 68) orders.Little 0 38) 0 8 ≡ 1 ∷ 0 ∷ 0 ∷ 0 ∷ 1 ∷ 46 ∷ 0 ∷ 0 ∷ [] }
    ensures bitmap_with_pointers { slice_range (made_block_bytes (numbers_of 65536 512 68) orders.Little 0 0) 0 16 ≡ 255 ∷ 255 ∷ 255 ∷ 255 ∷ 127 ∷ [] ++ replicate 7 0 ++ 255 ∷ 255 ∷ 255 ∷ 255 ∷ [] }
{}

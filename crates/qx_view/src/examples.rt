//! The definitions computed on small volumes.
ghost use Rattle.std.specs.Prelude.{◌≡◌, ℕ, List, ◌∷◌, [], ◌++◌, drop, replicate, take, None};
ghost use Rattle.qx_geom.specs.declared.area.Which.TheVariants as areas;
ghost use Rattle.qx_fields.specs.declared.order.Order.TheVariants as orders;
ghost use Rattle.qx_geom.specs.Layout.{numbers_of};
ghost use Rattle.qx_nodes.specs.Leaves.{Block, Damage, Hole, leaf_of};
ghost use Rattle.qx_view.specs.declared.reasons.Reason.TheVariants as reasons;
ghost use Rattle.qx_view.specs.declared.findings.Code.TheVariants as codes;
ghost use Rattle.qx_view.specs.Images.{main_roots};
ghost use Rattle.qx_view.specs.Numbers.{code_number, reason_number};
ghost use Rattle.qx_view.specs.Reading.{IsTreeOf};
ghost use Rattle.qx_view.specs.Walk.{finding_of, walked_inodes};
ghost use Rattle.qx_view.specs.Sound.{reason_of};
ghost use Rattle.qx_view.specs.Usage.{foreign_usage, sound_usage};
ghost use Rattle.qx_view.specs.Examples.{bitmap_bytes, chain, chained, directory_bytes, dots_bytes, filled, finding_in, foreign_for, found, inode_bytes_with, last_in, long_roots, made_blocks, made_but, made_super, made_tree, one_file, one_pointer, reason_in, row_bytes, small_roots, two_directories, vast_directory, with_long_row, with_rows, with_second, with_top};

/// The numbers that are printed of the tests of the walk.
pub fn the_numbers_of_codes()
    ensures levels { code_number codes.Levels ≡ 1 }
    ensures pointer { code_number codes.Pointer ≡ 2 }
    ensures twice { code_number codes.Twice ≡ 3 }
    ensures no_inode { code_number codes.NoInode ≡ 4 }
    ensures kind { code_number codes.Kind ≡ 5 }
    ensures link_size { code_number codes.LinkSize ≡ 6 }
    ensures record_length { code_number codes.Record ≡ 7 }
    ensures long_name { code_number codes.LongName ≡ 8 }
    ensures long_sum { code_number codes.LongSum ≡ 9 }
    ensures same_name { code_number codes.SameName ≡ 10 }
    ensures name_byte { code_number codes.NameByte ≡ 11 }
    ensures dots { code_number codes.Dots ≡ 12 }
    ensures dir_twice { code_number codes.DirTwice ≡ 13 }
    ensures tail { code_number codes.Tail ≡ 14 }
    ensures counts { code_number codes.Counts ≡ 15 }
{}

/// The numbers that are printed of the reasons for which an image is foreign.
pub fn the_numbers_of_reasons()
    ensures numbers { reason_number reasons.Numbers ≡ 1 }
    ensures halves { reason_number reasons.Halves ≡ 2 }
    ensures bitmap { reason_number reasons.Bitmap ≡ 3 }
    ensures nodes { reason_number reasons.Nodes ≡ 4 }
    ensures dots { reason_number reasons.Dots ≡ 5 }
    ensures inodes { reason_number reasons.Inodes ≡ 6 }
    ensures long_names { reason_number reasons.LongNames ≡ 7 }
{}

/// Two directories, whole and damaged: the walk's order and its finding.
pub fn the_walk_of_two_directories()
    ensures order { walked_inodes (two_directories 2 4) small_roots ≡ 1 ∷ 2 ∷ [] }
    ensures whole { finding_of (two_directories 2 4) small_roots ≡ None }
    ensures no_inode { finding_of (two_directories 5 4) small_roots ≡ found codes.NoInode 1 3 }
    ensures twice { finding_of (two_directories 2 3) small_roots ≡ found codes.Twice 2 3 }
    ensures kind { finding_of (two_directories 3 4) small_roots ≡ found codes.Kind 1 3 }
    ensures cycle { finding_of (two_directories 1 4) small_roots ≡ found codes.DirTwice 1 3 }
{}

/// A file under two names, in both orders: it is listed once. Read in the other order, the top inode's mode says no kind.
pub fn the_walk_in_both_orders()
    ensures little { walked_inodes (one_file orders.Little) small_roots ≡ 1 ∷ 2 ∷ [] }
    ensures big { walked_inodes (one_file orders.Big) small_roots ≡ 1 ∷ 2 ∷ [] }
    ensures little_whole { finding_of (one_file orders.Little) small_roots ≡ None }
    ensures big_whole { finding_of (one_file orders.Big) small_roots ≡ None }
    ensures other_order { finding_of (record (one_file orders.Big) { order = orders.Little }) small_roots
        ≡ found codes.Kind 1 0xFFFFFFFF }
{}

/// The first and the last leaf under 0 to 5 levels: a leaf's block is one further for each level, and what no pointer reaches is a hole.
pub fn the_leaves_under_levels()
    ensures none { leaf_of chain (chained 0) 15 ≡ Block 1 }
    ensures one { leaf_of chain (chained 1) 2047 ≡ Block 2 }
    ensures two { leaf_of chain (chained 2) 262143 ≡ Block 3 }
    ensures three { leaf_of chain (chained 3) 33554431 ≡ Block 4 }
    ensures four { leaf_of chain (chained 4) 4294967295 ≡ Block 5 }
    ensures five { leaf_of chain (chained 5) 549755813887 ≡ Block 6 }
    ensures first { leaf_of chain (chained 5) 0 ≡ Block 6 }
    ensures last_of_the_first { leaf_of chain (chained 5) 34359738367 ≡ Block 6 }
    ensures hole { leaf_of chain (chained 5) 34359738368 ≡ Hole }
    ensures past_the_pointers { leaf_of chain (chained 5) 549755813888 ≡ Hole }
    ensures damage { leaf_of (record chain { count = 5 }) (chained 5) 0 ≡ Damage }
{}

/// A directory of 2^48 bytes whose pointers lead out of the volume, or round in it, is refused at once.
pub fn the_walk_of_a_vast_directory()
    ensures outside { finding_of (vast_directory (row_bytes 9 (46 ∷ []))) small_roots
        ≡ found codes.Pointer 1 9 }
    ensures looping { finding_of (vast_directory []) small_roots ≡ found codes.Twice 1 0 }
{}

/// The first failing test of a new volume with changes, code by code.
pub fn the_findings_of_changed_volumes()
    ensures levels { finding_in (with_top (inode_bytes_with 512 0x41ED 6 1 (10 ∷ [])))
        ≡ found codes.Levels 1 0xFFFFFFFF }
    ensures large { finding_in (with_top (inode_bytes_with 8193 0x41ED 0 1 (10 ∷ [])))
        ≡ found codes.Levels 1 0xFFFFFFFF }
    ensures past_the_blocks { finding_in (with_top (inode_bytes_with 512 0x41ED 0 1 (96 ∷ [])))
        ≡ found codes.Pointer 1 96 }
    ensures of_the_half { finding_in (with_top (directory_bytes 9)) ≡ found codes.Twice 1 9 }
    ensures empty_link { finding_in (with_second (inode_bytes_with 0 0xA1FF 0 3 []) [])
        ≡ found codes.LinkSize 2 0xFFFFFFFF }
    ensures short_link { finding_in (with_second (inode_bytes_with 1023 0xA1FF 0 3 (11 ∷ 12 ∷ [])) [])
        ≡ None }
    ensures long_link { finding_in (with_second (inode_bytes_with 1024 0xA1FF 0 3 (11 ∷ 12 ∷ [])) [])
        ≡ found codes.LinkSize 2 0xFFFFFFFF }
    ensures special { finding_in (with_second (inode_bytes_with 0 0x21FF 0 3 (96 ∷ [])) []) ≡ None }
    ensures bad_length { finding_in (with_rows (filled 32 (1 ∷ 0 ∷ 0 ∷ 0 ∷ 28 ∷ [])))
        ≡ found codes.Record 1 10 }
    ensures unused { finding_in (with_rows (filled 32 (0 ∷ 0 ∷ 0 ∷ 0 ∷ 28 ∷ []))) ≡ None }
    ensures no_long_name { finding_in (with_long_row 0 0x400000AC) ≡ found codes.LongName 1 10 }
    ensures past_the_long_names { finding_of (with_long_row 1 0x400000AC) long_roots
        ≡ found codes.LongName 1 10 }
    ensures other_sum { finding_of (with_long_row 0 0x400000AD) long_roots ≡ found codes.LongSum 1 10 }
    ensures right_sum { finding_of (with_long_row 0 0x400000AC) long_roots ≡ found codes.DirTwice 1 10 }
    ensures slash { finding_in (with_rows (row_bytes 1 (97 ∷ 47 ∷ []))) ≡ found codes.NameByte 1 10 }
    ensures same_name { finding_in (with_rows (row_bytes 1 (46 ∷ []))) ≡ found codes.SameName 1 10 }
    ensures other_dot { finding_in (made_but ((10, dots_bytes 2 1) ∷ [])) ≡ found codes.Dots 1 10 }
    ensures other_dots { finding_in (made_but ((10, dots_bytes 1 2) ∷ [])) ≡ found codes.Dots 1 10 }
    ensures past_the_inodes { finding_in (with_rows (row_bytes 17 (97 ∷ []))) ≡ found codes.NoInode 1 10 }
    ensures no_kind { finding_in (with_rows (row_bytes 16 (97 ∷ []))) ≡ found codes.Kind 1 10 }
    ensures top_again { finding_in (with_rows (row_bytes 1 (97 ∷ []))) ≡ found codes.DirTwice 1 10 }
    ensures file { finding_in (with_second (inode_bytes_with 100 0x81A4 0 3 (11 ∷ [])) []) ≡ None }
    ensures top_of_no_kind { finding_in (with_top []) ≡ found codes.Kind 1 0xFFFFFFFF }
    ensures top_no_directory { finding_in (with_top (inode_bytes_with 512 0x81A4 0 3 (10 ∷ [])))
        ≡ found codes.Kind 1 0xFFFFFFFF }
{}

/// The first reason of a new volume with changes, reason by reason.
pub fn the_reasons_of_changed_volumes()
    ensures other_version { reason_in made_blocks (record made_super { version1 = 2 })
        ≡ foreign_for reasons.Numbers 0 }
    ensures other_number_of_blocks { reason_in made_blocks (record made_super { num_blocks = 95 })
        ≡ foreign_for reasons.Numbers 0 }
    ensures few_inodes { reason_in made_blocks (record made_super { num_inodes = 15 })
        ≡ foreign_for reasons.Numbers 0 }
    ensures fourth_root { reason_in made_blocks (record made_super { fourth = one_pointer 0 20 })
        ≡ foreign_for reasons.Numbers 0 }
    ensures levels_of_nothing { reason_in made_blocks
        (record made_super { fourth = record { size = 0; pointers = replicate 16 0xFFFFFFFF; levels = 3 } })
        ≡ None }
    ensures other_bitmap { reason_in made_blocks (record made_super { bitmap = one_pointer 12 0 })
        ≡ foreign_for reasons.Halves 0 }
    ensures inside_a_half { reason_in (with_top (directory_bytes 4)) made_super
        ≡ foreign_for reasons.Halves 0 }
    ensures bit_set { reason_in (made_but ((5, bitmap_bytes 15) ∷ [])) made_super
        ≡ foreign_for reasons.Bitmap 11 }
    ensures bit_clear { reason_in (made_but ((5, bitmap_bytes 3) ∷ [])) made_super
        ≡ foreign_for reasons.Bitmap 10 }
    ensures bit_past_the_blocks { reason_in
        (made_but ((5, 255 ∷ 7 ∷ [] ++ replicate 10 0 ++ 254 ∷ [] ++ replicate 499 255) ∷ [])) made_super
        ≡ foreign_for reasons.Bitmap 96 }
    ensures more_levels { reason_in
        (made_but ((6, inode_bytes_with 512 0x41ED 1 1 (11 ∷ []))
        ∷ (11, 10 ∷ 0 ∷ 0 ∷ 0 ∷ [] ++ replicate 508 255) ∷ (5, bitmap_bytes 15) ∷ [])) made_super
        ≡ foreign_for reasons.Nodes 1 }
    ensures stray { reason_in (with_top (inode_bytes_with 512 0x41ED 0 1 (10 ∷ 20 ∷ []))) made_super
        ≡ foreign_for reasons.Nodes 1 }
    ensures stray_of_the_longfile { reason_in made_blocks (record made_super { longfile = one_pointer 0 20 })
        ≡ foreign_for reasons.Nodes 0 }
    ensures hole { reason_in (with_top (inode_bytes_with 1024 0x41ED 0 1 (10 ∷ []))) made_super
        ≡ foreign_for reasons.Nodes 1 }
    ensures odd_size { reason_in (with_top (inode_bytes_with 500 0x41ED 0 1 (10 ∷ []))) made_super
        ≡ foreign_for reasons.Nodes 1 }
    ensures dots_swapped { reason_in
        (made_but ((10, row_bytes 1 (46 ∷ 46 ∷ []) ++ row_bytes 1 (46 ∷ [])) ∷ [])) made_super
        ≡ foreign_for reasons.Dots 1 }
    ensures other_status { reason_in (with_top (inode_bytes_with 512 0x41ED 0 3 (10 ∷ []))) made_super
        ≡ foreign_for reasons.Inodes 1 }
    ensures lost_inode { reason_in (with_top (directory_bytes 10 ++ 1 ∷ [])) made_super
        ≡ foreign_for reasons.Inodes 2 }
    ensures special { reason_in
        (made_but ((6, directory_bytes 10 ++ inode_bytes_with 0 0x21FF 0 3 [])
        ∷ (10, dots_bytes 1 1 ++ row_bytes 2 (102 ∷ [])) ∷ [])) made_super
        ≡ foreign_for reasons.Inodes 2 }
    ensures bare_block { reason_in
        (with_second (inode_bytes_with 8704 0x81A4 1 3 (11 ∷ [])) (replicate 512 255)) made_super
        ≡ foreign_for reasons.Nodes 2 }
    ensures ext_mode { reason_in
        (with_top (take 34 (directory_bytes 10) ++ 1 ∷ drop 35 (directory_bytes 10))) made_super
        ≡ foreign_for reasons.Inodes 1 }
    ensures unnamed_byte { reason_in (with_top (take 127 (directory_bytes 10) ++ 1 ∷ [])) made_super
        ≡ foreign_for reasons.Inodes 1 }
    ensures long_names_of_odd_size { reason_in made_blocks
        (record made_super { longfile = one_pointer 100 0xFFFFFFFF })
        ≡ foreign_for reasons.LongNames 0 }
    ensures long_name_without_row { reason_in (made_but ((5, bitmap_bytes 15) ∷ []))
        (record made_super {
          longfile = record { size = 1024; pointers = 0xFFFFFFFF ∷ 11 ∷ replicate 14 0xFFFFFFFF; levels = 0 };
        })
        ≡ foreign_for reasons.LongNames 1 }
    ensures file { reason_in (with_second (inode_bytes_with 100 0x81A4 0 3 (11 ∷ [])) [])
        (record made_super { free_inodes = 14; free_blocks = 84 })
        ≡ None }
{}

/// The last finding of a new volume with changes.
pub fn the_last_findings_of_changed_volumes()
    ensures file { last_in (with_second (inode_bytes_with 100 0x81A4 0 3 (11 ∷ [])) [])
        (record made_super { free_inodes = 14; free_blocks = 84 })
        ≡ None }
    ensures tail { last_in
        (with_second (inode_bytes_with 100 0x81A4 0 3 (11 ∷ [])) (replicate 100 0 ++ 1 ∷ []))
        (record made_super { free_inodes = 14; free_blocks = 84 })
        ≡ found codes.Tail 2 0xFFFFFFFF }
    ensures last_byte { last_in
        (with_second (inode_bytes_with 100 0x81A4 0 3 (11 ∷ [])) (replicate 99 0 ++ 1 ∷ []))
        (record made_super { free_inodes = 14; free_blocks = 84 })
        ≡ None }
    ensures free_blocks { last_in made_blocks (record made_super { free_blocks = 84 })
        ≡ found codes.Counts 0 0xFFFFFFFF }
    ensures free_inodes { last_in made_blocks (record made_super { free_inodes = 14 })
        ≡ found codes.Counts 0 0xFFFFFFFF }
{}

/// What the maker writes has the empty tree and is clean, with the second area's half and no other.
pub fn a_new_volume_is_clean()
    ensures empty { IsTreeOf made_blocks (main_roots made_super) made_tree }
    ensures whole { finding_in made_blocks ≡ None }
    ensures ours { reason_in made_blocks made_super ≡ None }
    ensures other_half { reason_of made_blocks made_super areas.First 65536 ≡ foreign_for reasons.Halves 0 }
    ensures other_length { reason_of made_blocks made_super areas.Second 69632
        ≡ foreign_for reasons.Numbers 0 }
    ensures counted { last_in made_blocks made_super ≡ None }
{}

/// The usage of a new volume: as a sound one, and as if it were foreign and mounted for reading, where the halves' leaves that the walk comes to
/// and the top directory's block aren't free. Where more inodes are reached than there are, none is free.
pub fn the_usage_of_a_new_volume()
    ensures sound { sound_usage (numbers_of 65536 512 16) made_super
        ≡ record { user = 86; free = 85; inodes = 16; free_inodes = 15 } }
    ensures foreign { foreign_usage made_blocks (main_roots made_super) made_super
        ≡ record { user = 96; free = 90; inodes = 16; free_inodes = 15 } }
    ensures none_left { (foreign_usage made_blocks (main_roots made_super)
        (record made_super { num_inodes = 0 })).free_inodes
        ≡ 0 }
    ensures unmet { (foreign_usage made_blocks
        (record (main_roots made_super) { further = [] }) made_super).free
        ≡ 91 }
{}

//! More volumes on which the definitions are computed: the order of the walk, and what only a larger layout shows.
ghost use Rattle.std.specs.Prelude.{◌≡◌, ◌^◌, ◌∷◌, [], ◌++◌, drop, replicate, take, None};
ghost use Rattle.qx_geom.specs.Pointer.{absent};
ghost use Rattle.qx_geom.specs.declared.area.Which.TheVariants as areas;
ghost use Rattle.qx_view.specs.declared.reasons.Reason.TheVariants as reasons;
ghost use Rattle.qx_view.specs.declared.findings.Code.TheVariants as codes;
ghost use Rattle.qx_view.specs.Images.{main_roots};
ghost use Rattle.qx_view.specs.Walk.{finding_of, walked_inodes};
ghost use Rattle.qx_view.specs.Sound.{reason_of};
ghost use Rattle.qx_view.specs.Examples.{bitmap_bytes, directory_bytes, dots_bytes, eighteen_inodes, eighteen_super, eighty_inodes, eighty_super, finding_in, foreign_for, found, inode_bytes_with, last_in, long_roots, long_row_bytes, long_row_of, long_super, made_blocks, made_but, made_super, one_pointer, pointers_from, reason_in, row_bytes, with_directories, with_faulty, with_long_name, with_rows, with_top};

/// Three directories: one that is named again, by a later row of its parent or by another directory, is found at that row. One whose `..` names
/// another than the directory that names it is found at its own.
pub fn the_walk_of_three_directories()
    ensures whole { finding_in (with_directories (row_bytes 2 (100 ∷ []) ++ row_bytes 3 (101 ∷ [])) [] [])
        ≡ None }
    ensures same_parent { finding_in
        (with_directories (row_bytes 2 (100 ∷ []) ++ row_bytes 3 (101 ∷ []) ++ row_bytes 2 (102 ∷ [])) [] [])
        ≡ found codes.DirTwice 1 10 }
    ensures earlier { finding_in
        (with_directories (row_bytes 2 (100 ∷ []) ++ row_bytes 3 (101 ∷ [])) (row_bytes 3 (102 ∷ [])) [])
        ≡ found codes.DirTwice 2 11 }
    ensures later { finding_in (with_directories (row_bytes 2 (100 ∷ []) ++ row_bytes 3 (101 ∷ [])) []
        (row_bytes 2 (102 ∷ [])))
        ≡ found codes.DirTwice 3 12 }
    ensures other_parent { finding_in (with_directories (row_bytes 2 (100 ∷ [])) (row_bytes 3 (101 ∷ [])) [])
        ≡ found codes.Dots 3 12 }
{}

/// The walk takes inodes in the order in which rows name them, those of a directory before those of the directories that it names.
pub fn the_walk_takes_what_was_listed_first()
    ensures three_first { finding_in (with_faulty (row_bytes 3 (97 ∷ []) ++ row_bytes 4 (98 ∷ [])) [])
        ≡ found codes.Levels 3 0xFFFFFFFF }
    ensures four_first { finding_in (with_faulty (row_bytes 4 (97 ∷ []) ++ row_bytes 3 (98 ∷ [])) [])
        ≡ found codes.LinkSize 4 0xFFFFFFFF }
    ensures three_below { finding_in
        (with_faulty (row_bytes 2 (97 ∷ []) ++ row_bytes 4 (98 ∷ [])) (row_bytes 3 (99 ∷ [])))
        ≡ found codes.LinkSize 4 0xFFFFFFFF }
    ensures four_below { finding_in
        (with_faulty (row_bytes 2 (97 ∷ []) ++ row_bytes 3 (98 ∷ [])) (row_bytes 4 (99 ∷ [])))
        ≡ found codes.Levels 3 0xFFFFFFFF }
    ensures both_below { walked_inodes
        (with_faulty (row_bytes 2 (97 ∷ []) ++ row_bytes 4 (98 ∷ []))
        (row_bytes 3 (99 ∷ []) ++ row_bytes 4 (100 ∷ []))) (main_roots made_super)
        ≡ 1 ∷ 2 ∷ 4 ∷ 3 ∷ [] }
{}

/// A long name that one record has is no reason; one that records of two directories have is.
pub fn a_long_name_has_one_row()
    ensures whole { finding_of (with_long_name []) (main_roots long_super) ≡ None }
    ensures once { reason_in (with_long_name []) long_super ≡ None }
    ensures counted { last_in (with_long_name []) long_super ≡ None }
    ensures twice_whole { finding_of (with_long_name (long_row_of 3 1 0x400000AC)) (main_roots long_super)
        ≡ None }
    ensures twice { reason_in (with_long_name (long_row_of 3 1 0x400000AC)) long_super
        ≡ foreign_for reasons.LongNames 1 }
{}

/// Bytes past the Inode tree's size have to be 0: nothing else tests them.
pub fn a_volume_of_eighteen_inodes()
    ensures whole { finding_of (eighteen_inodes []) (main_roots eighteen_super) ≡ None }
    ensures ours { reason_in (eighteen_inodes []) eighteen_super ≡ None }
    ensures counted { last_in (eighteen_inodes []) eighteen_super ≡ None }
    ensures still_whole { finding_of (eighteen_inodes (replicate 256 0 ++ 1 ∷ [])) (main_roots eighteen_super)
        ≡ None }
    ensures still_ours { reason_in (eighteen_inodes (replicate 256 0 ++ 1 ∷ [])) eighteen_super ≡ None }
    ensures tail { last_in (eighteen_inodes (replicate 256 0 ++ 1 ∷ [])) eighteen_super
        ≡ found codes.Tail 0 0xFFFFFFFF }
    ensures last_inode { reason_in (eighteen_inodes (replicate 255 0 ++ 1 ∷ [])) eighteen_super
        ≡ foreign_for reasons.Inodes 18 }
{}

/// Each word of a pointer block of the other half has to lead where the layout says, an unused one to nothing.
pub fn a_volume_with_pointer_blocks()
    ensures whole { finding_of (eighty_inodes (pointers_from 1 20)) (main_roots eighty_super) ≡ None }
    ensures ours { reason_in (eighty_inodes (pointers_from 1 20)) eighty_super ≡ None }
    ensures counted { last_in (eighty_inodes (pointers_from 1 20)) eighty_super ≡ None }
    ensures other_word { reason_in (eighty_inodes (2 ∷ [] ++ drop 1 (pointers_from 1 20))) eighty_super
        ≡ foreign_for reasons.Halves 0 }
    ensures word_more { reason_in (eighty_inodes (pointers_from 1 21)) eighty_super
        ≡ foreign_for reasons.Halves 0 }
    ensures empty { reason_in (eighty_inodes []) eighty_super ≡ foreign_for reasons.Halves 0 }
{}

/// Changes of the small volume with what the checker says of each: a pointer into a half, a record of length 28, 6 levels, bits 8 to 10 clear,
/// one block under two pointers, a directory block taken for pointers, a directory of 2^48 bytes with no block, and a shorter device.
pub fn the_worked_images()
    ensures pointer_into_a_half { reason_in (with_top (directory_bytes 2)) made_super
        ≡ foreign_for reasons.Halves 0 }
    ensures length_of_28 { finding_in
        (made_but ((10, take 4 (dots_bytes 1 1) ++ 28 ∷ drop 5 (dots_bytes 1 1)) ∷ []))
        ≡ found codes.Record 1 10 }
    ensures six_levels { finding_in (with_top (inode_bytes_with 512 0x41ED 6 1 (10 ∷ [])))
        ≡ found codes.Levels 1 0xFFFFFFFF }
    ensures three_bits_clear { reason_in (made_but ((5, bitmap_bytes 0xE0) ∷ [])) made_super
        ≡ foreign_for reasons.Bitmap 8 }
    ensures one_block_twice { finding_in (with_top (inode_bytes_with 1024 0x41ED 0 1 (10 ∷ 10 ∷ [])))
        ≡ found codes.Twice 1 10 }
    ensures records_as_pointers { finding_in (with_top (inode_bytes_with (2 ^ 48) 0x41ED 5 1 (10 ∷ [])))
        ≡ found codes.Pointer 1 512 }
    ensures vast_hole_whole { finding_in (with_top (inode_bytes_with (2 ^ 48) 0x41ED 5 1 [])) ≡ None }
    ensures vast_hole { reason_in (with_top (inode_bytes_with (2 ^ 48) 0x41ED 5 1 [])) made_super
        ≡ foreign_for reasons.Bitmap 10 }
    ensures shorter_device { reason_of made_blocks made_super areas.Second 61952
        ≡ foreign_for reasons.Numbers 0 }
{}

/// The root nodes are walked first, those of the inodes, of the long names and of the bitmap in this order, and none may have more bytes than all blocks.
/// An Inode tree without room for inode 1 is found at that inode.
pub fn the_walk_of_the_root_nodes()
    ensures as_large_as_all_blocks { finding_of made_blocks
        (record (main_roots made_super) { longfile = record (one_pointer 49152 absent) { levels = 1 } })
        ≡ None }
    ensures larger { finding_of made_blocks
        (record (main_roots made_super) { longfile = record (one_pointer 49153 absent) { levels = 1 } })
        ≡ found codes.Levels 0 0xFFFFFFFF }
    ensures inodes_first { finding_of made_blocks
        (record {
          inodes = one_pointer 512 200;
          longfile = one_pointer 512 201;
          further = one_pointer 12 202 ∷ [];
        })
        ≡ found codes.Pointer 0 200 }
    ensures then_long_names { finding_of made_blocks
        (record {
          inodes = made_super.inode;
          longfile = one_pointer 512 201;
          further = one_pointer 12 202 ∷ [];
        })
        ≡ found codes.Pointer 0 201 }
    ensures then_the_bitmap { finding_of made_blocks
        (record {
          inodes = one_pointer 0 absent;
          longfile = one_pointer 0 absent;
          further = one_pointer 12 202 ∷ [];
        })
        ≡ found codes.Pointer 0 202 }
    ensures one_block_of_two { finding_of made_blocks
        (record (main_roots made_super) { longfile = one_pointer 512 5 })
        ≡ found codes.Twice 0 5 }
    ensures no_first_inode { finding_of made_blocks
        (record (main_roots made_super) { inodes = record (made_super.inode) { size = 127 } })
        ≡ found codes.NoInode 1 0xFFFFFFFF }
{}

/// A second row `.` is found for its name, whatever it names; `.` in a long record is known by its name, and is no finding, but a reason.
pub fn the_dots_of_long_records()
    ensures twice { finding_in (with_rows (row_bytes 9 (46 ∷ []))) ≡ found codes.SameName 1 10 }
    ensures whole { finding_of (made_but
        ((10, long_row_bytes 0 46 ++ row_bytes 1 (46 ∷ 46 ∷ [])) ∷ (20, 1 ∷ 0 ∷ 46 ∷ []) ∷ [])) long_roots
        ≡ None }
    ensures other_inode { finding_of
        (made_but ((10, long_row_of 2 0 46 ++ row_bytes 1 (46 ∷ 46 ∷ []))
        ∷ (20, 1 ∷ 0 ∷ 46 ∷ []) ∷ [])) long_roots
        ≡ found codes.Dots 1 10 }
    ensures not_short { reason_in
        (made_but ((10, long_row_bytes 0 46 ++ row_bytes 1 (46 ∷ 46 ∷ [])) ∷ (20, 1 ∷ 0 ∷ 46 ∷ [])
        ∷ (5, 255 ∷ 7 ∷ 16 ∷ [] ++ replicate 9 0 ++ replicate 500 255) ∷ []))
        (record made_super { longfile = one_pointer 512 20 })
        ≡ foreign_for reasons.Dots 1 }
{}

/// A long name of the byte 200, whose checksum is right over unsigned bytes and over signed ones, and over none else.
pub fn the_sums_of_a_byte_above_127()
    ensures unsigned { finding_of
        (made_but ((10, dots_bytes 1 1 ++ long_row_bytes 0 200) ∷ (20, 1 ∷ 0 ∷ 200 ∷ []) ∷ [])) long_roots
        ≡ found codes.DirTwice 1 10 }
    ensures signed { finding_of
        (made_but ((10, dots_bytes 1 1 ++ long_row_bytes 0 0xFFFFFFC8)
        ∷ (20, 1 ∷ 0 ∷ 200 ∷ []) ∷ [])) long_roots
        ≡ found codes.DirTwice 1 10 }
    ensures neither { finding_of
        (made_but ((10, dots_bytes 1 1 ++ long_row_bytes 0 0xC8C8) ∷ (20, 1 ∷ 0 ∷ 200 ∷ []) ∷ [])) long_roots
        ≡ found codes.LongSum 1 10 }
{}

//! Operations on the tree of a small volume that was just made, each computed.
#![tactic(auto, unfolding(crate::specs::EmptyTree::empty_tree, qx_geom::specs::Positions::present_after))]

ghost use Rattle.std.specs.Prelude.{◌≡◌, [], ◌∷◌, ◌++◌, codes, replicate, ◌^◌, ◌+◌};
ghost use Rattle.qx_model.specs.declared.operation.Op.TheVariants as op;
ghost use Rattle.qx_model.specs.declared.reply.Reply.TheVariants as reply;
ghost use Rattle.qx_model.specs.declared.refusal.Refusal.TheVariants as refusal;
ghost use Rattle.qx_model.specs.Owners.{OfInode, OfLongfile};
ghost use Rattle.qx_model.specs.SmallVolume.{at_first, at_moment, directory_view, file_attr, file_view, leaf, letters, links_in_turn, made, made_with, refusing, replies_of, written_after};

/// A directory with a file, a long name and a link, which leads from its own directory.
pub fn files_of_a_directory()
    ensures { replies_of made (at_first (op.Mkdir (codes "docs")) ∷ at_first (op.Create (codes "docs/report.txt")) ∷ at_first (op.Fill (codes "docs/report.txt") 0 3000 65)
        ∷ at_first (op.Create (codes "docs/a-name-of-exactly-forty-bytes-in-all.txt")) ∷ at_first (op.Symlink (codes "report.txt") (codes "docs/latest"))
        ∷ at_first (op.Read (codes "docs/latest") 2998 10) ∷ at_first (op.Stat (codes "docs/report.txt")) ∷ at_first (op.List (codes "docs")) ∷ [])
        ≡ reply.Done ∷ reply.Done ∷ reply.Done ∷ reply.Done ∷ reply.Done ∷ reply.Bytes (codes "AA") ∷ reply.Stat (file_view 3 3000 1)
        ∷ reply.Rows (record { inode = 3; name = codes "report.txt" } ∷ record { inode = 4; name = codes "a-name-of-exactly-forty-bytes-in-all.txt" } ∷ record { inode = 5; name = codes "latest" } ∷ []) ∷ [] }
{}

/// What each operation does to the times of a file and of its directory; reading does nothing.
pub fn the_times_of_a_file()
    ensures { replies_of made (at_moment 1001 (op.Create (codes "a")) ∷ at_moment 1002 (op.Write (codes "a") 0 (codes "x")) ∷ at_moment 1003 (op.Stat (codes "a"))
        ∷ at_moment 1004 (op.Chmod (codes "a") 0xF180) ∷ at_moment 1005 (op.Chmod (codes "a") 0x1A4) ∷ at_moment 1006 (op.Read (codes "a") 0 9) ∷ at_moment 1007 (op.Stat (codes "a"))
        ∷ at_moment 1008 (op.Link (codes "a") (codes "b")) ∷ at_moment 1009 (op.Stat (codes "a")) ∷ at_moment 1010 (op.Remove (codes "b")) ∷ at_moment 1011 (op.Stat (codes "a"))
        ∷ at_moment 1012 (op.Utime (codes "a") 5 6) ∷ at_moment 1013 (op.Rename (codes "a") (codes "c")) ∷ at_moment 1014 (op.Stat (codes "c"))
        ∷ at_moment 1015 (op.Write (codes "c") 7 []) ∷ at_moment 1016 (op.Stat (codes "c")) ∷ at_moment 1017 (op.Truncate (codes "c") 4) ∷ at_moment 1018 (op.Stat (codes "c"))
        ∷ at_moment 1019 (op.Stat (codes "/")) ∷ [])
        ≡ reply.Done ∷ reply.Done ∷ reply.Stat (record (file_view 2 1 1) { attr = file_attr 1001 1002 1001 1002 })
        ∷ reply.Done ∷ reply.Done ∷ reply.Bytes (codes "x") ∷ reply.Stat (record (file_view 2 1 1) { attr = file_attr 1001 1002 1001 1005 })
        ∷ reply.Done ∷ reply.Stat (record (file_view 2 1 2) { attr = file_attr 1001 1002 1001 1008 }) ∷ reply.Done ∷ reply.Stat (record (file_view 2 1 1) { attr = file_attr 1001 1002 1001 1010 })
        ∷ reply.Done ∷ reply.Done ∷ reply.Stat (record (file_view 2 1 1) { attr = file_attr 1001 6 5 1013 })
        ∷ reply.Done ∷ reply.Stat (record (file_view 2 1 1) { attr = file_attr 1001 1015 5 1015 }) ∷ reply.Done ∷ reply.Stat (record (file_view 2 4 1) { attr = file_attr 1001 1017 5 1017 })
        ∷ reply.Stat (directory_view 1 0 (file_attr 1000 1013 1000 1013)) ∷ [] }
{}

/// Each change of its rows sets a directory's times: a new row, one that goes, and one that names another inode.
pub fn the_times_of_directories()
    ensures { replies_of made (at_moment 1001 (op.Mkdir (codes "d")) ∷ at_moment 1002 (op.Create (codes "d/a")) ∷ at_moment 1003 (op.Stat (codes "d"))
        ∷ at_moment 1004 (op.Create (codes "b")) ∷ at_moment 1005 (op.Rename (codes "d/a") (codes "a")) ∷ at_moment 1006 (op.Stat (codes "d"))
        ∷ at_moment 1007 (op.Create (codes "d/c")) ∷ at_moment 1008 (op.Rename (codes "b") (codes "d/c")) ∷ at_moment 1009 (op.Stat (codes "d"))
        ∷ at_moment 1010 (op.Remove (codes "d/c")) ∷ at_moment 1011 (op.Stat (codes "d")) ∷ at_moment 1012 (op.Stat (codes "/")) ∷ [])
        ≡ reply.Done ∷ reply.Done ∷ reply.Stat (directory_view 2 1 (file_attr 1001 1002 1001 1002))
        ∷ reply.Done ∷ reply.Done ∷ reply.Stat (directory_view 2 1 (file_attr 1001 1005 1001 1005))
        ∷ reply.Done ∷ reply.Done ∷ reply.Stat (directory_view 2 1 (file_attr 1001 1008 1001 1008))
        ∷ reply.Done ∷ reply.Stat (directory_view 2 1 (file_attr 1001 1010 1001 1010)) ∷ reply.Stat (directory_view 1 0 (file_attr 1000 1008 1000 1008)) ∷ [] }
{}

/// Bytes put over others, reads from a place on, and a file's times by request.
pub fn the_bytes_of_a_file()
    ensures { replies_of made (at_first (op.Create (codes "a")) ∷ at_first (op.Write (codes "a") 0 (codes "hello")) ∷ at_first (op.Write (codes "a") 1 (codes "ip"))
        ∷ at_first (op.Read (codes "a") 0 9) ∷ at_first (op.Read (codes "a") 1 2) ∷ at_first (op.Read (codes "a") 9 1) ∷ at_moment 1001 (op.Utime (codes "a") 5 6) ∷ at_first (op.Stat (codes "a")) ∷ [])
        ≡ reply.Done ∷ reply.Done ∷ reply.Done
        ∷ reply.Bytes (codes "hiplo") ∷ reply.Bytes (codes "ip") ∷ reply.Bytes [] ∷ reply.Done ∷ reply.Stat (record (file_view 2 5 1) { attr = file_attr 1000 6 5 1001 }) ∷ [] }
{}

/// A link gets a second row itself, and leads to the file where attributes change. Two rows of one inode stay both where one moves onto the other; a row that another moves onto keeps its place.
pub fn rows_of_one_inode()
    ensures { replies_of made (at_first (op.Create (codes "a")) ∷ at_first (op.Symlink (codes "a") (codes "l")) ∷ at_first (op.Link (codes "l") (codes "m")) ∷ at_first (op.Stat (codes "m"))
        ∷ at_first (op.Chmod (codes "l") 0x180) ∷ at_first (op.Chown (codes "l") 5 6) ∷ at_first (op.Stat (codes "a"))
        ∷ at_first (op.Link (codes "a") (codes "b")) ∷ at_first (op.Rename (codes "a") (codes "b")) ∷ at_first (op.Stat (codes "a"))
        ∷ at_first (op.Create (codes "x")) ∷ at_first (op.Remove (codes "a")) ∷ at_first (op.Rename (codes "x") (codes "m")) ∷ at_first (op.List (codes ".")) ∷ [])
        ≡ reply.Done ∷ reply.Done ∷ reply.Done ∷ reply.Stat (record { kind = 3; inode = 3; size = 1; links = 2; attr = record (file_attr 1000 1000 1000 1000) { mode = 0xA1FF } })
        ∷ reply.Done ∷ reply.Done ∷ reply.Stat (record (file_view 2 0 1) { attr = record (file_attr 1000 1000 1000 1000) { mode = 0x8180; uid = 5; gid = 6 } })
        ∷ reply.Done ∷ reply.Done ∷ reply.Stat (record (file_view 2 0 2) { attr = record (file_attr 1000 1000 1000 1000) { mode = 0x8180; uid = 5; gid = 6 } })
        ∷ reply.Done ∷ reply.Done ∷ reply.Done ∷ reply.Rows (record { inode = 3; name = codes "l" } ∷ record { inode = 4; name = codes "m" } ∷ record { inode = 2; name = codes "b" } ∷ []) ∷ [] }
{}

/// Another owner and group, a directory's own attributes, and those of a link, which are its own too.
pub fn the_attributes_of_each_kind()
    ensures { replies_of made (at_first (op.Create (codes "a")) ∷ at_moment 1001 (op.Chown (codes "a") 5 6) ∷ at_first (op.Stat (codes "a"))
        ∷ at_first (op.Mkdir (codes "d")) ∷ at_first (op.Mkdir (codes "d/e")) ∷ at_first (op.Stat (codes "d"))
        ∷ at_first (op.Symlink (codes "abc") (codes "l")) ∷ at_first (op.Stat (codes "l")) ∷ [])
        ≡ reply.Done ∷ reply.Done ∷ reply.Stat (record (file_view 2 0 1) { attr = record (file_attr 1000 1000 1000 1001) { uid = 5; gid = 6 } })
        ∷ reply.Done ∷ reply.Done ∷ reply.Stat (directory_view 3 1 (file_attr 1000 1000 1000 1000))
        ∷ reply.Done ∷ reply.Stat (record { kind = 3; inode = 5; size = 3; links = 1; attr = record (file_attr 1000 1000 1000 1000) { mode = 0xA1FF } }) ∷ [] }
{}

/// Sixteen links are followed, and a seventeenth isn't. A link at the end of a path is read itself.
pub fn links_that_lead_on()
    ensures { replies_of (made_with 32) (at_first (op.Create (codes "a")) ∷ links_in_turn 17 97
        ++ at_first (op.Read (codes "q") 0 1) ∷ at_first (op.Read (codes "r") 0 1) ∷ at_first (op.ReadLink (codes "r")) ∷ at_first (op.Truncate (codes "r") 0) ∷ at_first (op.Remove (codes "r")) ∷ [])
        ≡ replicate 18 reply.Done ++ reply.Bytes [] ∷ refusing refusal.LinkLoop ∷ reply.Target (codes "q") ∷ refusing refusal.LinkLoop ∷ reply.Done ∷ [] }
{}

/// Which of several refusals comes first.
pub fn the_order_of_refusals()
    ensures rename { replies_of made (at_first (op.Create (codes "a")) ∷ at_first (op.Rename [] (codes ".")) ∷ at_first (op.Rename (codes ".") (letters 511)) ∷ at_first (op.Rename (codes "/") (codes "x"))
        ∷ at_first (op.Rename (codes "nosuch") (codes "x/..")) ∷ at_first (op.Rename (codes "nosuch") (codes "nosuch/x")) ∷ at_first (op.Rename (codes "a") (codes "a/x")) ∷ [])
        ≡ reply.Done ∷ refusing refusal.BadPath ∷ refusing refusal.NameTooLong ∷ refusing refusal.Reserved ∷ refusing refusal.Reserved ∷ refusing refusal.NoEntry ∷ refusing refusal.NotDir ∷ [] }
    ensures link { replies_of made (at_first (op.Create (codes "a")) ∷ at_first (op.Link (codes "nosuch") []) ∷ at_first (op.Link (codes "/") []) ∷ at_first (op.Link (codes "a") []) ∷ at_first (op.Link (codes "a") (codes "a")) ∷ [])
        ≡ reply.Done ∷ refusing refusal.NoEntry ∷ refusing refusal.IsDir ∷ refusing refusal.BadPath ∷ refusing refusal.Exists ∷ [] }
    ensures symlink { replies_of made (at_first (op.Create (codes "a")) ∷ at_first (op.Symlink (letters 511) []) ∷ at_first (op.Symlink [] (codes "a")) ∷ at_first (op.Symlink (codes "a") (codes "a")) ∷ [])
        ≡ reply.Done ∷ refusing refusal.NameTooLong ∷ refusing refusal.BadPath ∷ refusing refusal.Exists ∷ [] }
    ensures create { replies_of made (at_first (op.Create (codes "a")) ∷ at_first (op.Create (codes "nosuch/.")) ∷ at_first (op.Create (codes "nosuch/x")) ∷ at_first (op.Create (codes "a/../x")) ∷ at_first (op.Mkdir (codes "a/")) ∷ [])
        ≡ reply.Done ∷ refusing refusal.Reserved ∷ refusing refusal.NoEntry ∷ refusing refusal.NotDir ∷ refusing refusal.Exists ∷ [] }
    ensures write { replies_of made (at_first (op.Create (codes "a")) ∷ at_first (op.Write (codes "/") (2 ^ 48 + 1) []) ∷ at_first (op.Write (codes "a") (2 ^ 48) []) ∷ at_first (op.Write (codes "a") (2 ^ 48 + 1) []) ∷ [])
        ≡ reply.Done ∷ refusing refusal.IsDir ∷ reply.Done ∷ refusing refusal.FileTooBig ∷ [] }
    ensures remove { replies_of made (at_first (op.Create (codes "a")) ∷ at_first (op.Mkdir (codes "d")) ∷ at_first (op.Remove (codes "d")) ∷ at_first (op.RemoveDir (codes "a")) ∷ at_first (op.Remove (codes "nosuch")) ∷ [])
        ≡ reply.Done ∷ reply.Done ∷ refusing refusal.IsDir ∷ refusing refusal.NotDir ∷ refusing refusal.NoEntry ∷ [] }
{}

/// The leaves into which operations write: bytes, rows, long names, the first rows of a directory, a row `..`, and the leaf in which a file is cut.
pub fn the_leaves_that_are_written()
    ensures bytes { written_after made (at_first (op.Create (codes "a")) ∷ []) (at_first (op.Write (codes "a") 500 (replicate 600 65)))
        ≡ leaf (OfInode 2) 0 ∷ leaf (OfInode 2) 1 ∷ leaf (OfInode 2) 2 ∷ [] }
    ensures directory { written_after made [] (at_first (op.Mkdir (codes "d"))) ≡ leaf (OfInode 1) 0 ∷ leaf (OfInode 2) 0 ∷ [] }
    ensures long_name { written_after made (at_first (op.Create (letters 28)) ∷ []) (at_first (op.Create (letters 29))) ≡ leaf OfLongfile 1 ∷ leaf (OfInode 1) 0 ∷ [] }
    ensures long_name_again { written_after made (at_first (op.Create (letters 28)) ∷ at_first (op.Create (letters 29)) ∷ at_first (op.Remove (letters 28)) ∷ []) (at_first (op.Create (letters 30))) ≡ leaf OfLongfile 0 ∷ leaf (OfInode 1) 0 ∷ [] }
    ensures moved { written_after made (at_first (op.Mkdir (codes "d")) ∷ at_first (op.Mkdir (codes "e")) ∷ []) (at_first (op.Rename (codes "d") (codes "e/d")))
        ≡ leaf (OfInode 1) 0 ∷ leaf (OfInode 3) 0 ∷ leaf (OfInode 2) 0 ∷ [] }
    ensures cut { written_after made (at_first (op.Create (codes "a")) ∷ at_first (op.Fill (codes "a") 0 700 65) ∷ []) (at_first (op.Truncate (codes "a") 600)) ≡ leaf (OfInode 2) 1 ∷ [] }
    ensures cut_between { written_after made (at_first (op.Create (codes "a")) ∷ at_first (op.Fill (codes "a") 0 700 65) ∷ []) (at_first (op.Truncate (codes "a") 512)) ≡ [] }
    ensures cut_in_a_hole { written_after made (at_first (op.Create (codes "a")) ∷ at_first (op.Write (codes "a") 1024 (codes "x")) ∷ []) (at_first (op.Truncate (codes "a") 600)) ≡ [] }
{}

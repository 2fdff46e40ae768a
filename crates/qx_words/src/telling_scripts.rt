//! Scripts that tell a rule from one that is near it, each computed on the small volume.
//!
//! What they put is what `bench/machine.py` says, which was written without the definitions.
ghost use Rattle.std.specs.Prelude.{◌≡◌, [], ◌∷◌, codes};
ghost use Rattle.qx_model.specs.SmallVolume.{small};
ghost use Rattle.qx_words.specs.Scripts.{output, output_at, text};

/// A cut and a removal may take the last blocks, and nothing else that takes one: no growth, and no move to a new name or onto another.
pub fn removals_may_use_the_reserve()
    ensures { output (small 1000) (text (
        codes "create a" ∷ codes "create c" ∷ codes "fill a 0 34304 65" ∷ codes "sync" ∷ codes "hold" ∷ codes "write a 0 x" ∷ codes "truncate a 34303"
        ∷ codes "df" ∷ codes "chmod a 0600" ∷ codes "mv a b" ∷ codes "mv a c" ∷ codes "truncate a 2000000" ∷ codes "rm a" ∷ codes "df" ∷ []))
        ≡ text (
        codes "ok" ∷ codes "ok" ∷ codes "ok" ∷ codes "ok" ∷ codes "snapshot 3" ∷ codes "ok" ∷ codes "error 11 NoSpace need 2 free 17" ∷ codes "ok"
        ∷ codes "ok blocks 96 user 86 free 15 inodes 16 free 13 serial 3" ∷ codes "ok" ∷ codes "error 11 NoSpace need 1 free 15"
        ∷ codes "error 11 NoSpace need 1 free 15" ∷ codes "error 11 NoSpace need 1 free 15" ∷ codes "ok"
        ∷ codes "ok blocks 96 user 86 free 16 inodes 16 free 14 serial 3" ∷ codes "snapshot 4" ∷ []) }
{}

/// A session whose directory is gone stands nowhere, also once another directory has its number; which operations follow a last link, and which don't; a target from the root.
pub fn where_names_lead()
    ensures gone { output (small 1000) (text (
        codes "mkdir d" ∷ codes "@1 cd d" ∷ codes "rmdir d" ∷ codes "@1 ls" ∷ codes "@1 create x" ∷ codes "@1 ls /" ∷ codes "mkdir d"
        ∷ codes "@1 ls ." ∷ []))
        ≡ text (
        codes "ok" ∷ codes "ok" ∷ codes "ok" ∷ codes "error 1 NoEntry" ∷ codes "error 1 NoEntry" ∷ codes "ok 0" ∷ codes "ok" ∷ codes "error 1 NoEntry"
        ∷ codes "snapshot 3" ∷ []) }
    ensures links { output (small 1000) (text (
        codes "mkdir d" ∷ codes "create d/f" ∷ codes "symlink /d l" ∷ codes "symlink nosuch k" ∷ codes "ls l" ∷ codes "stat l" ∷ codes "fsync k"
        ∷ codes "create k/x" ∷ codes "cat l/f 0 1" ∷ codes "cd l" ∷ codes "create g" ∷ codes "cd .." ∷ codes "cd .." ∷ codes "cd d/f" ∷ codes "cd /"
        ∷ codes "ls d" ∷ codes "chmod l 0700" ∷ codes "stat d" ∷ codes "ln k m" ∷ codes "stat m" ∷ []))
        ≡ text (
        codes "ok" ∷ codes "ok" ∷ codes "ok" ∷ codes "ok" ∷ codes "ok 1" ∷ codes "3 f"
        ∷ codes "ok link inode 4 size 2 mode 0777 uid 0 gid 0 links 1 ftime 1000 mtime 1000 atime 1000 ctime 1000" ∷ codes "ok" ∷ codes "snapshot 3"
        ∷ codes "error 1 NoEntry" ∷ codes "ok 0" ∷ codes "" ∷ codes "ok" ∷ codes "ok" ∷ codes "ok" ∷ codes "ok" ∷ codes "error 2 NotDir" ∷ codes "ok"
        ∷ codes "ok 2" ∷ codes "3 f" ∷ codes "6 g" ∷ codes "ok"
        ∷ codes "ok dir inode 2 size 512 mode 0700 uid 0 gid 0 links 1 ftime 1000 mtime 1000 atime 1000 ctime 1000" ∷ codes "ok"
        ∷ codes "ok link inode 5 size 6 mode 0777 uid 0 gid 0 links 2 ftime 1000 mtime 1000 atime 1000 ctime 1000" ∷ codes "snapshot 4" ∷ []) }
    ensures absolute { output (small 1000) (text (
        codes "mkdir d" ∷ codes "create d/f" ∷ codes "symlink /d/f d/m" ∷ codes "cat d/m 0 1" ∷ []))
        ≡ text (
        codes "ok" ∷ codes "ok" ∷ codes "ok" ∷ codes "ok 0" ∷ codes "" ∷ codes "snapshot 3" ∷ []) }
{}

/// A move within a directory writes no row of the moved one, one onto another name of the same inode changes nothing, and a missing first name is said before the second is walked; a write within a file leaves what is behind it; a name that exists is said before there is no inode.
pub fn what_a_move_and_a_write_change()
    ensures parent { output (small 1000) (text (
        codes "mkdir d" ∷ codes "sync" ∷ codes "mv d e" ∷ codes "df" ∷ []))
        ≡ text (
        codes "ok" ∷ codes "ok" ∷ codes "snapshot 3" ∷ codes "ok" ∷ codes "ok blocks 96 user 86 free 83 inodes 16 free 14 serial 3"
        ∷ codes "snapshot 4" ∷ []) }
    ensures same { output_at (1001 ∷ 1002 ∷ 1003 ∷ 1004 ∷ 1005 ∷ 1006 ∷ 1007 ∷ 1008 ∷ 1009 ∷ 1010 ∷ 1011 ∷ 1012 ∷ 1013 ∷ []) (small 1000) (text (
        codes "create a" ∷ codes "ln a b" ∷ codes "mv a b" ∷ codes "ls" ∷ codes "sync" ∷ codes "mv a a" ∷ codes "sync" ∷ codes "mkdir d"
        ∷ codes "mkdir e" ∷ codes "create e/f" ∷ codes "mv d e" ∷ codes "mv nosuch a/x" ∷ []))
        ≡ text (
        codes "ok" ∷ codes "ok" ∷ codes "ok" ∷ codes "ok 2" ∷ codes "2 a" ∷ codes "2 b" ∷ codes "ok" ∷ codes "snapshot 3" ∷ codes "ok" ∷ codes "ok"
        ∷ codes "ok" ∷ codes "ok" ∷ codes "ok" ∷ codes "error 5 NotEmpty" ∷ codes "error 1 NoEntry" ∷ codes "snapshot 4" ∷ []) }
    ensures bytes { output_at (1001 ∷ 1002 ∷ 1003 ∷ 1004 ∷ 1005 ∷ 1006 ∷ 1007 ∷ 1008 ∷ 1009 ∷ []) (small 1000) (text (
        codes "create a" ∷ codes "write a 0 abcdef" ∷ codes "write a 2 x" ∷ codes "cat a 0 9" ∷ codes "truncate a 281474976710656" ∷ codes "stat a"
        ∷ codes "utime a 1 2" ∷ codes "stat a" ∷ []))
        ≡ text (
        codes "ok" ∷ codes "ok" ∷ codes "ok" ∷ codes "ok 6" ∷ codes "abxdef" ∷ codes "ok"
        ∷ codes "ok file inode 2 size 281474976710656 mode 0644 uid 0 gid 0 links 1 ftime 1001 mtime 1005 atime 1001 ctime 1005" ∷ codes "ok"
        ∷ codes "ok file inode 2 size 281474976710656 mode 0644 uid 0 gid 0 links 1 ftime 1001 mtime 2 atime 1 ctime 1007" ∷ codes "snapshot 3" ∷ []) }
    ensures inodes { output (small 1000) (text (
        codes "create a" ∷ codes "create b" ∷ codes "create c" ∷ codes "create d" ∷ codes "create e" ∷ codes "create f" ∷ codes "create g"
        ∷ codes "create h" ∷ codes "create i" ∷ codes "create j" ∷ codes "create k" ∷ codes "create l" ∷ codes "create m" ∷ codes "create n"
        ∷ codes "create o" ∷ codes "create a" ∷ codes "mkdir a" ∷ codes "symlink x a" ∷ codes "create p" ∷ []))
        ≡ text (
        codes "ok" ∷ codes "ok" ∷ codes "ok" ∷ codes "ok" ∷ codes "ok" ∷ codes "ok" ∷ codes "ok" ∷ codes "ok" ∷ codes "ok" ∷ codes "ok" ∷ codes "ok"
        ∷ codes "ok" ∷ codes "ok" ∷ codes "ok" ∷ codes "ok" ∷ codes "error 4 Exists" ∷ codes "error 4 Exists" ∷ codes "error 4 Exists"
        ∷ codes "error 12 NoInodes" ∷ codes "snapshot 3" ∷ []) }
{}

/// What a snapshot has yet to write, and what it holds; under a hold it is still finished for room; a sync may finish one and make another; a clock that goes back is at the last begin; a hold keeps time from beginning one.
pub fn when_snapshots_are_made()
    ensures due { output_at (0 ∷ 0 ∷ 0 ∷ 0 ∷ 0 ∷ 10 ∷ 10 ∷ 10 ∷ 10 ∷ 10 ∷ []) (small 0) (text (
        codes "create a" ∷ codes "fill a 0 2048 65" ∷ codes "sync" ∷ codes "create b" ∷ codes "tick" ∷ codes "create c" ∷ codes "df" ∷ codes "tick"
        ∷ codes "tick" ∷ []))
        ≡ text (
        codes "ok" ∷ codes "ok" ∷ codes "ok" ∷ codes "snapshot 3" ∷ codes "ok" ∷ codes "ok" ∷ codes "ok"
        ∷ codes "ok blocks 96 user 86 free 79 inodes 16 free 12 serial 3" ∷ codes "ok" ∷ codes "snapshot 4" ∷ codes "ok" ∷ codes "snapshot 5" ∷ []) }
    ensures finished { output_at (0 ∷ 10 ∷ 10 ∷ 10 ∷ 10 ∷ 10 ∷ []) (small 0) (text (
        codes "create a" ∷ codes "tick" ∷ codes "hold" ∷ codes "fill a 0 34816 65" ∷ codes "df" ∷ []))
        ≡ text (
        codes "ok" ∷ codes "ok" ∷ codes "ok" ∷ codes "ok" ∷ codes "snapshot 3" ∷ codes "ok blocks 96 user 86 free 16 inodes 16 free 14 serial 3"
        ∷ codes "snapshot 4" ∷ []) }
    ensures two { output_at (0 ∷ 10 ∷ 10 ∷ 10 ∷ 10 ∷ 10 ∷ []) (small 0) (text (
        codes "create a" ∷ codes "tick" ∷ codes "create b" ∷ codes "sync" ∷ codes "df" ∷ []))
        ≡ text (
        codes "ok" ∷ codes "ok" ∷ codes "ok" ∷ codes "ok" ∷ codes "snapshot 3" ∷ codes "snapshot 4"
        ∷ codes "ok blocks 96 user 86 free 85 inodes 16 free 13 serial 4" ∷ []) }
    ensures back { output_at (100 ∷ 50 ∷ 109 ∷ 110 ∷ 110 ∷ 111 ∷ 111 ∷ []) (small 100) (text (
        codes "create a" ∷ codes "tick" ∷ codes "tick" ∷ codes "tick" ∷ codes "tick" ∷ codes "create b" ∷ []))
        ≡ text (
        codes "ok" ∷ codes "ok" ∷ codes "ok" ∷ codes "ok" ∷ codes "ok" ∷ codes "ok" ∷ codes "snapshot 3" ∷ codes "snapshot 4" ∷ []) }
    ensures held { output_at (0 ∷ 0 ∷ 10 ∷ 11 ∷ 12 ∷ 13 ∷ 13 ∷ []) (small 0) (text (
        codes "create a" ∷ codes "hold" ∷ codes "tick" ∷ codes "tick" ∷ codes "tick" ∷ codes "df" ∷ []))
        ≡ text (
        codes "ok" ∷ codes "ok" ∷ codes "ok" ∷ codes "ok" ∷ codes "ok" ∷ codes "ok blocks 96 user 86 free 84 inodes 16 free 14 serial 2"
        ∷ codes "snapshot 3" ∷ []) }
{}

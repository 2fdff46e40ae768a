//! Random scripts on the small volume, bytes in and bytes out, each computed.
//!
//! `bench/scripts.py` wrote them, 9 to 12 lines each, from the seeds by which the clauses are called. What they put is what `bench/machine.py` says, which was written without the definitions.
ghost use Rattle.std.specs.Prelude.{◌≡◌, [], ◌∷◌, codes};
ghost use Rattle.qx_model.specs.SmallVolume.{small};
ghost use Rattle.qx_words.specs.Scripts.{output_at, text};

/// Random scripts that want more room than there is, with snapshots that make some.
pub fn random_scripts_that_lack_room()
    ensures seed_2617 { output_at (4294967196 ∷ 4294967196 ∷ 4294967196 ∷ 4294967197 ∷ 4294967197 ∷ 4294967197 ∷ 4294967197 ∷ 4294967197 ∷ 4294967197 ∷ 4294967198 ∷ 4294967198 ∷ []) (small 4294967196) (text (
        codes "sync" ∷ codes "create f" ∷ codes "sync" ∷ codes "write f 519 y" ∷ codes "cd a" ∷ codes "@1 mv f f/e" ∷ codes "mkdir e" ∷ codes "utime f 1 4294967295"
        ∷ codes "mkdir /a/b/../c" ∷ codes "fill f 1 33792 0" ∷ []))
        ≡ text (codes "ok" ∷ codes "ok" ∷ codes "ok" ∷ codes "snapshot 3" ∷ codes "ok" ∷ codes "error 1 NoEntry" ∷ codes "error 2 NotDir" ∷ codes "ok" ∷ codes "ok"
        ∷ codes "error 1 NoEntry" ∷ codes "error 11 NoSpace need 68 free 83" ∷ codes "snapshot 4" ∷ []) }
    ensures seed_801 { output_at (0 ∷ 0 ∷ 0 ∷ 0 ∷ 0 ∷ 0 ∷ 0 ∷ 0 ∷ 0 ∷ []) (small 0) (text (codes "@1 fsync /" ∷ codes "symlink . f" ∷ codes "@1 symlink . b"
        ∷ codes "@1 unhold" ∷ codes "create a" ∷ codes "@1 fill a 0 33791 0" ∷ codes "@1 sync" ∷ codes "create c" ∷ codes "@7 quit" ∷ []))
        ≡ text (codes "ok" ∷ codes "ok" ∷ codes "ok" ∷ codes "ok" ∷ codes "ok" ∷ codes "ok" ∷ codes "snapshot 3" ∷ codes "ok" ∷ codes "snapshot 4"
        ∷ codes "error 11 NoSpace need 1 free 16" ∷ codes "ok" ∷ []) }
    ensures seed_3744 { output_at (1005 ∷ 1005 ∷ 1015 ∷ 1020 ∷ 1020 ∷ 1020 ∷ 1020 ∷ 1020 ∷ 1020 ∷ 1021 ∷ 1031 ∷ 1041 ∷ 1042 ∷ []) (small 1000) (text (codes "create b"
        ∷ codes "symlink .. c" ∷ codes "mkdir e" ∷ codes "fill e 0 33793 0" ∷ codes "fill b 1280 34817 65" ∷ codes "cat c 7 65536" ∷ codes "mkdir e" ∷ codes "@1 fsync e"
        ∷ codes "mkdir e/c" ∷ codes "create d" ∷ codes "write d 0 \\5c\\5c" ∷ codes "mkdir f" ∷ []))
        ≡ text (codes "ok" ∷ codes "ok" ∷ codes "ok" ∷ codes "error 3 IsDir" ∷ codes "error 11 NoSpace need 70 free 83" ∷ codes "snapshot 3" ∷ codes "snapshot 4"
        ∷ codes "error 3 IsDir" ∷ codes "error 4 Exists" ∷ codes "ok" ∷ codes "ok" ∷ codes "ok" ∷ codes "ok" ∷ codes "ok" ∷ codes "snapshot 5" ∷ codes "snapshot 6" ∷ []) }
    ensures seed_3422 { output_at (4294967196 ∷ 4294967196 ∷ 4294967201 ∷ 4294967206 ∷ 4294967206 ∷ 4294967207 ∷ 4294967207 ∷ 4294967207 ∷ 4294967217 ∷ 4294967227 ∷ 4294967237 ∷ []) (small 4294967196) (text (
        codes "@1 create c" ∷ codes "@1 write c 0 zzzzzzzzzzzzzzzzzzzzzzzzzzzz\\7azzzzzzzzzzzzzzz\\7azzzzzzzzzzzzzzzzzzz" ∷ codes "fill c 8704 33791 255" ∷ codes "@1 df"
        ∷ codes "@1 mkdir f" ∷ codes "rmdir f" ∷ codes "@1 df" ∷ codes "fill c 0 33792 65" ∷ codes "df" ∷ codes "@1 hold" ∷ []))
        ≡ text (codes "ok" ∷ codes "ok" ∷ codes "ok" ∷ codes "ok blocks 96 user 86 free 16 inodes 16 free 14 serial 2" ∷ codes "error 11 NoSpace need 2 free 17"
        ∷ codes "snapshot 3" ∷ codes "error 1 NoEntry" ∷ codes "ok blocks 96 user 86 free 17 inodes 16 free 14 serial 3" ∷ codes "error 11 NoSpace need 67 free 17"
        ∷ codes "ok blocks 96 user 86 free 17 inodes 16 free 14 serial 3" ∷ codes "ok" ∷ []) }
{}

/// Random scripts of files, links and long names.
pub fn random_scripts_of_names()
    ensures seed_1266 { output_at (10 ∷ 21 ∷ 22 ∷ 23 ∷ 34 ∷ 43 ∷ 53 ∷ 54 ∷ 63 ∷ []) (small 0) (text (codes "create d" ∷ codes "symlink d c"
        ∷ codes "cat c 2199023255552 2000" ∷ codes "@1 mv c nnnnnnnnnnnnnnnnnnnnnnnnnnnn" ∷ codes "tick" ∷ codes "create c" ∷ codes "@1 tick" ∷ codes "hold"
        ∷ codes "quit" ∷ []))
        ≡ text (codes "ok" ∷ codes "ok" ∷ codes "ok 0" ∷ codes "" ∷ codes "ok" ∷ codes "snapshot 3" ∷ codes "ok" ∷ codes "ok" ∷ codes "ok" ∷ codes "snapshot 4"
        ∷ codes "ok" ∷ codes "ok" ∷ codes "snapshot 5" ∷ []) }
    ensures seed_58 { output_at (0 ∷ 0 ∷ 0 ∷ 0 ∷ 0 ∷ 10 ∷ 10 ∷ 10 ∷ 10 ∷ 10 ∷ 10 ∷ 10 ∷ []) (small 0) (text (codes "create c" ∷ codes "df" ∷ codes "@1 create a"
        ∷ codes "mkdir mmmmmmmmmmmmmmmmmmmmmmmmmmmm" ∷ codes "truncate c 0" ∷ codes "@1 sync" ∷ codes "cat a 8704 9" ∷ codes "@1 truncate c 0"
        ∷ codes "mv a mmmmmmmmmmmmmmmmmmmmmmmmmmmm/b" ∷ codes "ln mmmmmmmmmmmmmmmmmmmmmmmmmmmm/b b" ∷ codes "@1 symlink x/y \\61" ∷ []))
        ≡ text (codes "ok" ∷ codes "ok blocks 96 user 86 free 84 inodes 16 free 14 serial 2" ∷ codes "ok" ∷ codes "ok" ∷ codes "ok" ∷ codes "ok" ∷ codes "snapshot 3"
        ∷ codes "ok 0" ∷ codes "" ∷ codes "ok" ∷ codes "ok" ∷ codes "ok" ∷ codes "ok" ∷ codes "snapshot 4" ∷ []) }
    ensures seed_1592 { output_at (0 ∷ 0 ∷ 10 ∷ 10 ∷ 10 ∷ 10 ∷ 10 ∷ 11 ∷ 11 ∷ 12 ∷ 12 ∷ []) (small 0) (text (codes "@1 create d" ∷ codes "ln d /a/" ∷ codes "symlink d f"
        ∷ codes "create /a/c" ∷ codes "cat /f/ 512 0" ∷ codes "@1 ls /f/f" ∷ codes "cat a 513 65536" ∷ codes "@1 readlink /f/f" ∷ codes "readlink f"
        ∷ codes "@1 mv a e//." ∷ []))
        ≡ text (codes "ok" ∷ codes "ok" ∷ codes "ok" ∷ codes "error 2 NotDir" ∷ codes "ok 0" ∷ codes "" ∷ codes "snapshot 3" ∷ codes "error 2 NotDir" ∷ codes "ok 0"
        ∷ codes "" ∷ codes "error 2 NotDir" ∷ codes "ok d" ∷ codes "error 15 Reserved" ∷ codes "snapshot 4" ∷ []) }
{}

/// Random scripts of directories and moves, under a hold and without.
pub fn random_scripts_of_directories()
    ensures seed_1254 { output_at (0 ∷ 1 ∷ 2 ∷ 3 ∷ 3 ∷ 3 ∷ 5 ∷ 5 ∷ 5 ∷ 4 ∷ 4 ∷ 4 ∷ []) (small 0) (text (codes "stat ." ∷ codes "create a" ∷ codes "@1 mkdir c"
        ∷ codes "@1 chown /a/c 0 7" ∷ codes "@1 mkdir \\62" ∷ codes "mv b b/e" ∷ codes "@99 mkdir e" ∷ codes "fsync c" ∷ codes "mv e /a/e"
        ∷ codes "truncate /a 2199023255552" ∷ codes "mv /b d" ∷ codes "quit" ∷ []))
        ≡ text (codes "ok dir inode 1 size 512 mode 0755 uid 0 gid 0 links 0 ftime 1000 mtime 1000 atime 1000 ctime 1000" ∷ codes "ok" ∷ codes "ok"
        ∷ codes "error 2 NotDir" ∷ codes "ok" ∷ codes "error 14 IntoItself" ∷ codes "error 20 NoSession" ∷ codes "ok" ∷ codes "snapshot 3" ∷ codes "error 1 NoEntry"
        ∷ codes "ok" ∷ codes "ok" ∷ codes "ok" ∷ codes "snapshot 4" ∷ []) }
    ensures seed_1819 { output_at (1000 ∷ 1000 ∷ 1001 ∷ 1001 ∷ 1003 ∷ 1003 ∷ 1003 ∷ 1003 ∷ 1005 ∷ 1005 ∷ 1004 ∷ 1004 ∷ 1005 ∷ []) (small 1000) (text (codes "create d"
        ∷ codes "mkdir b" ∷ codes "write c 1048577 \\7e~~~~" ∷ codes "@1 ln /d/d e" ∷ codes "-" ∷ codes "@1 ls /." ∷ codes "ls b" ∷ codes "mv / f" ∷ codes "s"
        ∷ codes "mv d b/c" ∷ codes "mkdir /b/c/b/b" ∷ codes "chmod b/b 0" ∷ []))
        ≡ text (codes "ok" ∷ codes "ok" ∷ codes "error 1 NoEntry" ∷ codes "error 2 NotDir" ∷ codes "error 21 BadLine 0" ∷ codes "ok 2" ∷ codes "2 d" ∷ codes "3 b"
        ∷ codes "ok 0" ∷ codes "error 15 Reserved" ∷ codes "error 21 BadLine 1" ∷ codes "ok" ∷ codes "error 2 NotDir" ∷ codes "error 1 NoEntry" ∷ codes "snapshot 3" ∷ []) }
    ensures seed_304 { output_at (0 ∷ 0 ∷ 0 ∷ 10 ∷ 10 ∷ 10 ∷ 10 ∷ 10 ∷ 9 ∷ 9 ∷ 9 ∷ 9 ∷ 10 ∷ []) (small 0) (text (codes "hold" ∷ codes "@1 create a" ∷ codes "cat a 256 1"
        ∷ codes "utime a 1 7" ∷ codes "@1 ls /" ∷ codes "@1 utime a\\00b 1000 7" ∷ codes "@1 create d" ∷ codes "@1 create e" ∷ codes "mkdir f" ∷ codes "rm /f/../f"
        ∷ codes "mv f f/f" ∷ codes "sync" ∷ []))
        ≡ text (codes "ok" ∷ codes "ok" ∷ codes "ok 0" ∷ codes "" ∷ codes "ok" ∷ codes "ok 1" ∷ codes "2 a" ∷ codes "error 7 BadPath" ∷ codes "ok" ∷ codes "ok"
        ∷ codes "ok" ∷ codes "error 3 IsDir" ∷ codes "error 14 IntoItself" ∷ codes "error 18 Held 1" ∷ codes "snapshot 3" ∷ []) }
{}

//! Scripts on the small volume, bytes in and bytes out, each computed.
ghost use Rattle.std.specs.Prelude.{◌≡◌, [], ◌∷◌, codes};
ghost use Rattle.qx_model.specs.SmallVolume.{mounted, small};
ghost use Rattle.qx_words.specs.Lines.{lines_of};
ghost use Rattle.qx_words.specs.Scripts.{output, output_at, text};

/// Empty lines are none, and the last line may lack its newline.
pub fn lines_of_a_script()
    ensures nothing { lines_of [] ≡ [] }
    ensures empty { lines_of (codes "\n\n") ≡ [] }
    ensures last { lines_of (codes "df\n\nls") ≡ codes "df" ∷ codes "ls" ∷ [] }
    ensures output_of_nothing { output (small 1000) [] ≡ [] }
    ensures output_of_last { output (small 1000) (codes "ls") ≡ codes "ok 0\n" }
{}

/// A line without a reading is answered, and those after it are read.
pub fn lines_without_a_reading()
    ensures { output (small 1000) (text (codes "mkdri a" ∷ codes "ls  a" ∷ codes "write a 0" ∷ codes "tick x" ∷ codes "ls" ∷ []))
        ≡ text (codes "error 21 BadLine 3" ∷ codes "error 21 BadLine 3" ∷ codes "error 21 BadLine 9" ∷ codes "error 21 BadLine 4" ∷ codes "ok 0" ∷ []) }
{}

/// A hold keeps snapshots away, so what is free less the reserve is left. The end of the input drops it.
pub fn a_script_under_a_hold()
    ensures { output (small 1000) (text (codes "hold" ∷ codes "create a" ∷ codes "fill a 0 34816 65" ∷ codes "fill a 0 34304 65" ∷ codes "df" ∷ []))
        ≡ text (codes "ok" ∷ codes "ok" ∷ codes "error 11 NoSpace need 69 free 84" ∷ codes "ok" ∷ codes "ok blocks 96 user 86 free 16 inodes 16 free 14 serial 2" ∷ codes "snapshot 3" ∷ []) }
{}

/// Directories, a move under another session's feet, and what may not move. The script is over with `quit`.
pub fn a_script_of_directories()
    ensures { output (small 1000) (text (codes "mkdir d" ∷ codes "mkdir d/e" ∷ codes "create d/e/f" ∷ codes "@1 cd d/e" ∷ codes "mv d/e g" ∷ codes "@1 stat f" ∷ codes "@1 ls .." ∷ codes "mv d d/x"
        ∷ codes "@16 df" ∷ codes "rmdir g" ∷ codes "rmdir /" ∷ codes "quit" ∷ codes "df" ∷ []))
        ≡ text (codes "ok" ∷ codes "ok" ∷ codes "ok" ∷ codes "ok" ∷ codes "ok" ∷ codes "ok file inode 4 size 0 mode 0644 uid 0 gid 0 links 1 ftime 1000 mtime 1000 atime 1000 ctime 1000"
        ∷ codes "ok 2" ∷ codes "2 d" ∷ codes "3 g" ∷ codes "error 14 IntoItself" ∷ codes "error 20 NoSession" ∷ codes "error 5 NotEmpty" ∷ codes "error 15 Reserved" ∷ codes "ok" ∷ codes "snapshot 3" ∷ []) }
{}

/// A byte far past the end, and one byte too far.
pub fn a_script_with_holes()
    ensures { output (small 1000) (text (codes "create a" ∷ codes "df" ∷ codes "write a 2199023255552 x" ∷ codes "df" ∷ codes "write a 281474976710655 x" ∷ codes "write a 281474976710656 x" ∷ codes "truncate a 281474976710657" ∷ []))
        ≡ text (codes "ok" ∷ codes "ok blocks 96 user 86 free 84 inodes 16 free 14 serial 2" ∷ codes "ok" ∷ codes "ok blocks 96 user 86 free 78 inodes 16 free 14 serial 2"
        ∷ codes "ok" ∷ codes "error 10 FileTooBig" ∷ codes "error 10 FileTooBig" ∷ codes "snapshot 3" ∷ []) }
{}

/// A link to itself, and bytes that don't stand for themselves.
pub fn a_script_of_links()
    ensures { output (small 1000) (text (codes "symlink loop loop" ∷ codes "cat loop 0 1" ∷ codes "readlink loop" ∷ codes "stat x" ∷ codes "cat / 0 1" ∷ codes "ls loop/x" ∷ codes "readlink /" ∷ codes "create a\\20b" ∷ codes "ls" ∷ []))
        ≡ text (codes "ok" ∷ codes "error 8 LinkLoop" ∷ codes "ok loop" ∷ codes "error 1 NoEntry" ∷ codes "error 3 IsDir" ∷ codes "error 8 LinkLoop" ∷ codes "error 9 WrongKind" ∷ codes "ok"
        ∷ codes "ok 2" ∷ codes "2 loop" ∷ codes "3 a\\20b" ∷ codes "snapshot 3" ∷ []) }
{}

/// Two sessions hold, and a snapshot waits for both.
pub fn a_script_of_two_sessions()
    ensures { output (small 1000) (text (codes "hold" ∷ codes "@1 hold" ∷ codes "sync" ∷ codes "fsync nosuch" ∷ codes "unhold" ∷ codes "@1 unhold" ∷ codes "sync" ∷ []))
        ≡ text (codes "ok" ∷ codes "ok" ∷ codes "error 18 Held 2" ∷ codes "error 1 NoEntry" ∷ codes "ok" ∷ codes "ok" ∷ codes "ok" ∷ []) }
{}

/// A snapshot that time begins is told in the turn in which it is done.
pub fn a_script_with_a_timed_snapshot()
    ensures { output_at (0 ∷ 10 ∷ 11 ∷ 12 ∷ 13 ∷ 13 ∷ []) (small 0) (text (codes "create a" ∷ codes "tick" ∷ codes "df" ∷ codes "df" ∷ codes "df" ∷ []))
        ≡ text (codes "ok" ∷ codes "ok" ∷ codes "ok blocks 96 user 86 free 84 inodes 16 free 14 serial 2" ∷ codes "ok blocks 96 user 86 free 84 inodes 16 free 14 serial 2" ∷ codes "snapshot 3"
        ∷ codes "ok blocks 96 user 86 free 85 inodes 16 free 14 serial 3" ∷ []) }
{}

/// The last serial is used, and nothing changes after it.
pub fn a_script_at_the_last_serial()
    ensures spent { output (mounted 18446744073709551615 1000) (text (codes "create a" ∷ codes "sync" ∷ codes "ls" ∷ [])) ≡ text (codes "error 19 SerialEnd" ∷ codes "ok" ∷ codes "ok 0" ∷ []) }
    ensures left { output (mounted 18446744073709551614 1000) (text (codes "create a" ∷ codes "fill a 0 34816 65" ∷ codes "sync" ∷ codes "df" ∷ []))
        ≡ text (codes "ok" ∷ codes "error 19 SerialEnd" ∷ codes "snapshot 18446744073709551615" ∷ codes "ok" ∷ codes "ok blocks 96 user 86 free 85 inodes 16 free 14 serial 18446744073709551615" ∷ []) }
{}

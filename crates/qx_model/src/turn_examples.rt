//! Turns on a small volume that was just made, each computed.
#![tactic(auto, unfolding(crate::specs::Next::next_under, crate::specs::Plans::plan, crate::specs::Decisions::decision, crate::specs::Snapshots::steps_wanted, crate::specs::Space::free_count, crate::specs::TreeTouch::fresh_positions, crate::specs::EmptyTree::empty_tree, qx_geom::specs::Layout::levels_for, qx_geom::specs::Positions::present_after))]

ghost use Rattle.std.specs.Prelude.{◌≡◌, [], ◌∷◌, ◌++◌, codes, replicate, ◌^◌, ◌-◌, ◌+◌};
ghost use Rattle.qx_model.specs.declared.operation.Op.TheVariants as op;
ghost use Rattle.qx_model.specs.declared.reply.Reply.TheVariants as reply;
ghost use Rattle.qx_model.specs.declared.refusal.Refusal.TheVariants as refusal;
ghost use Rattle.qx_model.specs.declared.turn.Act.TheVariants as act;
ghost use Rattle.qx_model.specs.declared.notices.Notice.TheVariants as notice;
ghost use Rattle.qx_model.specs.Next.{ReadFails, MayCome, MemoryFails, StepFails};
ghost use Rattle.qx_model.specs.SmallVolume.{file_view, letters, mounted, small};
ghost use Rattle.qx_model.specs.SmallTurns.{act_fails, background_fails, begin_fails, by, by_at, changed_again, create, df, df_says, do_op, end, fill, foreign, in_progress, machine_after, ok, refuses, says, sync, turns_of, turns_under, under, well, with_snapshot};

/// A first file takes a block for the directory, which the durable tree holds.
pub fn a_first_file()
    ensures { turns_of (small 1000) (create (codes "a") ∷ df ∷ []) ≡ ok ∷ df_says 84 14 2 ∷ [] }
{}

/// A hold keeps snapshots away, so what is free less the reserve is left. The end drops it.
pub fn a_fill_under_a_hold()
    ensures { turns_of (small 1000) (by 0 act.Hold ∷ create (codes "a") ∷ fill (codes "a") 34816 ∷ fill (codes "a") 34304 ∷ df ∷ end ∷ [])
        ≡ ok ∷ ok ∷ refuses (refusal.NoSpace 69 84) ∷ ok ∷ df_says 16 14 2 ∷ with_snapshot 3 ok ∷ [] }
{}

/// Without a hold a snapshot makes room, where that is enough.
pub fn a_fill_that_wants_a_snapshot()
    ensures fits { turns_of (small 1000) (create (codes "a") ∷ fill (codes "a") 34816 ∷ end ∷ []) ≡ ok ∷ with_snapshot 3 ok ∷ with_snapshot 4 ok ∷ [] }
    ensures lacks { turns_of (small 1000) (create (codes "a") ∷ fill (codes "a") 35328 ∷ end ∷ []) ≡ ok ∷ with_snapshot 3 (refuses (refusal.NoSpace 70 85)) ∷ ok ∷ [] }
{}

/// What the durable tree holds comes free with the next snapshot alone, and a removal is done under a hold.
pub fn a_removal_under_a_hold()
    ensures { turns_of (small 1000) (create (codes "a") ∷ fill (codes "a") 34304 ∷ sync ∷ by 0 act.Hold ∷ do_op (op.Remove (codes "a")) ∷ df ∷ create (codes "b")
        ∷ do_op (op.Write (codes "b") 0 (codes "x")) ∷ by 0 act.Unhold ∷ do_op (op.Write (codes "b") 0 (codes "x")) ∷ df ∷ end ∷ [])
        ≡ ok ∷ ok ∷ with_snapshot 3 ok ∷ ok ∷ ok ∷ df_says 16 15 3 ∷ ok
        ∷ refuses (refusal.NoSpace 1 16) ∷ ok ∷ with_snapshot 4 ok ∷ df_says 84 14 4 ∷ with_snapshot 5 ok ∷ [] }
{}

/// What cuts a file or removes a directory may go into the reserve too.
pub fn a_cut_under_a_hold()
    ensures { turns_of (small 1000) (create (codes "a") ∷ do_op (op.Mkdir (codes "d")) ∷ fill (codes "a") 33792 ∷ sync ∷ by 0 act.Hold ∷ do_op (op.Truncate (codes "a") 600) ∷ df ∷ create (codes "b")
        ∷ do_op (op.Truncate (codes "a") 100) ∷ df ∷ do_op (op.RemoveDir (codes "d")) ∷ df ∷ [])
        ≡ ok ∷ ok ∷ ok ∷ with_snapshot 3 ok ∷ ok ∷ ok ∷ df_says 16 13 3 ∷ refuses (refusal.NoSpace 1 16)
        ∷ ok ∷ df_says 16 13 3 ∷ ok ∷ df_says 15 14 3 ∷ [] }
{}

/// The blocks of the working, the frozen and the durable copy are all held, until the snapshot is done.
pub fn blocks_of_three_copies()
    ensures { turns_of (small 0) (by_at 0 (act.Op (op.Create (codes "a"))) ∷ by_at 0 (act.Op (op.Write (codes "a") 0 (codes "x"))) ∷ by_at 10 act.Tick ∷ by_at 10 (act.Op (op.Remove (codes "a"))) ∷ by_at 10 act.Df ∷ by_at 10 act.Df ∷ [])
        ≡ ok ∷ ok ∷ ok ∷ ok ∷ with_snapshot 3 (df_says 82 15 2) ∷ df_says 83 15 3 ∷ [] }
{}

/// A byte far past the end: five levels of pointer blocks, and holes below. The greatest end is 2^48.
pub fn a_file_with_holes()
    ensures { turns_of (small 1000) (create (codes "a") ∷ df ∷ do_op (op.Write (codes "a") (2 ^ 41) (codes "x")) ∷ df
        ∷ do_op (op.Write (codes "a") (2 ^ 48 - 1) (codes "x")) ∷ do_op (op.Write (codes "a") (2 ^ 48) (codes "x")) ∷ do_op (op.Truncate (codes "a") (2 ^ 48 + 1)) ∷ [])
        ≡ ok ∷ df_says 84 14 2 ∷ ok ∷ df_says 78 14 2 ∷ ok ∷ refuses refusal.FileTooBig ∷ refuses refusal.FileTooBig ∷ [] }
{}

/// Names of 27, 28, 510 and 511 letters: a long one takes a block.
pub fn names_by_length()
    ensures { turns_of (small 1000) (create (letters 27) ∷ df ∷ create (letters 28) ∷ df ∷ create (letters 510) ∷ df ∷ create (letters 511) ∷ df ∷ [])
        ≡ ok ∷ df_says 84 14 2 ∷ ok ∷ df_says 83 13 2 ∷ ok ∷ df_says 82 12 2 ∷ refuses refusal.NameTooLong ∷ df_says 82 12 2 ∷ [] }
{}

/// A session whose directory was removed has none, also where its inode is taken again; absolute paths lead on, and a file is no directory.
pub fn a_directory_that_is_removed()
    ensures { turns_of (small 1000) (do_op (op.Mkdir (codes "d")) ∷ by 15 (act.Cd (codes "d")) ∷ do_op (op.RemoveDir (codes "d")) ∷ do_op (op.Mkdir (codes "e")) ∷ by 15 (act.Op (op.List (codes "."))) ∷ by 15 (act.Cd (codes "..")) ∷ by 15 (act.Op (op.List (codes "/"))) ∷ by 15 (act.Cd (codes "/e")) ∷ create (codes "f") ∷ by 15 (act.Cd (codes "/f")) ∷ by 15 (act.Op (op.List (codes ".."))) ∷ [])
        ≡ ok ∷ ok ∷ ok ∷ ok ∷ refuses refusal.NoEntry ∷ refuses refusal.NoEntry ∷ says (reply.Rows (record { inode = 2; name = codes "e" } ∷ [])) ∷ ok ∷ ok ∷ refuses refusal.NotDir ∷ says (reply.Rows (record { inode = 2; name = codes "e" } ∷ record { inode = 3; name = codes "f" } ∷ [])) ∷ [] }
{}

/// A directory moves while another session stands in it; what may not move, and what may not be removed.
pub fn directories_that_move()
    ensures { turns_of (small 1000) (do_op (op.Mkdir (codes "d")) ∷ do_op (op.Mkdir (codes "d/e")) ∷ create (codes "d/e/f") ∷ by 1 (act.Cd (codes "d/e"))
        ∷ do_op (op.Rename (codes "d/e") (codes "g")) ∷ by 1 (act.Op (op.Stat (codes "f"))) ∷ by 1 (act.Op (op.List (codes ".."))) ∷ do_op (op.Rename (codes "d") (codes "d/x"))
        ∷ by 16 act.Df ∷ do_op (op.RemoveDir (codes "g")) ∷ do_op (op.RemoveDir (codes "/")) ∷ [])
        ≡ ok ∷ ok ∷ ok ∷ ok ∷ ok ∷ says (reply.Stat (file_view 4 0 1))
        ∷ says (reply.Rows (record { inode = 2; name = codes "d" } ∷ record { inode = 3; name = codes "g" } ∷ []))
        ∷ refuses refusal.IntoItself ∷ refuses refusal.NoSession ∷ refuses refusal.NotEmpty ∷ refuses refusal.Reserved ∷ [] }
{}

/// Two names of one file, a cut and a growth, moves onto rows of either kind.
pub fn names_of_one_file()
    ensures { turns_of (small 1000) (create (codes "a") ∷ do_op (op.Write (codes "a") 0 (codes "hello")) ∷ do_op (op.Link (codes "a") (codes "b")) ∷ do_op (op.Stat (codes "b"))
        ∷ do_op (op.Remove (codes "a")) ∷ do_op (op.Truncate (codes "b") 2) ∷ do_op (op.Truncate (codes "b") 4) ∷ do_op (op.Read (codes "b") 0 9)
        ∷ do_op (op.Mkdir (codes "d")) ∷ do_op (op.Rename (codes "b") (codes "d/c")) ∷ create (codes "e") ∷ do_op (op.Rename (codes "e") (codes "d/c"))
        ∷ do_op (op.Rename (codes "d/c") (codes "d/c")) ∷ do_op (op.Rename (codes "d") (codes "d/c")) ∷ create (codes "f") ∷ do_op (op.Rename (codes "f") (codes "d"))
        ∷ do_op (op.Rename (codes "d") (codes "f")) ∷ do_op (op.Mkdir (codes "g")) ∷ do_op (op.Rename (codes "d") (codes "g")) ∷ do_op (op.RemoveDir (codes "g"))
        ∷ do_op (op.Remove (codes "g/c")) ∷ do_op (op.RemoveDir (codes "g")) ∷ do_op (op.List (codes ".")) ∷ df ∷ [])
        ≡ ok ∷ ok ∷ ok ∷ says (reply.Stat (file_view 2 5 2)) ∷ ok ∷ ok ∷ ok ∷ says (reply.Bytes (104 ∷ 101 ∷ 0 ∷ 0 ∷ []))
        ∷ ok ∷ ok ∷ ok ∷ ok ∷ ok ∷ refuses refusal.IntoItself ∷ ok ∷ refuses refusal.IsDir
        ∷ refuses refusal.NotDir ∷ ok ∷ ok ∷ refuses refusal.NotEmpty ∷ ok ∷ ok
        ∷ says (reply.Rows (record { inode = 2; name = codes "f" } ∷ [])) ∷ df_says 84 14 2 ∷ [] }
{}

/// At the last serial nothing changes any more.
pub fn the_last_serial()
    ensures { turns_of (mounted (2 ^ 64 - 1) 1000) (create (codes "a") ∷ sync ∷ do_op (op.List (codes ".")) ∷ []) ≡ refuses refusal.SerialEnd ∷ ok ∷ says (reply.Rows []) ∷ [] }
{}

/// The last serial is spent by the snapshot that was to make room.
pub fn the_last_serial_but_one()
    ensures { turns_of (mounted (2 ^ 64 - 2) 1000) (create (codes "a") ∷ fill (codes "a") 34816 ∷ sync ∷ df ∷ end ∷ [])
        ≡ ok ∷ with_snapshot (2 ^ 64 - 1) (refuses refusal.SerialEnd) ∷ ok ∷ df_says 85 14 (2 ^ 64 - 1) ∷ ok ∷ [] }
{}

/// A snapshot that begins by itself takes three turns, of four, four and one steps.
pub fn a_timed_snapshot()
    ensures { turns_of (small 0) (by_at 0 (act.Op (op.Create (codes "a"))) ∷ by_at 10 act.Tick ∷ by_at 11 act.Df ∷ by_at 12 act.Df ∷ by_at 13 act.Df ∷ [])
        ≡ ok ∷ ok ∷ df_says 84 14 2 ∷ with_snapshot 3 (df_says 84 14 2) ∷ df_says 85 14 3 ∷ [] }
{}

/// Ten seconds go from one begin to the next, also from one that was asked for. A clock that goes back is no time, and a hold keeps snapshots away.
pub fn the_time_between_snapshots()
    ensures timed { turns_of (small 0) (by_at 0 (act.Op (op.Create (codes "a"))) ∷ by_at 10 act.Tick ∷ by_at 11 act.Tick ∷ by_at 12 act.Tick ∷ by_at 13 (act.Op (op.Create (codes "b"))) ∷ by_at 19 act.Tick ∷ by_at 20 act.Tick ∷ by_at 21 act.Tick ∷ by_at 22 act.Tick ∷ [])
        ≡ ok ∷ ok ∷ ok ∷ with_snapshot 3 ok ∷ ok ∷ ok ∷ ok ∷ ok ∷ with_snapshot 4 ok ∷ [] }
    ensures asked { turns_of (small 0) (by_at 0 (act.Op (op.Create (codes "a"))) ∷ by_at 5 act.Sync ∷ by_at 6 (act.Op (op.Create (codes "b"))) ∷ by_at 14 act.Tick ∷ by_at 15 act.Tick ∷ by_at 16 act.Tick ∷ by_at 17 act.Tick ∷ [])
        ≡ ok ∷ with_snapshot 3 ok ∷ ok ∷ ok ∷ ok ∷ ok ∷ with_snapshot 4 ok ∷ [] }
    ensures back { turns_of (small 1000) (by_at 1000 (act.Op (op.Create (codes "a"))) ∷ by_at 0 act.Tick ∷ by_at 1 act.Tick ∷ by_at 2 act.Tick ∷ []) ≡ replicate 4 ok }
    ensures held { turns_of (small 0) (by_at 0 act.Hold ∷ by_at 0 (act.Op (op.Create (codes "a"))) ∷ by_at 10 act.Tick ∷ by_at 11 act.Tick ∷ by_at 12 act.Tick ∷ []) ≡ replicate 5 ok }
{}

/// A link to itself, and what isn't a link, a file or a directory. A link itself can be synced.
pub fn links_that_lead_nowhere()
    ensures { turns_of (small 1000) (do_op (op.Symlink (codes "loop") (codes "loop")) ∷ do_op (op.Read (codes "loop") 0 1) ∷ do_op (op.ReadLink (codes "loop")) ∷ do_op (op.Stat (codes "x"))
        ∷ do_op (op.Read (codes "/") 0 1) ∷ do_op (op.List (codes "loop/x")) ∷ do_op (op.ReadLink (codes "/")) ∷ by 0 (act.Fsync (codes "loop")) ∷ [])
        ≡ ok ∷ refuses refusal.LinkLoop ∷ says (reply.Target (codes "loop")) ∷ refuses refusal.NoEntry ∷ refuses refusal.IsDir ∷ refuses refusal.LinkLoop ∷ refuses refusal.WrongKind ∷ with_snapshot 3 ok ∷ [] }
{}

/// Fifteen files take all inodes, and a second block of the directory.
pub fn the_last_inode()
    ensures { turns_of (small 1000) (create (codes "a") ∷ create (codes "b") ∷ create (codes "c") ∷ create (codes "d") ∷ create (codes "e") ∷ create (codes "f") ∷ create (codes "g") ∷ create (codes "h")
        ∷ create (codes "i") ∷ create (codes "j") ∷ create (codes "k") ∷ create (codes "l") ∷ create (codes "m") ∷ create (codes "n") ∷ create (codes "o") ∷ create (codes "p") ∷ create (codes "a") ∷ df ∷ [])
        ≡ replicate 15 ok ++ refuses refusal.NoInodes ∷ refuses refusal.Exists ∷ df_says 83 0 2 ∷ [] }
{}

/// Holds of two sessions.
pub fn holds_of_two_sessions()
    ensures { turns_of (small 1000) (by 0 act.Hold ∷ by 1 act.Hold ∷ sync ∷ by 0 (act.Fsync (codes "nosuch")) ∷ by 0 act.Unhold ∷ by 1 act.Unhold ∷ sync ∷ [])
        ≡ ok ∷ ok ∷ refuses (refusal.Held 2) ∷ refuses refusal.NoEntry ∷ ok ∷ ok ∷ ok ∷ [] }
{}

/// The last sync of a snapshot fails once. The next turn makes that step again, beside its own act.
pub fn a_sync_that_fails_once()
    ensures turns { turns_under (small 1000) (well (create (codes "a")) ∷ under (act_fails 9 StepFails) sync ∷ well (create (codes "b")) ∷ well sync ∷ [])
        ≡ ok ∷ refuses refusal.Device ∷ with_snapshot 3 ok ∷ with_snapshot 4 ok ∷ [] }
    ensures may_come { MayCome (act_fails 9 StepFails) (machine_after (small 1000) (create (codes "a") ∷ [])) sync }
{}

/// What fails outside an act's snapshots: a read of the device, a begin without memory, a background step.
pub fn faults_of_one_turn()
    ensures read { turns_under (small 1000) (well (create (codes "a")) ∷ well (do_op (op.Write (codes "a") 0 (codes "x"))) ∷ under (act_fails 0 ReadFails) (do_op (op.Read (codes "a") 0 1)) ∷ well (do_op (op.Read (codes "a") 0 1)) ∷ [])
        ≡ ok ∷ ok ∷ refuses refusal.Device ∷ says (reply.Bytes (codes "x")) ∷ [] }
    ensures memory { turns_under (small 1000) (well (create (codes "a")) ∷ under (act_fails 0 MemoryFails) sync ∷ well sync ∷ []) ≡ ok ∷ refuses refusal.NoMemory ∷ with_snapshot 3 ok ∷ [] }
    ensures begin { turns_under (small 0) (well (by_at 0 (act.Op (op.Create (codes "a")))) ∷ under begin_fails (by_at 10 act.Tick) ∷ well (by_at 11 act.Tick) ∷ well (by_at 12 act.Sync) ∷ [])
        ≡ ok ∷ record ok { notices = notice.Memory ∷ [] } ∷ ok ∷ with_snapshot 3 ok ∷ [] }
    ensures background { turns_under (small 0) (well (by_at 0 (act.Op (op.Create (codes "a")))) ∷ under background_fails (by_at 10 act.Tick) ∷ well (by_at 11 act.Tick) ∷ well (by_at 12 act.Tick) ∷ well (by_at 13 act.Tick) ∷ [])
        ≡ ok ∷ record ok { notices = notice.Device ∷ [] } ∷ ok ∷ ok ∷ with_snapshot 3 ok ∷ [] }
{}

/// Reads fail where an act reads the tree: before each decision on an operation, and before a Fsync. Memory is wanting there and for a begin.
pub fn faults_that_may_come()
    ensures operation { MayCome (act_fails 0 ReadFails) (small 1000) (do_op (op.Stat (codes "a"))) }
    ensures decided_again { MayCome (act_fails 5 ReadFails) in_progress (fill (codes "a") 34816) }
    ensures directory { MayCome (act_fails 0 ReadFails) (small 1000) (by 0 (act.Cd (codes "/"))) }
    ensures fsync { MayCome (act_fails 0 ReadFails) in_progress (by 0 (act.Fsync (codes "a"))) }
    ensures memory_to_read { MayCome (act_fails 5 MemoryFails) in_progress (fill (codes "a") 34816) }
    ensures memory_to_begin { MayCome (act_fails 1 MemoryFails) changed_again sync }
{}

/// No read fails while a snapshot is finished, nor in an act that reads nothing: a Sync, a Df, what the path, the mount or the serial refuse, and what no session asks for. Nor does a step want memory.
pub fn faults_that_never_come()
    ensures halfway { MayCome (act_fails 3 ReadFails) in_progress (fill (codes "a") 34816) → ⊥ }
    ensures sync { MayCome (act_fails 0 ReadFails) in_progress sync → ⊥ }
    ensures df { MayCome (act_fails 0 ReadFails) (small 1000) df → ⊥ }
    ensures path { MayCome (act_fails 0 ReadFails) (small 1000) (do_op (op.Stat [])) → ⊥ }
    ensures mount { MayCome (act_fails 0 ReadFails) foreign (create (codes "a")) → ⊥ }
    ensures serial { MayCome (act_fails 0 ReadFails) (mounted (2 ^ 64 - 1) 1000) (create (codes "a")) → ⊥ }
    ensures session { MayCome (act_fails 0 ReadFails) (small 1000) (by 16 (act.Cd (codes "/"))) → ⊥ }
    ensures memory_to_step { MayCome (act_fails 0 MemoryFails) in_progress sync → ⊥ }
{}

/// A mount for reading changes nothing, and the numbers of a foreign image are those of what was met.
pub fn a_mount_for_reading()
    ensures { turns_of foreign (do_op (op.List (codes ".")) ∷ create (codes "a") ∷ sync ∷ df ∷ by 16 (act.Op (op.Create (codes "a"))) ∷ by 16 act.End ∷ [])
        ≡ says (reply.Rows []) ∷ refuses refusal.ReadOnly ∷ ok
        ∷ says (reply.Space (record { blocks = 96; user = 96; free = 90; inodes = 16; free_inodes = 15; serial = 2 })) ∷ refuses refusal.NoSession ∷ ok ∷ [] }
{}

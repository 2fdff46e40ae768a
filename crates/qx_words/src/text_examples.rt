//! Texts of turns, each computed.
ghost use Rattle.std.specs.Prelude.{◌≡◌, [], ◌∷◌, codes, flat_map};
ghost use Rattle.qx_model.specs.declared.notices.Notice.TheVariants as notice;
ghost use Rattle.qx_model.specs.declared.refusal.Refusal.TheVariants as refusal;
ghost use Rattle.qx_model.specs.declared.reply.Reply.TheVariants as reply;
ghost use Rattle.qx_words.specs.Scripts.{text};
ghost use Rattle.qx_words.specs.Texts.{last_text, refusal_text, turn_text};

/// Names, bytes and targets as byte words; an empty file; what refusals carry; all notices; and what is said at the end of the input.
pub fn the_texts_of_replies()
    ensures rows { turn_text (record { reply = reply.Rows (record { inode = 2; name = 32 ∷ 10 ∷ 92 ∷ 126 ∷ 127 ∷ 255 ∷ [] } ∷ []); notices = [] }) ≡ codes "ok 1\n2 \\20\\0a\\5c~\\7f\\ff\n" }
    ensures bytes { turn_text (record { reply = reply.Bytes (0 ∷ 120 ∷ []); notices = [] }) ≡ codes "ok 2\n\\00x\n" }
    ensures no_bytes { turn_text (record { reply = reply.Bytes []; notices = [] }) ≡ codes "ok 0\n\n" }
    ensures target { turn_text (record { reply = reply.Target (codes "a b"); notices = [] }) ≡ codes "ok a\\20b\n" }
    ensures special { turn_text (record { reply = reply.Stat (record { kind = 4; inode = 3; size = 0; links = 1; attr = record { mode = 0x21A4; uid = 1; gid = 2; ftime = 5; mtime = 6; atime = 7; ctime = 8 } }); notices = [] })
        ≡ codes "ok special inode 3 size 0 mode 0644 uid 1 gid 2 links 1 ftime 5 mtime 6 atime 7 ctime 8\n" }
    ensures sticky { turn_text (record { reply = reply.Stat (record { kind = 1; inode = 1; size = 512; links = 0; attr = record { mode = 0x4FFF; uid = 0; gid = 0; ftime = 0; mtime = 0; atime = 0; ctime = 0 } }); notices = [] })
        ≡ codes "ok dir inode 1 size 512 mode 7777 uid 0 gid 0 links 0 ftime 0 mtime 0 atime 0 ctime 0\n" }
    ensures link { turn_text (record { reply = reply.Stat (record { kind = 3; inode = 5; size = 3; links = 2; attr = record { mode = 0xA1FF; uid = 4294967295; gid = 0; ftime = 0; mtime = 0; atime = 0; ctime = 0 } }); notices = [] })
        ≡ codes "ok link inode 5 size 3 mode 0777 uid 4294967295 gid 0 links 2 ftime 0 mtime 0 atime 0 ctime 0\n" }
    ensures held { turn_text (record { reply = reply.Refused (refusal.Held 2); notices = notice.Snapshot 18446744073709551615 ∷ notice.Device ∷ notice.Memory ∷ [] })
        ≡ codes "error 18 Held 2\nsnapshot 18446744073709551615\nnotice device\nnotice memory\n" }
    ensures last_done { last_text (record { reply = reply.Done; notices = notice.Snapshot 3 ∷ [] }) ≡ codes "snapshot 3\n" }
    ensures last_refused { last_text (record { reply = reply.Refused refusal.Device; notices = [] }) ≡ codes "error 16 Device\n" }
{}

/// All refusals in the order of their numbers.
pub fn the_texts_of_refusals()
    ensures { flat_map refusal_text (refusal.NoEntry ∷ refusal.NotDir ∷ refusal.IsDir ∷ refusal.Exists ∷ refusal.NotEmpty ∷ refusal.NameTooLong ∷ refusal.BadPath ∷ refusal.LinkLoop ∷ refusal.WrongKind ∷ refusal.FileTooBig
        ∷ refusal.NoSpace 69 84 ∷ refusal.NoInodes ∷ refusal.ReadOnly ∷ refusal.IntoItself ∷ refusal.Reserved ∷ refusal.Device ∷ refusal.NoMemory ∷ refusal.Held 16 ∷ refusal.SerialEnd ∷ refusal.NoSession ∷ refusal.BadLine 8192 ∷ [])
        ≡ text (codes "error 1 NoEntry" ∷ codes "error 2 NotDir" ∷ codes "error 3 IsDir" ∷ codes "error 4 Exists" ∷ codes "error 5 NotEmpty" ∷ codes "error 6 NameTooLong" ∷ codes "error 7 BadPath" ∷ codes "error 8 LinkLoop"
        ∷ codes "error 9 WrongKind" ∷ codes "error 10 FileTooBig" ∷ codes "error 11 NoSpace need 69 free 84" ∷ codes "error 12 NoInodes" ∷ codes "error 13 ReadOnly" ∷ codes "error 14 IntoItself" ∷ codes "error 15 Reserved"
        ∷ codes "error 16 Device" ∷ codes "error 17 NoMemory" ∷ codes "error 18 Held 16" ∷ codes "error 19 SerialEnd" ∷ codes "error 20 NoSession" ∷ codes "error 21 BadLine 8192" ∷ []) }
{}

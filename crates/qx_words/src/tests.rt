//! Lines and texts by rows, with ample memory.
use crate::{LineFault, print_short, read_line};
use qx_model::{
    Act, Attr, Notice, Notices, Op, Refusal, Reply, RowList, SpaceView, StatView, Turn,
};
use qx_outside::ByteList;
use std::alloc::{AllocError, Global};
use std::test::Fail;

// Bytes with so many letters behind them.
fn line_of(alloc: Global, start: &[u8], letters: usize) -> Result<Vec<u8>, AllocError> {
    let mut bytes = Vec::new(alloc);
    bytes.extend_from_slice(start)?;
    for _ in 0..letters {
        bytes.push(b'n')?;
    }
    Ok(bytes)
}

#[test]
fn a_line_goes_wrong_behind_what_begins_a_line(rt: HostRuntime) -> Result<(), Fail> {
    let alloc = rt.alloc();
    let cases: [(&[u8], usize, Option<u32>); 12] = [
        (b"mkdri a", 0, Some(3)),
        (b"ls  a", 0, Some(3)),
        (b"write a 0", 0, Some(9)),
        (b"tick x", 0, Some(4)),
        // A line has at most 8,192 bytes, those among them that must still come.
        (b"", 8193, Some(8192)),
        (b"mv ", 8189, Some(8190)),
        (b"write ", 8186, Some(8188)),
        (b"create ", 8186, Some(8192)),
        (b"create ", 8185, None),
        (b"create ", 8184, None),
        (b"create \\41\\4", 8180, Some(12)),
        (b"@18446744073709551615 cd ", 1, None),
    ];
    for (start, letters, want) in cases {
        let line = line_of(alloc, start, letters)?;
        let at = match read_line(alloc, &line) {
            Err(LineFault::BadLine { at }) => Some(at),
            _ => None,
        };
        assert_eq!(rt; at, want);
    }
    Ok(())
}

#[test]
fn a_line_says_whose_act_it_is(rt: HostRuntime) -> Result<(), Fail> {
    let cases: [(&[u8], u64, bool); 4] = [
        (b"df", 0, false),
        (b"@3 quit", 3, true),
        (b"@16 tick", 16, false),
        (b"mkdir docs", 0, false),
    ];
    for (bytes, session, quit) in cases {
        let line = read_line(rt.alloc(), bytes).ok().ok_or("no line")?;
        assert_eq!(rt; line.session, session);
        assert_eq!(rt; line.quit, quit);
    }
    Ok(())
}

// What a write puts where.
fn written(act: Act) -> Option<(ByteList, u64, ByteList)> {
    match act {
        Act::Op(Op::Write { path, at, bytes }) => Some((path, at, bytes)),
        _ => None,
    }
}

#[test]
fn a_word_may_stand_for_any_byte(rt: HostRuntime) -> Result<(), Fail> {
    let line = read_line(rt.alloc(), b"write a\\20b 5 \\00\\fFx");
    let line = line.ok().ok_or("no line")?;
    let (path, at, bytes) = written(line.act).ok_or("no write")?;
    assert_eq!(rt; path.bytes(), b"a b".as_slice());
    assert_eq!(rt; at, 5);
    assert_eq!(rt; bytes.bytes(), [0, 255, b'x'].as_slice());
    Ok(())
}

// A file that was just made.
fn new_file(inode: u32) -> StatView {
    let attr = Attr {
        mode: 0o100644,
        uid: 0,
        gid: 0,
        ftime: 1000,
        mtime: 1000,
        atime: 1000,
        ctime: 1000,
    };
    StatView {
        kind: 2,
        inode,
        size: 0,
        links: 1,
        attr,
    }
}

// The small volume with so many free blocks.
fn small_space(free: u64) -> SpaceView {
    SpaceView {
        blocks: 96,
        user: 86,
        free,
        inodes: 16,
        free_inodes: 14,
        serial: 2,
    }
}

#[test]
fn a_short_text_takes_no_memory(rt: HostRuntime) -> Result<(), Fail> {
    let cases: [(Reply, &[u8]); 4] = [
        (Reply::Done, b"ok\nsnapshot 3\n"),
        (
            Reply::Stat(new_file(4)),
            b"ok file inode 4 size 0 mode 0644 uid 0 gid 0 links 1 ftime 1000 mtime 1000 atime 1000 ctime 1000\nsnapshot 3\n",
        ),
        (
            Reply::Space(small_space(84)),
            b"ok blocks 96 user 86 free 84 inodes 16 free 14 serial 2\nsnapshot 3\n",
        ),
        (
            Reply::Refused(Refusal::NoSpace { need: 69, free: 84 }),
            b"error 11 NoSpace need 69 free 84\nsnapshot 3\n",
        ),
    ];
    for (reply, want) in cases {
        let mut notices = Notices::new();
        notices.push(Notice::Snapshot(3));
        let mut into = [0; 512];
        let count = print_short(&Turn { reply, notices }, &mut into).ok_or("no text")?;
        assert_eq!(rt; &into[..count], want);
    }
    Ok(())
}

#[test]
fn a_list_has_no_short_text(rt: HostRuntime) -> Result<(), Fail> {
    let turn = Turn {
        reply: Reply::Rows(RowList::new(rt.alloc())),
        notices: Notices::new(),
    };
    assert_eq!(rt; print_short(&turn, &mut [0; 512]), None);
    Ok(())
}

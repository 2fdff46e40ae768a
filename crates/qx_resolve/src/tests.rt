//! Paths in a tree that is built by hand, over blocks of which nothing is told.
ghost use Rattle.std.specs.Prelude.{◌≡◌, ◌≤◌, ◌<◌, true, IsTrue, IfOk, IfSome, OnOk, length};
ghost use Rattle.qx_working.specs.Standing.{IsReadable};

use crate::{LastLink, directory, inode_at, place_at};
use qx_blocks::{Blocks, MemBlocks, Stop, Untold};
use qx_dir::put;
use qx_fields::Order;
use qx_geom::{ABSENT, Root};
use qx_model::Refusal;
use qx_records::{Inode, write_long_name};
use qx_working::Working;
use std::alloc::Global;
use std::test::Fail;

// A node of one level with these blocks.
fn node(size: u64, block: u32) -> Root {
    let mut pointers = [ABSENT; 16];
    pointers[0] = block;
    Root {
        size,
        pointers,
        levels: 0,
    }
}

// Gives a number an inode of this mode whose node has so many bytes in a block.
fn give(state: &mut Working, n: u32, mode: u16, size: u64, block: u32)
    requires places { length state.old.links ≡ length state.old.table.inodes }
    requires order { state.old.table.order ≡ state.old.order }
    ensures places { length state.new.links ≡ length state.new.table.inodes }
    ensures order { state.new.table.order ≡ state.new.order }
{
    let inode = Inode {
        root: node(size, block),
        uid: 0,
        gid: 0,
        ftime: 0,
        mtime: 0,
        atime: 0,
        ctime: 0,
        mode,
        ext_mode: 0,
        status: 3,
    };
    if 1 <= n && n <= state.table.num_inodes() {
        state.table.set(n, &inode);
    }
}

// A fresh block with these bytes.
fn block_of<B: Blocks>(blocks: &mut B, bytes: &[u8]) -> Result<u32, Stop>
    requires size { (B.state blocks.old).holdings.size ≡ 512 }
    requires whole { length bytes.now ≡ 512 }
    ensures size { OnOk result ((B.state blocks.new).holdings.size ≡ (B.state blocks.old).holdings.size) }
    ensures tells { OnOk result ((B.state blocks.new).tells ≡ (B.state blocks.old).tells) }
{
    if blocks.free() == 0 {
        return Err(Stop::NoMemory);
    }
    let block = blocks.fresh()?;
    blocks.edit(block).copy_from_slice(bytes);
    Ok(block)
}

// The rows of a directory of one block.
fn rows_of(order: Order, rows: &[(u32, &[u8])]) -> [u8; 512] {
    let mut bytes = [0; 512];
    for (place, (inode, name)) in rows.iter().enumerate() {
        if place < 16 && *inode > 0 && !name.is_empty() && name.len() <= 510 {
            put(&mut bytes, order, place, *inode, name, 0);
        }
    }
    bytes
}

// The links by their inodes: one to itself, one before the chain, the 16 of the chain from `A` to the file `f`, one to nothing, and those of `/d`.
const LINKS: [(u32, &[u8]); 23] = [
    (4, b"loop"),
    (5, b"A"),
    (6, b"B"),
    (7, b"c/C"),
    (9, b"none/on"),
    (12, b"e/g"),
    (13, b"../f/"),
    (14, b"/d/e"),
    (15, b"D"),
    (16, b"E"),
    (17, b"F"),
    (18, b"G"),
    (19, b"H"),
    (20, b"I"),
    (21, b"J"),
    (22, b"K"),
    (23, b"L"),
    (24, b"M"),
    (25, b"N"),
    (26, b"O"),
    (27, b"P"),
    (28, b"../f"),
    (29, b"e\0"),
];

// Gives each link its target.
fn give_links<B: Blocks>(state: &mut Working, blocks: &mut B) -> Result<(), Stop>
    requires size { (B.state blocks.old).holdings.size ≡ 512 }
    requires places { length state.old.links ≡ length state.old.table.inodes }
    requires order { state.old.table.order ≡ state.old.order }
    ensures size { OnOk result ((B.state blocks.new).holdings.size ≡ (B.state blocks.old).holdings.size) }
    ensures tells { OnOk result ((B.state blocks.new).tells ≡ (B.state blocks.old).tells) }
    ensures places { length state.new.links ≡ length state.new.table.inodes }
    ensures order { state.new.table.order ≡ state.new.order }
{
    for (n, target) in LINKS {
        give_link(state, blocks, n, target)?;
    }
    Ok(())
}

// Gives a number a link to this target.
fn give_link<B: Blocks>(
    state: &mut Working,
    blocks: &mut B,
    n: u32,
    target: &[u8],
) -> Result<(), Stop>
    requires size { (B.state blocks.old).holdings.size ≡ 512 }
    requires places { length state.old.links ≡ length state.old.table.inodes }
    requires order { state.old.table.order ≡ state.old.order }
    ensures size { OnOk result ((B.state blocks.new).holdings.size ≡ (B.state blocks.old).holdings.size) }
    ensures tells { OnOk result ((B.state blocks.new).tells ≡ (B.state blocks.old).tells) }
    ensures places { length state.new.links ≡ length state.new.table.inodes }
    ensures order { state.new.table.order ≡ state.new.order }
{
    let mut bytes = [0; 512];
    for (k, byte) in target.iter().enumerate() {
        if k < 512 {
            bytes[k] = *byte;
        }
    }
    let block = block_of(blocks, &bytes)?;
    give(state, n, 0o120777, target.len() as u64, block);
    Ok(())
}

// The tree over blocks: `/d/e/g` and `/f` are files, `/c` has the last 14 links of the chain, and one name of `/f` is 510 bytes long.
fn tree<B: Blocks>(alloc: Global, blocks: &mut B, order: Order) -> Result<Working, Stop>
    requires size { (B.state blocks.old).holdings.size ≡ 512 }
    ensures size { OnOk result ((B.state blocks.new).holdings.size ≡ (B.state blocks.old).holdings.size) }
    ensures tells { OnOk result ((B.state blocks.new).tells ≡ (B.state blocks.old).tells) }
    ensures places { IfOk result (λ state. length state.links ≡ length state.table.inodes) }
    ensures order { IfOk result (λ state. state.table.order ≡ state.order) }
{
    let longest = [b'n'; 510];
    let top: [(u32, &[u8]); 11] = [
        (1, b"."),
        (1, b".."),
        (2, b"d"),
        (3, b"f"),
        (4, b"loop"),
        (5, b"Z"),
        (6, b"A"),
        (7, b"B"),
        (8, b"c"),
        (9, b"gone"),
        (3, &longest),
    ];
    let d: [(u32, &[u8]); 7] = [
        (2, b"."),
        (1, b".."),
        (10, b"e"),
        (12, b"l"),
        (13, b"m"),
        (14, b"abs"),
        (29, b"zero"),
    ];
    let c: [(u32, &[u8]); 16] = [
        (8, b"."),
        (1, b".."),
        (15, b"C"),
        (16, b"D"),
        (17, b"E"),
        (18, b"F"),
        (19, b"G"),
        (20, b"H"),
        (21, b"I"),
        (22, b"J"),
        (23, b"K"),
        (24, b"L"),
        (25, b"M"),
        (26, b"N"),
        (27, b"O"),
        (28, b"P"),
    ];
    let e: [(u32, &[u8]); 3] = [(10, b"."), (2, b".."), (11, b"g")];
    let mut state = Working::empty(alloc, 32, order)?;
    state.links.set_parent(10, 2);
    give_directory(&mut state, blocks, 1, &top)?;
    give_directory(&mut state, blocks, 2, &d)?;
    give_directory(&mut state, blocks, 8, &c)?;
    give_directory(&mut state, blocks, 10, &e)?;
    give(&mut state, 3, 0o100644, 0, ABSENT);
    give(&mut state, 11, 0o100644, 0, ABSENT);
    give_links(&mut state, blocks)?;
    let mut leaf = [0; 512];
    write_long_name(&mut leaf, order, &longest);
    state.long = node(512, block_of(blocks, &leaf)?);
    Ok(state)
}

// Gives a number a directory with these rows.
fn give_directory<B: Blocks>(
    state: &mut Working,
    blocks: &mut B,
    n: u32,
    rows: &[(u32, &[u8])],
) -> Result<(), Stop>
    requires size { (B.state blocks.old).holdings.size ≡ 512 }
    requires places { length state.old.links ≡ length state.old.table.inodes }
    requires order { state.old.table.order ≡ state.old.order }
    ensures size { OnOk result ((B.state blocks.new).holdings.size ≡ (B.state blocks.old).holdings.size) }
    ensures tells { OnOk result ((B.state blocks.new).tells ≡ (B.state blocks.old).tells) }
    ensures places { length state.new.links ≡ length state.new.table.inodes }
    ensures order { state.new.table.order ≡ state.new.order }
{
    let bytes = rows_of(state.order, rows);
    let block = block_of(blocks, &bytes)?;
    give(state, n, 0o040755, 512, block);
    Ok(())
}

// Whether a node, if there is one, has no level, and at most as many bytes as it then reaches.
fn is_small(node: Option<Root>) -> bool
    ensures { result ≡ true → IfSome node (λ n. (n.levels ≡ 0) × (n.size ≤ 8192) × (length n.pointers ≡ 16)) }
{
    match node {
        Some(
            Root {
                size,
                pointers: [_, ..],
                levels,
            },
        ) => levels == 0 && size <= 8192,
        None => true,
    }
}

// Whether a state can be read over blocks.
fn is_readable<B: Blocks>(state: &Working, blocks: &B) -> bool
    requires size { (B.state blocks.now).holdings.size ≡ 512 }
    requires quiet { ¬ IsTrue (B.state blocks.now).tells }
    requires places { length state.now.links ≡ length state.now.table.inodes }
    requires order { state.now.table.order ≡ state.now.order }
    ensures { result ≡ true → IsReadable (B.state blocks.now) state.now }
{
    let _size = blocks.size();
    if !is_small(Some(state.long)) {
        return false;
    }
    for k in 0..state.table.num_inodes() {
        if !is_small(state.node(k + 1)) {
            return false;
        }
    }
    true
}

// What is asked of a path in that tree.
#[derive(Clone, Copy)]
enum Asked {
    Inode(LastLink),
    Directory,
    // The directory of a place whose name is `x`.
    Place,
}

// The answer, in a tree made for this question alone.
fn answer<B: Blocks>(
    alloc: Global,
    blocks: &mut B,
    order: Order,
    asked: Asked,
    base: Option<u32>,
    path: &[u8],
) -> Result<Result<u32, Refusal>, Stop>
    requires size { (B.state blocks.old).holdings.size ≡ 512 }
    requires quiet { ¬ IsTrue (B.state blocks.old).tells }
{
    let state = tree(alloc, blocks, order)?;
    if !is_readable(&state, &*blocks) {
        return Err(Stop::Device);
    }
    Ok(match asked {
        Asked::Inode(last) => inode_at(alloc, &state, blocks, base, path, last),
        Asked::Directory => directory(alloc, &state, blocks, base, path),
        Asked::Place => match place_at(alloc, &state, blocks, base, path) {
            Ok(place) if place.name == b"x".as_slice() => Ok(place.directory),
            Ok(_) => Ok(0),
            Err(refusal) => Err(refusal),
        },
    })
}

#[test]
fn a_path_leads_to_an_inode_or_is_refused(rt: HostRuntime) -> Result<(), Fail> {
    let follow = Asked::Inode(LastLink::Followed);
    let stay = Asked::Inode(LastLink::Itself);
    let long = [b'n'; 511];
    let slashes = [b'/'; 1024];
    let cases: [(&str, Asked, Option<u32>, &[u8], Result<u32, Refusal>); 51] = [
        ("no byte", follow, None, b"", Err(Refusal::BadPath)),
        ("a byte 0", follow, None, b"/\0", Err(Refusal::BadPath)),
        ("1,023 slashes", follow, None, &slashes[..1023], Ok(1)),
        ("1,024", follow, None, &slashes, Err(Refusal::BadPath)),
        ("510 bytes", follow, Some(1), &long[..510], Ok(3)),
        (
            "509 of them",
            follow,
            Some(1),
            &long[..509],
            Err(Refusal::NoEntry),
        ),
        ("511 bytes", follow, None, &long, Err(Refusal::NameTooLong)),
        ("from nowhere", follow, None, b"f", Err(Refusal::NoEntry)),
        (
            "from a lost directory",
            follow,
            Some(30),
            b"f",
            Err(Refusal::NoEntry),
        ),
        ("from the root instead", follow, None, b"/f", Ok(3)),
        (
            "no such name",
            follow,
            Some(1),
            b"none",
            Err(Refusal::NoEntry),
        ),
        (
            "no such name on the way",
            follow,
            Some(1),
            b"none/..",
            Err(Refusal::NoEntry),
        ),
        (
            "behind a file",
            follow,
            Some(1),
            b"f/none",
            Err(Refusal::NotDir),
        ),
        (
            "a file itself",
            follow,
            Some(1),
            b"f/.",
            Err(Refusal::NotDir),
        ),
        ("from a file", follow, Some(3), b"d", Err(Refusal::NotDir)),
        ("a slash behind a file", follow, Some(1), b"f//", Ok(3)),
        ("the root", follow, None, b"/", Ok(1)),
        ("above the root", follow, Some(10), b"/../..", Ok(1)),
        ("the same directory", follow, Some(10), b".", Ok(10)),
        ("its parent", follow, Some(10), b"..", Ok(2)),
        ("down and up", follow, Some(10), b"../../d/./e/g", Ok(11)),
        ("a relative link", follow, Some(1), b"d/l", Ok(11)),
        ("in its own directory", follow, Some(2), b"l", Ok(11)),
        ("itself", stay, Some(1), b"d/l", Ok(12)),
        ("itself, with a slash", stay, Some(1), b"d/l/", Ok(12)),
        (
            "behind a link to a file",
            stay,
            Some(1),
            b"d/l/x",
            Err(Refusal::NotDir),
        ),
        ("a link with a slash", follow, Some(10), b"../m", Ok(3)),
        ("an absolute link", follow, Some(1), b"d/abs", Ok(10)),
        ("in the middle", stay, Some(1), b"d/abs/g", Ok(11)),
        ("its end's parent", stay, Some(1), b"d/abs/../l", Ok(12)),
        (
            "its end's parent's link",
            follow,
            Some(1),
            b"d/abs/../l",
            Ok(11),
        ),
        (
            "a link to nothing",
            follow,
            Some(1),
            b"gone",
            Err(Refusal::NoEntry),
        ),
        ("that link", stay, Some(1), b"gone", Ok(9)),
        (
            "a target with a byte 0",
            follow,
            Some(1),
            b"d/zero",
            Err(Refusal::BadPath),
        ),
        ("that link itself", stay, Some(1), b"d/zero", Ok(29)),
        ("a loop", follow, Some(1), b"loop", Err(Refusal::LinkLoop)),
        ("the loop's link", stay, Some(1), b"loop", Ok(4)),
        (
            "behind the loop",
            stay,
            Some(1),
            b"loop/x",
            Err(Refusal::LinkLoop),
        ),
        ("16 links", follow, Some(1), b"A", Ok(3)),
        (
            "and a file's name",
            follow,
            Some(1),
            b"A/x",
            Err(Refusal::NotDir),
        ),
        ("17 links", follow, Some(1), b"Z", Err(Refusal::LinkLoop)),
        ("none of 17", stay, Some(1), b"Z", Ok(5)),
        ("a directory", Asked::Directory, None, b"/d", Ok(2)),
        ("by a link", Asked::Directory, None, b"/d/abs", Ok(10)),
        (
            "no directory",
            Asked::Directory,
            None,
            b"/d/l",
            Err(Refusal::NotDir),
        ),
        ("a place", Asked::Place, Some(1), b"d/abs/x//", Ok(10)),
        ("a place here", Asked::Place, Some(2), b"x", Ok(2)),
        ("no name", Asked::Place, None, b"/", Err(Refusal::Reserved)),
        (
            "a reserved name first",
            Asked::Place,
            None,
            b"f/..",
            Err(Refusal::Reserved),
        ),
        (
            "a place nowhere",
            Asked::Place,
            None,
            b"x",
            Err(Refusal::NoEntry),
        ),
        (
            "a place in a file",
            Asked::Place,
            Some(1),
            b"A/x",
            Err(Refusal::NotDir),
        ),
    ];
    for (what, asked, base, path, want) in cases {
        for order in [Order::Little, Order::Big] {
            let mut blocks = Untold {
                blocks: MemBlocks::new(rt.alloc(), 512, 40)?,
            };
            let got = answer(rt.alloc(), &mut blocks, order, asked, base, path)?;
            assert_eq!(rt; got, want, "{what}, {order:?}");
        }
    }
    Ok(())
}

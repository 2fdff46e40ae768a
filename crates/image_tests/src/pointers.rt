//! Nodes on a device in memory. Wanted numbers are by hand: with blocks of 512 bytes a pointer block has 128 pointers.

use qx_blockset::BlockSet;
use qx_fields::Order::{self, Big, Little};
use qx_fields::put32;
use qx_geom::{ABSENT, Root};
use qx_outside::{Dev, MemHost};
use qx_pointers::{Halt, LeafPlace, Part, Shape, Visitor, read_block, walk_node};
use qx_view::{Code, Finding};
use std::alloc::Global;
use std::test::Fail;

/// A pointer in a block: the block, which of its pointers, and where it leads.
type Word = (u32, u32, u32);

/// What a walk answers, and the leaves that it kept.
#[derive(Drop)]
struct Walk {
    answer: Result<Part, Halt>,
    leaves: Vec<LeafPlace>,
}

/// Blocks of 512 bytes, so many.
fn shape_of(order: Order, count: u32) -> Shape {
    Shape {
        order,
        blocksize: 512,
        count,
    }
}

/// A device of so many blocks, where all pointers but these are absent.
fn device_of(alloc: Global, order: Order, count: u32, words: &[Word]) -> Result<Vec<u8>, Fail> {
    let mut device = Vec::new(alloc);
    device.resize(0x3000 + count as usize * 512, 0xFF)?;
    for (block, word, leads) in words {
        let at = 0x3000 + *block as usize * 512 + *word as usize * 4;
        if at + 4 <= device.len() {
            put32(order, &mut device, at, *leads);
        }
    }
    Ok(device)
}

/// A host over a device, where these calls fail.
fn host_over(alloc: Global, device: &[u8], failing: &[u64]) -> Result<MemHost, Fail> {
    let none = Vec::new(alloc);
    let device = device.to_vec(alloc)?;
    let failing = failing.to_vec(alloc)?;
    Ok(MemHost::new(alloc, device, none, Vec::new(alloc), failing, 1000)?)
}

/// A node with these root pointers, the first at slot 0.
fn node_of(size: u64, levels: u8, roots: &[u32]) -> Root {
    let mut pointers = [ABSENT; 16];
    for (pointer, root) in pointers.iter_mut().zip(roots) {
        *pointer = *root;
    }
    Root {
        size,
        pointers,
        levels,
    }
}

/// The walk of inode 7's node, whose leaves are kept.
fn file_of(shape: Shape) -> Visitor {
    Visitor {
        shape,
        inode: 7,
        bounded: false,
        keeps: true,
    }
}

/// Walks a node, where blocks were met. The host's first call asks the length, its further ones read.
fn walked<D: Dev>(
    host: &mut D,
    alloc: Global,
    visitor: &Visitor,
    node: &Root,
    met: &mut BlockSet,
) -> Result<Walk, Fail> {
    let len = host.len()?;
    let end = 0x3000 + u64::from(visitor.shape.count) * u64::from(visitor.shape.blocksize);
    if len < end || met.limit() != visitor.shape.count {
        return Err(Fail::new("the device or the set is too short"));
    }
    let mut leaves = Vec::new(alloc);
    let answer = walk_node(host, visitor, node, met, &mut leaves);
    Ok(Walk { answer, leaves })
}

/// Walks a node of a device, where no block was met and no call fails.
fn walked_anew(
    alloc: Global,
    visitor: &Visitor,
    node: &Root,
    words: &[Word],
) -> Result<Walk, Fail> {
    let shape = visitor.shape;
    let device = device_of(alloc, shape.order, shape.count, words)?;
    let mut host = host_over(alloc, &device, &[])?;
    let mut met = BlockSet::new(alloc, shape.count)?;
    walked(&mut host, alloc, visitor, node, &mut met)
}

/// What is seen of a node that has no stray and no bare block.
fn whole(leaves: u64, end: Option<u32>) -> Part {
    Part {
        leaves,
        strays: false,
        bare: false,
        end,
    }
}

/// A failed test at inode 7.
fn finding(code: Code, block: u32) -> Halt {
    Halt::Finding(Finding {
        code,
        inode: 7,
        block,
    })
}

/// Two ways down so many levels: from slot 0 by the first pointers to block `levels`, and from slot 2 by the fourth ones to block `2 * levels + 1`.
fn two_ways(alloc: Global, levels: u32) -> Result<Vec<Word>, Fail> {
    let mut words = Vec::new(alloc);
    for k in 0..levels {
        let next = k.saturating_add(1);
        words.push((k, 0, next))?;
        let other = levels.saturating_add(next);
        words.push((other, 3, other.saturating_add(1)))?;
    }
    Ok(words)
}

#[test]
fn a_node_of_each_level_leads_to_its_leaves(rt: HostRuntime) -> Result<(), Fail> {
    let alloc = rt.alloc();
    // The levels, the order, and which leaf the last one is.
    let cases = [
        (0, Little, 2),
        (1, Big, 259),
        (2, Little, 33_155),
        (3, Big, 4_243_843),
        (4, Little, 543_211_907),
        (5, Big, 69_531_124_099),
        (5, Little, 69_531_124_099),
    ];
    for (levels, order, index) in cases {
        let down = u32::from(levels);
        let last = down.saturating_mul(2).saturating_add(1);
        let words = two_ways(alloc, down)?;
        let visitor = file_of(shape_of(order, 12));
        let size = u64::saturating_mul(index, 512).saturating_add(1);
        let node = node_of(size, levels, &[0, ABSENT, down.saturating_add(1)]);
        let walk = walked_anew(alloc, &visitor, &node, &words)?;
        let kept = [
            LeafPlace {
                index: 0,
                block: down,
            },
            LeafPlace { index, block: last },
        ];
        assert_eq!(rt; walk.answer, Ok(whole(2, Some(last))), "{levels}");
        assert_eq!(rt; walk.leaves.as_slice(), kept.as_slice(), "{levels}");
        let passing = Visitor {
            keeps: false,
            ..visitor
        };
        let walk = walked_anew(alloc, &passing, &node, &words)?;
        assert_eq!(rt; walk.answer, Ok(whole(2, Some(last))), "{levels}");
        assert_eq!(rt; walk.leaves.len(), 0, "{levels}");
    }
    Ok(())
}

/// Nodes of one level in 8 blocks: what is shown, the size in bytes, the root pointers, the pointers in blocks, each as its block, its place there and
/// where it leads, and what is said: a test that failed and its block, or how many leaves there are, the block of the last byte, and what else is seen.
const SEEN: &str = "
no pointer | 5000 | | | leaves 0 none
nothing at all | 0 | | | leaves 0 none
holes between leaves | 2560 | 0 | 0.0.3 0.2.5 0.4.1 | leaves 3 1
a hole at the end | 2560 | 0 | 0.0.3 0.2.5 | leaves 2 none
one byte in the last leaf | 2049 | 0 | 0.4.1 0.5.4294967295 | leaves 1 1
a stray behind the size | 2048 | 0 | 0.3.1 0.4.1 | leaves 1 1 strays
a stray out of range | 2048 | 0 | 0.3.1 0.127.4294967294 | leaves 1 1 strays
a stray root pointer | 65536 | 0 2 | 0.127.1 2.0.3 | leaves 1 1 strays
a bare block | 512 | 0 | | leaves 0 none bare
a bare block behind another | 512 | 0 | 0.1.3 | leaves 0 none bare strays
the second block is bare | 66048 | 0 1 | 1.0.2 | leaves 1 2 bare
a leaf twice | 1024 | 0 | 0.0.4 0.1.4 | twice 4
a block that points at itself | 512 | 0 | 0.0.0 | twice 0
a block twice | 66048 | 6 6 | 6.0.2 | twice 6
a leaf out of range | 512 | 0 | 0.0.8 | pointer 8
a block out of range | 512 | 8 | | pointer 8
";

/// The root pointers of a row.
fn roots_of(alloc: Global, said: &str) -> Result<Vec<u32>, Fail> {
    let mut roots = Vec::new(alloc);
    for root in said.split_ascii_whitespace() {
        roots.push(root.parse::<u32>()?)?;
    }
    Ok(roots)
}

/// A pointer in a block, as a row gives it.
fn word_of(said: &str) -> Option<Word> {
    let (block, rest) = said.split_once('.')?;
    let (word, leads) = rest.split_once('.')?;
    Some((block.parse().ok()?, word.parse().ok()?, leads.parse().ok()?))
}

/// The pointers in blocks of a row.
fn words_of(alloc: Global, said: &str) -> Result<Vec<Word>, Fail> {
    let mut words = Vec::new(alloc);
    for word in said.split_ascii_whitespace() {
        words.push(word_of(word).ok_or("a pointer in a block")?)?;
    }
    Ok(words)
}

/// What a row says of its node.
fn answer_of(said: &str) -> Option<Result<Part, Halt>> {
    let mut words = said.split(' ');
    let kind = words.next()?;
    let number = words.next()?.parse::<u32>().ok()?;
    match kind {
        "twice" => Some(Err(finding(Code::Twice, number))),
        "pointer" => Some(Err(finding(Code::Pointer, number))),
        "leaves" => Some(Ok(Part {
            leaves: u64::from(number),
            strays: said.ends_with("strays"),
            bare: said.contains("bare"),
            end: words.next()?.parse::<u32>().ok(),
        })),
        _ => None,
    }
}

/// Whether the walk of a row's node says what the row does.
fn holds(alloc: Global, row: &str) -> Result<bool, Fail> {
    let mut parts = row.split('|');
    let _name = parts.next();
    let (Some(size), Some(roots), Some(words), Some(said)) = (
        parts.next(),
        parts.next(),
        parts.next(),
        parts.next(),
    ) else {
        return Err(Fail::new("five parts"));
    };
    let node = node_of(size.trim().parse::<u64>()?, 1, &roots_of(alloc, roots)?);
    let words = words_of(alloc, words)?;
    let walk = walked_anew(alloc, &file_of(shape_of(Little, 8)), &node, &words)?;
    Ok(Some(walk.answer) == answer_of(said.trim()))
}

/// The first row whose node is seen otherwise, if there is one.
fn first_wrong(alloc: Global, rows: &str) -> Result<Option<&str>, Fail> {
    for row in rows.lines() {
        if !row.is_empty() && !holds(alloc, row)? {
            return Ok(Some(row));
        }
    }
    Ok(None)
}

#[test]
fn what_is_seen_of_pointers_is_said(rt: HostRuntime) -> Result<(), Fail> {
    let wrong = first_wrong(rt.alloc(), SEEN)?;
    assert_eq!(rt; wrong, None);
    Ok(())
}

#[test]
fn bounds_come_before_pointers(rt: HostRuntime) -> Result<(), Fail> {
    let alloc = rt.alloc();
    let beyond = Err(finding(Code::Levels, ABSENT));
    let hole = Ok(whole(0, None));
    // The size, the levels, whether all blocks bound it, and the answer. There are 4 blocks of 512 bytes.
    let cases = [
        ("as many leaves as pointers", 16 * 512, 0, false, hole),
        ("a byte more", 16 * 512 + 1, 0, false, beyond),
        ("what all blocks hold", 4 * 512, 0, true, hole),
        ("a byte more than they hold", 4 * 512 + 1, 0, true, beyond),
        ("what one level reaches", 2048 * 512, 1, false, hole),
        (
            "a byte more than it reaches",
            2048 * 512 + 1,
            1,
            false,
            beyond,
        ),
        ("the largest node", 1 << 48, 5, false, hole),
        ("a byte more than it", (1 << 48) + 1, 5, false, beyond),
        ("six levels", 0, 6, false, beyond),
        ("the greatest numbers", u64::MAX, 255, true, beyond),
    ];
    for (name, size, levels, bounded, want) in cases {
        let visitor = Visitor {
            bounded,
            ..file_of(shape_of(Big, 4))
        };
        let walk = walked_anew(alloc, &visitor, &node_of(size, levels, &[]), &[])?;
        assert_eq!(rt; walk.answer, want, "{name}");
    }
    let damaged = node_of(16 * 512 + 1, 0, &[9]);
    let walk = walked_anew(alloc, &file_of(shape_of(Big, 4)), &damaged, &[])?;
    assert_eq!(rt; walk.answer, beyond, "before its pointers");
    Ok(())
}

#[test]
fn each_read_that_fails_halts_the_walk(rt: HostRuntime) -> Result<(), Fail> {
    let alloc = rt.alloc();
    let visitor = file_of(shape_of(Big, 12));
    let device = device_of(alloc, Big, 12, &two_ways(alloc, 3)?)?;
    let node = node_of(4_243_844 * 512, 3, &[0, ABSENT, 4]);
    // Call 0 asks the length, and 6 pointer blocks are read.
    for call in 1..8 {
        let mut host = host_over(alloc, &device, &[call])?;
        let mut met = BlockSet::new(alloc, 12)?;
        let walk = walked(&mut host, alloc, &visitor, &node, &mut met)?;
        let want = if call < 7 {
            Err(Halt::Device)
        } else {
            Ok(whole(2, Some(7)))
        };
        assert_eq!(rt; walk.answer, want, "{call}");
        assert_eq!(rt; host.reads(), call.min(7).saturating_sub(1), "{call}");
    }
    Ok(())
}

#[test]
fn what_an_earlier_walk_met_is_met_again(rt: HostRuntime) -> Result<(), Fail> {
    let alloc = rt.alloc();
    let visitor = file_of(shape_of(Little, 8));
    let device = device_of(alloc, Little, 8, &[(0, 0, 1), (2, 0, 3), (2, 1, 1)])?;
    let mut host = host_over(alloc, &device, &[])?;
    let mut met = BlockSet::new(alloc, 8)?;
    let first = walked(
        &mut host,
        alloc,
        &visitor,
        &node_of(1024, 1, &[0]),
        &mut met,
    )?;
    assert_eq!(rt; first.answer, Ok(whole(1, None)));
    assert_eq!(rt; met.count(), 2);
    let second = walked(
        &mut host,
        alloc,
        &visitor,
        &node_of(1024, 1, &[2]),
        &mut met,
    )?;
    assert_eq!(rt; second.answer, Err(finding(Code::Twice, 1)));
    Ok(())
}

/// A block's bytes, or none where the call fails.
fn block_of<D: Dev>(host: &mut D, shape: Shape, block: u32) -> Result<Option<[u8; 512]>, Fail> {
    let len = host.len()?;
    let end = 0x3000 + u64::from(shape.count) * u64::from(shape.blocksize);
    let mut bytes = [0; 512];
    if len < end || shape.blocksize != 512 || block >= shape.count {
        return Err(Fail::new("no such block"));
    }
    let read = read_block(host, shape, block, &mut bytes);
    Ok(if read.is_ok() { Some(bytes) } else { None })
}

#[test]
fn a_block_is_read_from_its_place(rt: HostRuntime) -> Result<(), Fail> {
    let alloc = rt.alloc();
    let device = device_of(alloc, Big, 3, &[(1, 127, 1), (2, 0, 2), (2, 127, 3)])?;
    let mut host = host_over(alloc, &device, &[3])?;
    let bytes = block_of(&mut host, shape_of(Big, 3), 2)?;
    let mut want = [0xFF; 512];
    put32(Big, &mut want, 0, 2);
    put32(Big, &mut want, 508, 3);
    assert_eq!(rt; bytes, Some(want));
    assert_eq!(rt; block_of(&mut host, shape_of(Big, 3), 2)?, None);
    Ok(())
}

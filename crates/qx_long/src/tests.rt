//! Long names in nodes that are built by hand.
ghost use Rattle.std.specs.Prelude.{◌≡◌, ◌*◌, ◌<◌, ◌≤◌, IsTrue};

use crate::{first_absent, get, plan};
use qx_blocks::{Blocks, MemBlocks, Stop, Untold};
use qx_fields::{Order, put16};
use qx_geom::{ABSENT, Root};
use qx_ptree::Change;
use std::test::Fail;

// The first byte and the length of a name.
#[derive(Clone, Copy, Debug, PartialEq, Eq)]
struct Seen {
    first: u8,
    length: usize,
}

// The long name of a number, in a Longfile without levels whose leaf 2 says that it has so many bytes.
fn name_of<B: Blocks>(
    blocks: &mut B,
    order: Order,
    length: u16,
    size: u64,
    number: u32,
) -> Result<Option<Seen>, Stop>
    requires room { 0 < (B.state blocks.old).holdings.free }
    requires block { 512 ≤ (B.state blocks.old).holdings.size }
    requires size { size ≤ 16 * (B.state blocks.old).holdings.size }
    requires quiet { ¬ IsTrue (B.state blocks.old).tells }
{
    let block = blocks.fresh()?;
    let leaf = blocks.edit(block);
    leaf.fill(b'n');
    leaf[2] = b'a';
    put16(order, leaf, 0, length);
    let mut pointers = [ABSENT; 16];
    pointers[2] = block;
    let long = Root {
        size,
        pointers,
        levels: 0,
    };
    match get(blocks, &long, order, number)? {
        Some(name) => Ok(Some(Seen {
            first: name[0],
            length: name.len(),
        })),
        None => Ok(None),
    }
}

#[test]
fn a_name_is_lent_where_its_length_is_1_to_510(rt: HostRuntime) -> Result<(), Fail> {
    let cases = [
        (0, None),
        (1, Some(1)),
        (28, Some(28)),
        (255, Some(255)),
        (510, Some(510)),
        (511, None),
    ];
    for (length, want) in cases {
        for size in [512, 4096] {
            for order in [Order::Little, Order::Big] {
                let mut blocks = Untold {
                    blocks: MemBlocks::new(rt.alloc(), size, 1)?,
                };
                let name = name_of(&mut blocks, order, length, 2 * size as u64 + 1, 2)?;
                let seen = want.map(|length| Seen {
                    first: b'a',
                    length,
                });
                assert_eq!(rt; name, seen, "{length}, {size}, {order:?}");
            }
        }
    }
    Ok(())
}

#[test]
fn no_name_stands_in_a_hole_or_past_the_size(rt: HostRuntime) -> Result<(), Fail> {
    let there = Some(Seen {
        first: b'a',
        length: 30,
    });
    let cases = [
        ("the name", 1536, 2, there),
        ("in part below the size", 1025, 2, there),
        ("a hole before it", 1536, 1, None),
        ("a hole behind it", 2048, 3, None),
        ("at the size", 1024, 2, None),
        ("the last number", 1536, u32::MAX, None),
        ("in an empty Longfile", 0, 0, None),
    ];
    for (name, size, number, want) in cases {
        let mut blocks = Untold {
            blocks: MemBlocks::new(rt.alloc(), 512, 1)?,
        };
        assert_eq!(rt;
            name_of(&mut blocks, Order::Little, 30, size, number)?,
            want,
            "{name}"
        );
    }
    Ok(())
}

// A Longfile without levels, of so many leaves, whose leaves are all present but one.
fn number_in_pointers<B: Blocks>(
    blocks: &mut B,
    order: Order,
    leaves: u64,
    hole: usize,
) -> Result<u32, Stop>
    requires room { 0 < (B.state blocks.old).holdings.free }
    requires size { (B.state blocks.old).holdings.size ≡ 512 }
    requires leaves { leaves ≤ 16 }
    requires hole { hole < 16 }
    requires quiet { ¬ IsTrue (B.state blocks.old).tells }
{
    let mut pointers = [blocks.fresh()?; 16];
    pointers[hole] = ABSENT;
    let long = Root {
        size: leaves * 512,
        pointers,
        levels: 0,
    };
    first_absent(&long, blocks, order)
}

// A Longfile with one level, of so many leaves. A pointer block of zeros leads to block 0 at each word.
fn number_in_blocks<B: Blocks>(
    blocks: &mut B,
    order: Order,
    leaves: u64,
    pointer: usize,
    word: usize,
) -> Result<u32, Stop>
    requires room { 3 ≤ (B.state blocks.old).holdings.free }
    requires size { (B.state blocks.old).holdings.size ≡ 512 }
    requires leaves { leaves ≤ 2048 }
    requires pointer { pointer < 16 }
    requires word { word < 128 }
    requires quiet { ¬ IsTrue (B.state blocks.old).tells }
{
    blocks.fresh()?;
    let full = blocks.fresh()?;
    let other = blocks.fresh()?;
    blocks.edit(other)[4 * word..4 * word + 4].fill(0xFF);
    let mut pointers = [full; 16];
    pointers[pointer] = other;
    let long = Root {
        size: leaves * 512,
        pointers,
        levels: 1,
    };
    first_absent(&long, blocks, order)
}

#[test]
fn a_new_name_takes_the_least_number_without_a_leaf(rt: HostRuntime) -> Result<(), Fail> {
    let pointers = [
        ("empty", 0, 15, 0),
        ("full to the end", 3, 15, 3),
        ("a hole in the middle", 3, 1, 1),
        ("a hole at the beginning", 3, 0, 0),
        ("the last leaf a hole", 16, 15, 15),
        ("a hole past the size", 3, 3, 3),
    ];
    for (name, leaves, hole, want) in pointers {
        let mut blocks = Untold {
            blocks: MemBlocks::new(rt.alloc(), 512, 1)?,
        };
        let number = number_in_pointers(&mut blocks, Order::Little, leaves, hole)?;
        assert_eq!(rt; number, want, "{name}");
    }
    let levels = [
        ("full to the end of a block", 128, 15, 127, 128),
        ("full to the end of all", 2048, 15, 127, 2047),
        ("a hole in the first block", 256, 0, 5, 5),
        ("a hole in the second", 512, 1, 3, 131),
        ("the end in the second", 130, 1, 3, 130),
    ];
    for (name, leaves, pointer, word, want) in levels {
        for order in [Order::Little, Order::Big] {
            let mut blocks = Untold {
                blocks: MemBlocks::new(rt.alloc(), 512, 3)?,
            };
            let number = number_in_blocks(&mut blocks, order, leaves, pointer, word)?;
            assert_eq!(rt; number, want, "{name}, {order:?}");
        }
    }
    Ok(())
}

#[test]
fn a_plan_writes_the_added_leaf_and_takes_out_the_dropped_one(rt: HostRuntime) {
    let cases = [
        ("into nothing", 0, Some(0), None, (512, 0, 1, None)),
        ("behind the end", 512, Some(1), None, (1024, 1, 1, None)),
        ("into a hole", 1024, Some(0), None, (1024, 0, 1, None)),
        (
            "one for another",
            1024,
            Some(0),
            Some(1),
            (1024, 0, 1, Some(1)),
        ),
        ("one goes", 1024, None, Some(1), (1024, 0, 0, Some(1))),
        ("one for itself", 1024, Some(1), Some(1), (1024, 1, 1, None)),
        ("nothing", 1024, None, None, (1024, 0, 0, None)),
        (
            "the last number",
            0,
            Some(u32::MAX),
            None,
            (1 << 41, 0xFFFF_FFFF, 1, None),
        ),
    ];
    for (name, size, add, drop, (new_size, first, count, gone)) in cases {
        let long = Root {
            size,
            pointers: [ABSENT; 16],
            levels: 0,
        };
        let want = Change {
            size: new_size,
            first,
            count,
            also: None,
            gone,
        };
        assert_eq!(rt; plan(&long, add, drop, 512), want, "{name}");
    }
}

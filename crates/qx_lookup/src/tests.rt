//! Names in directories that are built by hand.
ghost use Rattle.std.specs.Prelude.{◌≡◌, ◌+◌, ◌<◌, ◌≤◌, IsTrue, OnOk, length};

use crate::{FoundRow, find_row};
use qx_blocks::{Blocks, MemBlocks, Stop, Untold};
use qx_dir::put;
use qx_fields::Order;
use qx_geom::{ABSENT, Root};
use qx_records::write_long_name;
use std::test::Fail;

// 27 bytes, and 28 with the same beginning. The twin has another text, and by hand the same checksum: two more in the last byte but one, one less in the last.
const SHORT: &[u8] = b"abcdefghijklmnopqrstuvwxyza";

const LONG: &[u8] = b"abcdefghijklmnopqrstuvwxyzab";

const TWIN: &[u8] = b"abcdefghijklmnopqrstuvwxyzca";

// A fresh block with these bytes.
fn block_of<B: Blocks>(blocks: &mut B, bytes: &[u8]) -> Result<u32, Stop>
    requires size { (B.state blocks.old).holdings.size ≡ 512 }
    requires room { 0 < (B.state blocks.old).holdings.free }
    requires whole { length bytes.now ≡ 512 }
    ensures free { OnOk result ((B.state blocks.new).holdings.free + 1 ≡ (B.state blocks.old).holdings.free) }
    ensures size { OnOk result ((B.state blocks.new).holdings.size ≡ (B.state blocks.old).holdings.size) }
    ensures tells { OnOk result ((B.state blocks.new).tells ≡ (B.state blocks.old).tells) }
{
    let block = blocks.fresh()?;
    blocks.edit(block).copy_from_slice(bytes);
    Ok(block)
}

// A fresh leaf of a Longfile with this name.
fn long_leaf<B: Blocks>(blocks: &mut B, order: Order, name: &[u8]) -> Result<u32, Stop>
    requires size { (B.state blocks.old).holdings.size ≡ 512 }
    requires room { 0 < (B.state blocks.old).holdings.free }
    requires named { 0 < length name.now }
    requires short { length name.now ≤ 510 }
    ensures free { OnOk result ((B.state blocks.new).holdings.free + 1 ≡ (B.state blocks.old).holdings.free) }
    ensures size { OnOk result ((B.state blocks.new).holdings.size ≡ (B.state blocks.old).holdings.size) }
    ensures tells { OnOk result ((B.state blocks.new).tells ≡ (B.state blocks.old).tells) }
{
    let mut bytes = [0; 512];
    write_long_name(&mut bytes, order, name);
    block_of(blocks, &bytes)
}

// The records 0 to 15: `.`, `..`, a long name that the Longfile has as its twin, 27 bytes, and 28.
fn first_leaf(order: Order) -> [u8; 512] {
    let mut bytes = [0; 512];
    put(&mut bytes, order, 0, 8, b".", 0);
    put(&mut bytes, order, 1, 1, b"..", 0);
    put(&mut bytes, order, 2, 9, LONG, 0);
    put(&mut bytes, order, 4, 3, SHORT, 0);
    put(&mut bytes, order, 5, 4, LONG, 1);
    bytes
}

// The records 32 to 47: 510 bytes, a name that stands in the first leaf as well, and three more.
fn third_leaf(order: Order, longest: &[u8]) -> [u8; 512]
    requires named { 28 ≤ length longest.now }
    requires short { length longest.now ≤ 510 }
{
    let mut bytes = [0; 512];
    put(&mut bytes, order, 1, 5, longest, 2);
    put(&mut bytes, order, 2, 7, b"..", 0);
    put(&mut bytes, order, 3, 6, b"late", 0);
    put(&mut bytes, order, 4, 6, b"last", 0);
    put(&mut bytes, order, 5, 6, b"past", 0);
    bytes
}

// The row that a name has in a directory of three leaves, the second of them a hole, which ends within record 37.
fn row_of<B: Blocks>(blocks: &mut B, order: Order, name: &[u8]) -> Result<Option<FoundRow>, Stop>
    requires size { (B.state blocks.old).holdings.size ≡ 512 }
    requires room { 5 ≤ (B.state blocks.old).holdings.free }
    requires quiet { ¬ IsTrue (B.state blocks.old).tells }
{
    let longest = [b'n'; 510];
    let mut longs = [ABSENT; 16];
    longs[0] = long_leaf(blocks, order, TWIN)?;
    longs[1] = long_leaf(blocks, order, LONG)?;
    longs[2] = long_leaf(blocks, order, &longest)?;
    let mut pointers = [ABSENT; 16];
    pointers[0] = block_of(blocks, &first_leaf(order))?;
    pointers[2] = block_of(blocks, &third_leaf(order, &longest))?;
    let longfile = Root {
        size: 3 * 512,
        pointers: longs,
        levels: 0,
    };
    let node = Root {
        size: 37 * 32 + 31,
        pointers,
        levels: 0,
    };
    find_row(blocks, &node, &longfile, order, name)
}

// A row by its numbers.
fn row(record: u64, inode: u32, long: Option<u32>) -> Option<FoundRow> {
    Some(FoundRow {
        record,
        inode,
        long,
    })
}

#[test]
fn the_first_row_with_a_name_is_found(rt: HostRuntime) -> Result<(), Fail> {
    let longest = [b'n'; 510];
    let cases: [(&str, &[u8], Option<FoundRow>); 13] = [
        ("the directory itself", b".", row(0, 8, None)),
        ("its parent, the first of two", b"..", row(1, 1, None)),
        ("27 bytes", SHORT, row(4, 3, None)),
        ("26 of them", &SHORT[..26], None),
        (
            "28, behind a record with their checksum",
            LONG,
            row(5, 4, Some(1)),
        ),
        ("what that record says", TWIN, row(2, 9, Some(0))),
        ("510 bytes, behind a hole", &longest, row(33, 5, Some(2))),
        ("509 of them", &longest[..509], None),
        ("a name behind a hole", b"late", row(35, 6, None)),
        ("in the last whole record", b"last", row(36, 6, None)),
        ("in a record that ends past the size", b"past", None),
        ("no name", b"", None),
        ("a name that isn't there", b"lost", None),
    ];
    for (what, name, want) in cases {
        for order in [Order::Little, Order::Big] {
            let mut blocks = Untold {
                blocks: MemBlocks::new(rt.alloc(), 512, 5)?,
            };
            assert_eq!(rt;
                row_of(&mut blocks, order, name)?,
                want,
                "{what}, {order:?}"
            );
        }
    }
    Ok(())
}

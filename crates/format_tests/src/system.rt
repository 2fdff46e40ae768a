//! Bytes of system blocks, by values that were worked out by hand.
ghost use Rattle.std.specs.Prelude.{IfSome};
ghost use Rattle.qx_geom.specs.Layout.{IsGeometry};

use qx_fields::{Order, get32};
use qx_geom::{ABSENT, Geometry, SystemTree, Which};
use qx_system::{OneBlock, bitmap_byte, fill_bitmap_leaf, fill_pointer_block};

/// A volume's numbers, by the bytes of its device, those of a block, and its inodes.
fn numbers(volume: (u64, u32, u32)) -> Option<Geometry>
    ensures { IfSome result IsGeometry }
{
    Geometry::new(volume.0, volume.1, volume.2).ok()
}

/// A byte of the bitmap, where one block is held beside both halves.
fn byte(volume: (u64, u32, u32), number: u32, place: u32) -> Option<u8> {
    let geometry = numbers(volume)?;
    let held = OneBlock { number };
    let byte = bitmap_byte(&geometry, &held, u64::from(place));
    let mut buffer = [0; 4096];
    let size = geometry.blocksize;
    let bytes = buffer.get_mut(..size as usize)?;
    let leaf = place.checked_div(size)?;
    if geometry.bitmap_leaves <= leaf {
        return None;
    }
    fill_bitmap_leaf(&geometry, &held, leaf, bytes);
    bytes
        .get((place - leaf * size) as usize)
        .copied()
        .filter(|filled| *filled == byte)
}

/// Bytes of the bitmap of 64 KiB in blocks of 512 bytes: what stands there, the held block, the byte's place, and its two digits.
const SMALL: &str = "
a byte of the halves | 10 | 0 | FF
the end of the halves, and the held block | 10 | 1 | 07
the end of the halves | 20 | 1 | 03
a held block | 20 | 2 | 10
no held block | 20 | 3 | 00
the last block | 95 | 11 | 80
past the last block | 10 | 12 | FF
the leaf's last byte | 10 | 511 | FF
";

/// Those of a volume of 45 blocks.
const ODD: &str = "
both halves and the held block in one byte | 4 | 0 | 1F
the end of the blocks | 4 | 5 | E0
the end of the blocks, and the last block | 44 | 5 | F0
";

/// Those of a volume of 131,040 blocks, of which the halves take 8,324: they end in the third of 32 leaves.
const LARGE: &str = "
a leaf of the halves | 20000 | 1023 | FF
the end of the halves in a leaf | 20000 | 1040 | 0F
the held block, first of its leaf | 12288 | 1536 | 01
the held block, last of its leaf | 16383 | 2047 | 80
before the held block | 20000 | 2499 | 00
the held block in a leaf | 20000 | 2500 | 01
behind the held block | 20000 | 2501 | 00
a leaf before the held block | 20000 | 2000 | 00
a leaf behind the held block | 20000 | 3000 | 00
a leaf where a half's block is held | 10 | 3000 | 00
the last block in the last leaf | 131039 | 16379 | 80
past it in the last leaf | 131039 | 16380 | FF
";

/// Whether a volume's bitmap has the byte of a row.
fn holds(volume: (u64, u32, u32), row: &str) -> Option<bool> {
    let mut parts = row.split('|');
    let _name = parts.next()?;
    let number = parts.next()?.trim().parse::<u32>().ok()?;
    let place = parts.next()?.trim().parse::<u32>().ok()?;
    let want = u8::from_str_radix(parts.next()?.trim(), 16).ok()?;
    Some(byte(volume, number, place) == Some(want))
}

/// The first row that doesn't hold of a volume, if there is one.
fn first_wrong(volume: (u64, u32, u32), rows: &str) -> Option<&str> {
    for row in rows.lines() {
        if !row.is_empty() && holds(volume, row) != Some(true) {
            return Some(row);
        }
    }
    None
}

#[test]
fn the_bytes_of_a_bitmap(rt: HostRuntime) {
    assert_eq!(rt; first_wrong((65536, 512, 16), SMALL), None);
    assert_eq!(rt; first_wrong((0x4000 + 45 * 4096, 4096, 16), ODD), None);
    assert_eq!(rt; first_wrong((67_108_864, 512, 16384), LARGE), None);
}

/// A word of a pointer block of the first half's Inode tree, as it is filled in either order.
fn word(volume: (u64, u32, u32), order: Order, block: u32, word: u8) -> Option<u32> {
    let geometry = numbers(volume)?;
    let blocks = geometry.pointer_blocks(Which::First, SystemTree::Inodes);
    if block < blocks.start || blocks.end <= block {
        return None;
    }
    let mut bytes = [0; 512];
    if geometry.blocksize != 512 {
        return None;
    }
    fill_pointer_block(
        &geometry,
        order,
        Which::First,
        SystemTree::Inodes,
        block,
        &mut bytes,
    );
    let at = usize::from(word) * 4;
    if 508 < at {
        return None;
    }
    Some(get32(order, &bytes, at))
}

#[test]
fn the_words_of_a_pointer_block(rt: HostRuntime) {
    // 8 blocks of the bitmap, 1,000 of inodes, and 8 pointer blocks above these.
    let volume = (16_777_216, 512, 4000);
    let cases = [
        ("the first", 1008, 0, 8),
        ("the last of the first block", 1008, 127, 135),
        ("the first of the last block", 1015, 0, 904),
        ("the last leaf", 1015, 103, 1007),
        ("past the last leaf", 1015, 104, ABSENT),
    ];
    for (name, block, at, want) in cases {
        assert_eq!(rt;
            word(volume, Order::Little, block, at),
            Some(want),
            "{name}"
        );
        assert_eq!(rt; word(volume, Order::Big, block, at), Some(want), "{name}");
    }
}

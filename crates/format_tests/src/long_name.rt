//! Long names, read and written.
ghost use Rattle.std.specs.Prelude.{◌<◌, ◌≤◌};

use qx_fields::Order;
use qx_records::{LongView, write_long_name};

/// The length of the name in a leaf that begins with these two bytes, if it has one.
fn name_len(order: Order, first: u8, second: u8) -> Option<usize> {
    let mut leaf = [b'n'; 1024];
    leaf[0] = first;
    leaf[1] = second;
    LongView::read(&leaf, order).map(<[u8]>::len)
}

/// The two bytes of each length, as a script that has no part of qx_records packs them.
#[test]
fn a_long_name_is_read_where_its_length_is_1_to_510(rt: HostRuntime) {
    let cases = [
        (0, [0x00, 0x00], false),
        (1, [0x00, 0x01], true),
        (28, [0x00, 0x1C], true),
        (255, [0x00, 0xFF], true),
        (510, [0x01, 0xFE], true),
        (511, [0x01, 0xFF], false),
        (65535, [0xFF, 0xFF], false),
    ];
    for (length, [high, low], is_name) in cases {
        for (order, first, second) in [(Order::Little, low, high), (Order::Big, high, low)] {
            let want = if is_name { Some(length) } else { None };
            assert_eq!(rt; name_len(order, first, second), want, "{length}, {order:?}");
        }
    }
}

/// A leaf that is filled with a name of so many letters.
fn filled(order: Order, length: usize) -> [u8; 512]
    requires named { 0 < length }
    requires short { length ≤ 510 }
{
    let mut leaf = [0xFF; 512];
    write_long_name(&mut leaf, order, &[b'n'; 510][..length]);
    leaf
}

/// These two bytes, so many letters, and bytes 0.
fn wanted(first: u8, second: u8, length: usize) -> [u8; 512]
    requires { length ≤ 510 }
{
    let mut leaf = [0; 512];
    leaf[0] = first;
    leaf[1] = second;
    leaf[2..2 + length].fill(b'n');
    leaf
}

#[test]
fn a_leaf_is_filled_with_a_name_and_zeros(rt: HostRuntime) {
    let cases = [
        (1, [0x00, 0x01]),
        (27, [0x00, 0x1B]),
        (28, [0x00, 0x1C]),
        (255, [0x00, 0xFF]),
        (510, [0x01, 0xFE]),
    ];
    for (length, [high, low]) in cases {
        for (order, first, second) in [(Order::Little, low, high), (Order::Big, high, low)] {
            let want = wanted(first, second, length);
            assert_eq!(rt; filled(order, length), want, "{length}, {order:?}");
        }
    }
}

//! Directory records, as they are written.

use qx_fields::Order;
use qx_records::{write_long, write_short, write_unused};

/// Bytes by the format's table of a directory record, packed by a script that has no part of qx_records.
#[test]
fn a_row_is_written_over_whatever_stood_there(rt: HostRuntime) {
    let longest: &[u8] = b"abcdefghijklmnopqrstuvwxyza";
    let cases = [
        (
            Order::Little,
            longest,
            b"\x04\x03\x02\x01\x1Babcdefghijklmnopqrstuvwxyza",
        ),
        (
            Order::Big,
            longest,
            b"\x01\x02\x03\x04\x1Babcdefghijklmnopqrstuvwxyza",
        ),
        (
            Order::Little,
            &longest[..3],
            b"\x04\x03\x02\x01\x03abc\0\0\0\0\0\0\0\0\0\0\0\0\0\0\0\0\0\0\0\0\0\0\0\0",
        ),
        (
            Order::Big,
            &longest[..1],
            b"\x01\x02\x03\x04\x01a\0\0\0\0\0\0\0\0\0\0\0\0\0\0\0\0\0\0\0\0\0\0\0\0\0\0",
        ),
    ];
    for (order, name, want) in cases {
        let mut bytes = [0xFF; 32];
        // Each name has 1 to 27 bytes, but a table's elements have no length that is known in a loop.
        assert!(rt; !name.is_empty() && name.len() <= 27);
        write_short(&mut bytes, order, 0x0102_0304, name);
        assert_eq!(rt; bytes, *want, "{order:?}");
    }
}

#[test]
fn a_row_with_a_long_name_is_written_over_whatever_stood_there(rt: HostRuntime) {
    let cases = [
        (
            Order::Little,
            b"\x07\0\0\0\xFF\0\0\0\x08\x07\x06\x05\xAC\0\0\x40\0\0\0\0\0\0\0\0\0\0\0\0\0\0\0\0",
        ),
        (
            Order::Big,
            b"\0\0\0\x07\xFF\0\0\0\x05\x06\x07\x08\x40\0\0\xAC\0\0\0\0\0\0\0\0\0\0\0\0\0\0\0\0",
        ),
    ];
    for (order, want) in cases {
        let mut bytes = [0xFF; 32];
        write_long(&mut bytes, order, 7, 0x0506_0708, 0x4000_00AC);
        assert_eq!(rt; bytes, *want, "{order:?}");
    }
}

#[test]
fn an_unused_record_has_no_byte_left(rt: HostRuntime) {
    let mut bytes = [0xFF; 32];
    write_unused(&mut bytes);
    assert_eq!(rt; bytes, [0; 32]);
}

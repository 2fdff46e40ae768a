//! Checksums of long names.

use qx_records::{name_sum, name_sum_signed};

/// 510 bytes, from 255 down to 128 again and again.
fn falling() -> [u8; 510] {
    let mut falling = [0; 510];
    for (place, byte) in falling.iter_mut().enumerate() {
        *byte = 255 - (place % 128) as u8;
    }
    falling
}

/// 510 letters, from a to z again and again.
fn letters() -> [u8; 510] {
    let mut letters = [0; 510];
    for (place, byte) in letters.iter_mut().enumerate() {
        *byte = b'a' + (place % 26) as u8;
    }
    letters
}

/// Sums by a script that has no part of qx_records; it reads a byte of the signed sum as the C type `signed char`.
#[test]
fn bytes_from_128_on_count_in_two_ways(rt: HostRuntime) {
    let falling = falling();
    let letters = letters();
    let cases: [(&str, &[u8], u32, u32); 12] = [
        ("no name", b"", 0, 0),
        ("abc", b"abc", 0x4000_00AC, 0x4000_00AC),
        ("1 letter", b"x", 0x78, 0x78),
        ("27 letters", &letters[..27], 0xFFFF_E919, 0xFFFF_E919),
        ("28 letters", &letters[..28], 0xFFFF_F4EE, 0xFFFF_F4EE),
        ("255 letters", &letters[..255], 0x4104_0914, 0x4104_0914),
        ("510 letters", &letters, 0xA289_533E, 0xA289_533E),
        ("128", b"\x80", 0x80, 0xFFFF_FF80),
        ("255 twice", b"\xFF\xFF", 0x8000_017E, 0xFFFF_FFFE),
        ("two of six", b"na\xC3\xAFve", 0xA000_00ED, 0xA000_008D),
        ("all of 28", &falling[..28], 0xFFFF_E1A9, 0xFFFF_FFC9),
        ("all of 510", &falling, 0xFFFF_EC25, 0xFFFF_F305),
    ];
    for (name, bytes, unsigned, signed) in cases {
        let sums = (name_sum(bytes), name_sum_signed(bytes));
        assert_eq!(rt; sums, (unsigned, signed), "{name}");
    }
}

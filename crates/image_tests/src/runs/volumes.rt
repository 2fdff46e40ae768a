//! Volumes made over a host in memory, and read back.

use super::small::small_image;
use super::{AREA_1, AREA_2, SMALL, SUPERS, USAGE_LINE, Volume, changed, ran, ran_in_room};
use crate::maker::made_over;
use qx_fields::Order;
use qx_make::MakeOptions;
use qx_outside::Event;
use std::alloc::Global;
use std::test::Fail;

const MAKE: [&str; 3] = ["mkqnx6fs", "x", "65536"];

const MADE: &str = "made blocks 96 user 86 free 85 inodes 16\n";

const FAULT: &str = "device fault\n";

const NO_VOLUME: &str = "no volume\n";

/// An older volume of the same numbers.
const OLDER: Volume = Volume {
    first_serial: 7,
    second_serial: 8,
    ..SMALL
};

/// What is said of the superblocks of a device's bytes.
fn supers_of(alloc: Global, bytes: &[u8]) -> Result<Vec<u8>, Fail> {
    let left = ran(alloc, &SUPERS, bytes.to_vec(alloc)?, &[])?;
    Ok(left.output)
}

/// These bytes of a device.
fn part(bytes: &[u8], from: usize, to: usize) -> &[u8] {
    bytes.get(from..to).unwrap_or(&[])
}

#[test]
fn a_volume_on_an_empty_device_is_the_one_of_the_tables(rt: HostRuntime) -> Result<(), Fail> {
    let alloc = rt.alloc();
    for size in ["65536", "64K", "0064K"] {
        let left = ran(alloc, &["mkqnx6fs", "x", size], Vec::new(alloc), &[])?;
        assert!(rt; left.says(0, MADE), "{size}");
        assert!(rt; left.bytes == small_image(alloc)?, "{size}");
    }
    Ok(())
}

#[test]
fn a_volume_that_was_made_is_read_back(rt: HostRuntime) -> Result<(), Fail> {
    let alloc = rt.alloc();
    let of_32k = "area 2 serial 2 blocksize 512 blocks 32 inodes 16 order little\n";
    let least = "made blocks 32 user 22 free 21 inodes 16\n";
    let cases: [(&str, &str, usize, &str); 4] = [
        ("65536", MADE, 65536, AREA_2),
        ("65537", MADE, 65537, AREA_2),
        ("32768", least, 32768, of_32k),
        ("32K", least, 32768, of_32k),
    ];
    for (size, text, len, line) in cases {
        let left = ran(alloc, &["mkqnx6fs", "x", size], Vec::new(alloc), &[])?;
        assert!(rt; left.says(0, text), "{size}");
        assert_eq!(rt; left.bytes.len(), len, "{size}");
        let said = supers_of(alloc, &left.bytes)?;
        assert!(rt; said.as_slice() == line.as_bytes(), "{size}");
    }
    let left = ran(alloc, &["mkqnx6fs", "x", "65537"], Vec::new(alloc), &[])?;
    let magic = [0x22, 0x11, 0x19, 0x68];
    assert_eq!(rt; part(&left.bytes, 61440, 61444), magic.as_slice());
    Ok(())
}

/// A device with a volume of other blocks.
fn other_blocks(alloc: Global) -> Result<Vec<u8>, Fail> {
    let options = MakeOptions {
        size: 131072,
        blocksize: 1024,
        inodes: 40,
        order: Order::Little,
        moment: 5,
    };
    let (_, bytes) = made_over(alloc, &[], &options)?;
    Ok(bytes)
}

/// Whether the small volume is made over a device and found there, its areas, halves and root directory byte for byte.
fn is_made_over(alloc: Global, device: Vec<u8>) -> Result<bool, Fail> {
    let left = ran(alloc, &MAKE, device, &[])?;
    let bytes = left.bytes.as_slice();
    let wanted = small_image(alloc)?;
    let first = part(bytes, 0x2000, 0x4600) == part(&wanted, 0x2000, 0x4600);
    let second = part(bytes, 0xF000, 0x10000) == part(&wanted, 0xF000, 0x10000);
    let said = left.says(0, MADE);
    let found = supers_of(alloc, bytes)?.as_slice() == AREA_2.as_bytes();
    Ok(first && second && said && found && bytes.len() == 65536)
}

#[test]
fn whatever_the_device_held_the_new_volume_counts(rt: HostRuntime) -> Result<(), Fail> {
    let alloc = rt.alloc();
    let mut longer = OLDER.device(alloc)?;
    longer.resize(100_001, 0x22)?;
    let mut ones = Vec::new(alloc);
    ones.resize(70_000, 0xFF)?;
    let mut shorter = OLDER.device(alloc)?;
    shorter.truncate(9000);
    let cases = [
        ("longer", longer),
        ("shorter", shorter),
        ("no volume", ones),
        ("other blocks", other_blocks(alloc)?),
    ];
    for (name, device) in cases {
        assert!(rt; is_made_over(alloc, device)?, "{name}");
    }
    Ok(())
}

fn expect(holds: bool, why: &'static str) -> Result<(), Fail> {
    if holds { Ok(()) } else { Err(Fail::new(why)) }
}

/// The volume that a device has: the old one, none, or the new one.
#[derive(Clone, Copy, PartialEq, Eq)]
enum Held {
    Old,
    Nothing,
    New,
}

/// What a device's bytes hold, where they held a volume with this line before.
fn held_by(alloc: Global, bytes: &[u8], old: &str) -> Result<Held, Fail> {
    let line = supers_of(alloc, bytes)?;
    let line = line.as_slice();
    if line == NO_VOLUME.as_bytes() {
        return Ok(Held::Nothing);
    }
    if line == old.as_bytes() {
        return Ok(Held::Old);
    }
    // The first of the new superblocks counts while the second doesn't stand.
    let new = line == AREA_1.as_bytes() || line == AREA_2.as_bytes();
    expect(new, "neither the old volume, nor none, nor the new one")?;
    Ok(Held::New)
}

/// Devices by what they hold, with the line about it.
fn devices(alloc: Global) -> Result<[(Vec<u8>, &'static str); 4], Fail> {
    let mut shortened = OLDER.device(alloc)?;
    shortened.truncate(61440);
    let damaged = changed(SMALL.device(alloc)?, &[0x2010, 0xF010]);
    let older = OLDER.device(alloc)?;
    Ok([
        (Vec::new(alloc), NO_VOLUME),
        (
            older,
            "area 2 serial 8 blocksize 512 blocks 96 inodes 16 order little\n",
        ),
        (damaged, NO_VOLUME),
        (
            shortened,
            "area 1 serial 7 blocksize 512 blocks 96 inodes 16 order little\n",
        ),
    ])
}

/// Runs the maker with its call of this number failing, and looks at what it says and leaves. Answers whether no call failed.
fn run_failing_at(alloc: Global, device: &[u8], old: &str, number: u64) -> Result<bool, Fail> {
    let left = ran(alloc, &MAKE, device.to_vec(alloc)?, &[number])?;
    let output = left.output.as_slice();
    if left.status == 0 {
        return Ok(true);
    }
    if number == 0 {
        let untouched = left.events == 0 && left.reads == 0;
        expect(left.status == 4 && untouched, "the clock comes first")?;
    } else if left.status == 4 {
        expect(MADE.as_bytes().starts_with(output), "a part of the line")?;
    } else {
        expect(left.says(3, FAULT), "a device fault")?;
    }
    held_by(alloc, &left.bytes, old)?;
    Ok(false)
}

#[test]
fn each_call_that_fails_leaves_the_old_volume_or_none_or_the_new_one(
    rt: HostRuntime,
) -> Result<(), Fail> {
    let alloc = rt.alloc();
    for (device, old) in devices(alloc)? {
        let mut done = false;
        for number in 0..40u64 {
            if run_failing_at(alloc, &device, old, number)? {
                done = true;
                break;
            }
        }
        assert!(rt; done, "{old}");
    }
    Ok(())
}

/// What a cut after so many events leaves, and whether the length was set by the last of them.
fn cut_after(alloc: Global, device: &[u8], old: &str, events: usize) -> Result<(Held, bool), Fail> {
    let (_, host) = ran_in_room(alloc, &MAKE, device.to_vec(alloc)?, &[], events)?;
    let sized = matches!(host.trail(), [.., Event::Sized { len: _, ok: true }]);
    Ok((held_by(alloc, host.bytes(), old)?, sized))
}

#[test]
fn a_cut_after_each_event_leaves_the_old_volume_then_none_then_the_new_one(
    rt: HostRuntime,
) -> Result<(), Fail> {
    let alloc = rt.alloc();
    for (device, old) in devices(alloc)? {
        let mut before = Held::Old;
        for events in 0..40usize {
            let (held, sized) = cut_after(alloc, &device, old, events)?;
            assert!(rt; !sized || held == Held::Nothing, "{old} {events}");
            let went_back = held == Held::Old && before != Held::Old
                || before == Held::New && held != Held::New;
            assert!(rt; !went_back, "{old} {events}");
            before = held;
        }
        assert!(rt; before == Held::New, "{old}");
    }
    Ok(())
}

#[test]
fn a_cut_after_the_zeroing_writes_leaves_no_volume(rt: HostRuntime) -> Result<(), Fail> {
    let alloc = rt.alloc();
    let damaged = changed(SMALL.device(alloc)?, &[0x2010, 0xF010]);
    // The moment, the first area's place zeroed and kept, the length, and both new areas zeroed.
    let (ended, host) = ran_in_room(alloc, &MAKE, damaged, &[], 6)?;
    assert_eq!(rt; ended, 4);
    let zeroed = matches!(
        host.trail(),
        [
            Event::Now(1000),
            Event::Wrote { at: 0x2000, .. },
            Event::Synced { ok: true },
            Event::Sized {
                len: 65536,
                ok: true
            },
            Event::Wrote { at: 0x2000, .. },
            Event::Wrote { at: 0xF000, .. },
        ]
    );
    assert!(rt; zeroed);
    assert!(rt; part(host.bytes(), 0x2000, 0x3000) == [0; 4096].as_slice());
    assert!(rt; part(host.bytes(), 0xF000, 0x10000) == [0; 4096].as_slice());
    let said = supers_of(alloc, host.bytes())?;
    assert_eq!(rt; said.as_slice(), NO_VOLUME.as_bytes());
    Ok(())
}

#[test]
fn where_the_length_was_just_set_there_is_no_volume(rt: HostRuntime) -> Result<(), Fail> {
    let alloc = rt.alloc();
    let mut shortened = small_image(alloc)?;
    shortened.truncate(61440);
    let mut seen = false;
    for events in 0..12usize {
        let (held, sized) = cut_after(alloc, &shortened, AREA_1, events)?;
        assert!(rt; !sized || held == Held::Nothing, "{events}");
        seen |= sized;
    }
    assert!(rt; seen);
    Ok(())
}

#[test]
fn refused_numbers_have_their_line_and_no_other_call(rt: HostRuntime) -> Result<(), Fail> {
    let alloc = rt.alloc();
    let short = "bad TooShort\n";
    let large = "bad TooLarge\n";
    let cases = [
        ("32767", short),
        ("0", short),
        ("010K", short),
        ("137438973952", large),
        ("18446744073709551615", large),
        ("17179869183G", large),
        ("", USAGE_LINE),
        ("K", USAGE_LINE),
        ("+5", USAGE_LINE),
        ("-5", USAGE_LINE),
        ("64k", USAGE_LINE),
        ("64KK", USAGE_LINE),
        ("64 K", USAGE_LINE),
        ("0x10000", USAGE_LINE),
        ("+65536", USAGE_LINE),
        ("18446744073709551616", USAGE_LINE),
        ("18446744073709551615K", USAGE_LINE),
        ("17179869184G", USAGE_LINE),
    ];
    for (size, line) in cases {
        let words = ["mkqnx6fs", "x", size];
        let left = ran(alloc, &words, SMALL.device(alloc)?, &[])?;
        assert!(rt; left.says(1, line), "{size}");
        assert_eq!(rt; (left.events, left.reads), (1, 0), "{size}");
    }
    Ok(())
}

/// Whether the maker takes the word for this size: a volume's length is asked of the device, which fails to set it; other sizes and words have their lines.
/// Of a size that is no volume's, a run tells no more than on which side it lies; `sizes.rt` has its exact value.
fn says_size(alloc: Global, word: &str, size: Option<u64>) -> Result<bool, Fail> {
    let words = ["mkqnx6fs", "x", word];
    // The call that fails comes behind the clock, the attach, the length and a sync, and sets the length.
    let (_, host) = ran_in_room(alloc, &words, Vec::new(alloc), &[4], 100)?;
    let output = host.output()?;
    let line = output.as_slice();
    Ok(match (size, host.trail()) {
        (None, [Event::Gave(_)]) => line == USAGE_LINE.as_bytes(),
        (Some(size), [Event::Gave(_)]) if size < 1 << 15 => line == b"bad TooShort\n".as_slice(),
        (Some(size), [Event::Gave(_)]) => size > 1 << 37 && line == b"bad TooLarge\n".as_slice(),
        (Some(size), [.., Event::Sized { len, ok: false }, Event::Gave(_)]) => *len == size,
        _ => false,
    })
}

#[test]
fn words_say_sizes(rt: HostRuntime) -> Result<(), Fail> {
    let cases = [
        ("0", Some(0)),
        ("000065536", Some(65536)),
        ("010K", Some(10240)),
        ("16M", Some(16_777_216)),
        ("3G", Some(3_221_225_472)),
        ("18446744073709551615", Some(u64::MAX)),
        ("17179869183G", Some(18_446_744_072_635_809_792)),
        ("0000000000000000000000000000001K", Some(1024)),
        ("K", None),
        ("1T", None),
        ("1\u{0660}", None),
    ];
    for (word, size) in cases {
        assert!(rt; says_size(rt.alloc(), word, size)?, "{word}");
    }
    Ok(())
}

//! Which of two superblocks counts.

use crate::samples::{SMALL, Sample};
use qx_fields::Order;
use qx_geom::Which;
use qx_outside::{Dev, Failed, MemHost};
use qx_super::{Pick, SuperView, areas, pick};
use std::alloc::Global;
use std::test::Fail;

/// The bytes of an area, or bytes 0 where it has no superblock.
fn area(sample: Option<Sample>) -> [u8; 512] {
    match sample {
        Some(sample) => sample.bytes(),
        None => [0; 512],
    }
}

/// A device that is long enough for every sample.
const LONG: u64 = 0x10_0000;

/// The pick of two areas.
fn pick_of(first: Option<Sample>, second: Option<Sample>) -> Pick {
    let first = area(first);
    let second = area(second);
    let first = SuperView::read(&first, LONG).ok();
    let second = SuperView::read(&second, LONG).ok();
    pick(first.as_ref(), second.as_ref())
}

#[test]
fn the_later_of_two_superblocks_of_one_volume_counts(rt: HostRuntime) {
    let first = Pick::Active(Which::First);
    let second = Pick::Active(Which::Second);
    let later = Sample { serial: 2, ..SMALL };
    let cases = [
        ("none", None, None, Pick::None),
        ("the first alone", Some(SMALL), None, first),
        ("the second alone", None, Some(SMALL), second),
        ("the second is later", Some(SMALL), Some(later), second),
        ("the first is later", Some(later), Some(SMALL), first),
        ("equal serials", Some(later), Some(later), first),
    ];
    for (name, a, b, want) in cases {
        assert_eq!(rt; pick_of(a, b), want, "{name}");
    }
}

#[test]
fn superblocks_that_differ_in_one_of_four_disagree(rt: HostRuntime) {
    let mut order = SMALL;
    order.order = Order::Big;
    let mut blocksize = SMALL;
    blocksize.blocksize = 1024;
    let mut num_blocks = SMALL;
    num_blocks.num_blocks = 95;
    let mut num_inodes = SMALL;
    num_inodes.num_inodes = 15;
    let cases = [
        ("order", order),
        ("blocksize", blocksize),
        ("num_blocks", num_blocks),
        ("num_inodes", num_inodes),
    ];
    for (name, other) in cases {
        let got = pick_of(Some(SMALL), Some(other));
        assert_eq!(rt; got, Pick::Disagree, "{name}");
    }
}

/// A device whose first area has the one superblock, and every other place the other, so that one stands wherever the second area is looked for.
fn device_of(
    alloc: Global,
    first: Option<Sample>,
    second: Sample,
    len: usize,
) -> Result<MemHost, Fail> {
    let first = area(first);
    let second = second.bytes();
    let mut bytes = Vec::new(alloc);
    for place in 0..len / 512 {
        // Place 16 is the first area, at byte 0x2000.
        let area = if place == 16 { &first } else { &second };
        bytes.extend_from_slice(area)?;
    }
    bytes.extend_from_slice(&second[..len % 512])?;
    let none = Vec::new(alloc);
    Ok(MemHost::new(alloc, bytes, none, Vec::new(alloc), Vec::new(alloc), 1)?)
}

/// What the areas of a device name.
fn pick_on<D: Dev>(device: &mut D) -> Result<Pick, Failed> {
    let len = device.len()?;
    let (mut first, mut second) = ([0; 512], [0; 512]);
    let areas = areas(device, len, &mut first, &mut second)?;
    Ok(areas.pick())
}

/// Whether the second superblock counts on a device of that length.
fn does_count(
    alloc: Global,
    first: Option<Sample>,
    second: Sample,
    len: usize,
) -> Result<bool, Fail> {
    // A later superblock that counts is active, or disagrees with the first.
    let later = Sample {
        serial: 2,
        ..second
    };
    let mut device = device_of(alloc, first, later, len)?;
    let pick = pick_on(&mut device)?;
    Ok(matches!(pick, Pick::Active(Which::Second) | Pick::Disagree))
}

#[test]
fn a_second_superblock_counts_where_it_says_that_it_stands(rt: HostRuntime) -> Result<(), Fail> {
    let blocks = Sample {
        num_blocks: 95,
        ..SMALL
    };
    let cases = [
        ("where the first says", Some(SMALL), SMALL, 65536, true),
        ("a block before", Some(SMALL), blocks, 65536, false),
        ("at the end of the device", None, SMALL, 65536, true),
        ("at the last whole block", None, SMALL, 69631, true),
        ("past the last whole block", None, SMALL, 69632, false),
        ("on no device", None, SMALL, 0, false),
    ];
    for (name, a, b, len, want) in cases {
        assert_eq!(rt; does_count(rt.alloc(), a, b, len)?, want, "{name}");
    }
    Ok(())
}

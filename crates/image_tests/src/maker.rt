//! Volumes that are made on a host in memory. Wanted sums and bytes come from a script that lays volumes out by the format's tables alone.

mod cuts;

use qx_fields::Order::{self, Big, Little};
use qx_geom::GeomFault;
use qx_make::{Made, MakeFault, MakeOptions, make};
use qx_outside::{Dev, MemHost};
use qx_super::checksum;
use std::alloc::Global;
use std::test::Fail;

const MOMENT: u32 = 0x0102_0304;

/// What is asked for, at one moment.
fn asked(size: u64, blocksize: u32, inodes: u32, order: Order) -> MakeOptions {
    MakeOptions {
        size,
        blocksize,
        inodes,
        order,
        moment: MOMENT,
    }
}

/// A host over a device of these bytes, where these calls fail.
fn host_over(alloc: Global, device: &[u8], failing: &[u64]) -> Result<MemHost, Fail> {
    let none = Vec::new(alloc);
    let device = device.to_vec(alloc)?;
    let failing = failing.to_vec(alloc)?;
    Ok(MemHost::new(alloc, device, none, Vec::new(alloc), failing, 10_000)?)
}

/// A device that has this byte throughout.
fn device_of(alloc: Global, len: usize, byte: u8) -> Result<Vec<u8>, Fail> {
    let mut device = Vec::new(alloc);
    device.resize(len, byte)?;
    Ok(device)
}

/// Makes a volume on any device.
fn made_on<D: Dev>(host: &mut D, options: &MakeOptions) -> Result<Made, MakeFault> {
    make(host, options)
}

/// What is answered where no call fails, and the device's bytes afterwards.
pub(crate) fn made_over(
    alloc: Global,
    device: &[u8],
    options: &MakeOptions,
) -> Result<(Made, Vec<u8>), Fail> {
    let mut host = host_over(alloc, device, &[])?;
    let made = made_on(&mut host, options)?;
    Ok((made, host.bytes().to_vec(alloc)?))
}

/// So many bytes at a place, or none where the device lacks some of them.
fn part(device: &[u8], at: usize, len: usize) -> &[u8] {
    device.get(at..at.saturating_add(len)).unwrap_or(&[])
}

/// Puts bytes at a place, as far as the device has it.
fn put(device: &mut [u8], at: usize, bytes: &[u8]) {
    for (old, new) in device.iter_mut().skip(at).zip(bytes) {
        *old = *new;
    }
}

#[test]
fn the_shortest_volumes_are_made_whole_and_a_byte_less_is_too_short(
    rt: HostRuntime,
) -> Result<(), Fail> {
    let alloc = rt.alloc();
    // The block size, inodes, order and length, the numbers that are answered, and the checksum of all bytes.
    let cases = [
        (512, 16, Little, 32768, [32, 22, 21], 0x4AC7_86A9),
        (1024, 16, Big, 40960, [24, 18, 17], 0xDD4B_D235),
        (2048, 16, Little, 61440, [22, 18, 17], 0xE7D6_1A91),
        (4096, 16, Big, 102_400, [21, 17, 16], 0xA0C3_1616),
        (512, 64, Big, 45056, [56, 22, 21], 0x5C24_640E),
        (512, 65, Little, 45056, [56, 18, 17], 0x312D_B1CD),
        (1024, 129, Big, 73728, [56, 18, 17], 0x2F8B_8512),
        (2048, 4096, Little, 1_110_016, [534, 18, 17], 0xB675_B697),
        (4096, 4096, Big, 1_150_976, [277, 17, 16], 0x9BBC_313E),
        (512, 8193, Little, 2_146_304, [4160, 22, 21], 0x64DA_C30A),
        (512, 65536, Big, 16_945_152, [33064, 20, 19], 0xA60A_2C8B),
    ];
    for (blocksize, inodes, order, size, [blocks, user, free], sum) in cases {
        let options = asked(size, blocksize, inodes, order);
        let (made, bytes) = made_over(alloc, &[], &options)?;
        let want = Made {
            blocks,
            user,
            free,
            inodes,
        };
        assert_eq!(rt; made, want, "{options:?}");
        assert_eq!(rt; bytes.len() as u64, size, "{options:?}");
        assert_eq!(rt; checksum(&bytes), sum, "{options:?}");
        let shorter = MakeOptions {
            size: size.saturating_sub(1),
            ..options
        };
        let mut host = host_over(alloc, &bytes, &[])?;
        let short = Err(MakeFault::Geom(GeomFault::TooShort));
        assert_eq!(rt; made_on(&mut host, &shorter), short, "{shorter:?}");
    }
    Ok(())
}

/// Bytes of a volume of 64 KiB and a byte in blocks of 512 bytes, in little order: what they are, their place, and two digits each between points.
const SMALL: &str = "
magic | 2000 | 22.11.19.68
serial | 2008 | 01.00.00.00.00.00.00.00
moments | 2010 | 04.03.02.01.04.03.02.01
block size and inodes | 2030 | 00.02.00.00.10.00.00.00
free inodes | 2038 | 0F.00.00.00.60.00.00.00
bitmap | 3000 | FF.07.00.00.00.00.00.00.00.00.00.00.FF
bitmap's end | 31FF | FF
second bitmap | 3A00 | FF.07.00
mode and block | 3220 | ED.41.00.00.0A.00.00.00
this row | 4400 | 01.00.00.00.01.2E.00
parent's row | 4420 | 01.00.00.00.02.2E.2E.00
second serial | F008 | 02.00.00.00.00.00.00.00
";

/// Those of a volume of 1 MiB in blocks of 4096 bytes, in big order.
const LARGE: &str = "
magic | 2000 | 68.19.11.22
free blocks | 2040 | 00.00.00.E9
inode root | 2048 | 00.00.00.00.00.00.80.00.00.00.00.01
bitmap | 3000 | FF.FF.07.00
bits past the end | 301E | 00.F0.FF
mode and block | 4020 | 41.ED.00.00.00.00.00.12
this row | 15000 | 00.00.00.01.01.2E.00
second serial | FF008 | 00.00.00.00.00.00.00.02
second root | FF048 | 00.00.00.00.00.00.80.00.00.00.00.0A
";

/// Whether a device has these bytes at a place.
fn has(device: &[u8], at: usize, bytes: &str) -> bool {
    for (before, byte) in bytes.split('.').enumerate() {
        let Ok(byte) = u8::from_str_radix(byte, 16) else {
            return false;
        };
        if device.get(at.saturating_add(before)) != Some(&byte) {
            return false;
        }
    }
    true
}

/// Whether a device has the bytes of a row.
fn holds(device: &[u8], row: &str) -> Option<bool> {
    let mut parts = row.split('|');
    let _name = parts.next()?;
    let at = usize::from_str_radix(parts.next()?.trim(), 16).ok()?;
    Some(has(device, at, parts.next()?.trim()))
}

/// The first row whose bytes a device lacks, if there is one.
fn first_wrong<'a>(device: &[u8], rows: &'a str) -> Option<&'a str> {
    for row in rows.lines() {
        if !row.is_empty() && holds(device, row) != Some(true) {
            return Some(row);
        }
    }
    None
}

#[test]
fn a_volume_has_the_bytes_of_the_format(rt: HostRuntime) -> Result<(), Fail> {
    let alloc = rt.alloc();
    let (_, bytes) = made_over(alloc, &[], &asked(65537, 512, 16, Little))?;
    assert_eq!(rt; first_wrong(&bytes, SMALL), None);
    let (_, bytes) = made_over(alloc, &[], &asked(1 << 20, 4096, 256, Big))?;
    assert_eq!(rt; first_wrong(&bytes, LARGE), None);
    Ok(())
}

#[test]
fn what_the_device_held_is_seen_in_no_block_that_is_written(rt: HostRuntime) -> Result<(), Fail> {
    let alloc = rt.alloc();
    let options = asked(65536, 512, 16, Little);
    let (_, fresh) = made_over(alloc, &[], &options)?;
    let short = asked(40960, 1024, 16, Big);
    let long = asked(102_400, 4096, 16, Big);
    let (_, short_volume) = made_over(alloc, &[], &short)?;
    let (_, long_volume) = made_over(alloc, &device_of(alloc, 102_400, 0x5A)?, &long)?;
    // The device, and the place at which its second area was.
    let cases = [
        ("shorter", device_of(alloc, 9000, 0xA5)?, None),
        ("of that length", device_of(alloc, 65536, 0xA5)?, None),
        ("longer", device_of(alloc, 70000, 0xA5)?, None),
        ("a shorter volume", short_volume, Some(36864)),
        ("a longer volume", long_volume, Some(98304)),
    ];
    for (name, device, second) in cases {
        let (_, bytes) = made_over(alloc, &device, &options)?;
        let mut want = device;
        if let Some(place) = second {
            put(&mut want, place, &[0; 4096]);
        }
        want.resize(65536, 0)?;
        put(&mut want, 0x2000, part(&fresh, 0x2000, 0x2600));
        put(&mut want, 0xF000, part(&fresh, 0xF000, 0x1000));
        assert!(rt; bytes == want, "{name}");
    }
    Ok(())
}

//! Small volumes with small changes, and what the checker says of each.

use super::{big, little, ran};
use crate::maker::made_over;
use qx_fields::Order;
use qx_make::MakeOptions;
use std::alloc::Global;
use std::test::Fail;

/// Puts the bytes there, given as two digits each between points, or the byte before a star as often as the number behind it says.
fn put(device: &mut [u8], at: usize, bytes: &str) -> Result<(), Fail> {
    if let Some((byte, times)) = bytes.split_once('*') {
        let (Ok(byte), Ok(times)) = (u8::from_str_radix(byte, 16), times.parse::<usize>()) else {
            return Err(Fail::new("a byte and how often"));
        };
        for there in device.iter_mut().skip(at).take(times) {
            *there = byte;
        }
        return Ok(());
    }
    for (there, byte) in device.iter_mut().skip(at).zip(bytes.split('.')) {
        let Ok(byte) = u8::from_str_radix(byte, 16) else {
            return Err(Fail::new("a byte of two digits"));
        };
        *there = byte;
    }
    Ok(())
}

/// Makes one change: another length behind an equals sign, or bytes behind their place and a colon.
fn change(device: &mut Vec<u8>, said: &str) -> Result<(), Fail> {
    if let Some(length) = said.strip_prefix('=') {
        let Ok(length) = length.parse::<usize>() else {
            return Err(Fail::new("a length"));
        };
        device.truncate(length);
        device.resize(length, 0)?;
        return Ok(());
    }
    let Some((at, bytes)) = said.split_once(':') else {
        return Err(Fail::new("a place and bytes"));
    };
    let Ok(at) = usize::from_str_radix(at, 16) else {
        return Err(Fail::new("a place"));
    };
    put(device, at, bytes)
}

/// Makes all changes of a text.
fn change_all(device: &mut Vec<u8>, said: &str) -> Result<(), Fail> {
    for one in said.split_ascii_whitespace() {
        change(device, one)?;
    }
    Ok(())
}

/// A new volume of 64 KiB with blocks of 512 bytes and so many inodes.
fn made(alloc: Global, order: Order, inodes: u32) -> Result<Vec<u8>, Fail> {
    let options = MakeOptions {
        size: 65536,
        blocksize: 512,
        inodes,
        order,
        moment: 1000,
    };
    let (_, bytes) = made_over(alloc, &[], &options)?;
    Ok(bytes)
}

/// The volume of this name.
fn volume(alloc: Global, order: Order, name: &str) -> Result<Vec<u8>, Fail> {
    match name {
        "empty" => made(alloc, order, 16),
        "part" => made(alloc, order, 18),
        "sixteen" => made(alloc, order, 64),
        "pointers" => made(alloc, order, 80),
        "tree" => {
            let mut device = made(alloc, order, 16)?;
            let rows = match order {
                Order::Little => little::TREE,
                Order::Big => big::TREE,
            };
            change_all(&mut device, rows)?;
            Ok(device)
        }
        _ => Err(Fail::new("a volume's name")),
    }
}

/// The status that a line comes with.
fn status_of(line: &str) -> u8 {
    if line.starts_with("clean") || line.starts_with("foreign") {
        0
    } else {
        2
    }
}

/// Whether the checker gives the line of a row: its name, its volume, the changes, the line, and why.
fn holds(alloc: Global, order: Order, row: &str) -> Result<bool, Fail> {
    let mut parts = row.split('|');
    let _name = parts.next();
    let (Some(name), Some(said), Some(line)) = (parts.next(), parts.next(), parts.next()) else {
        return Err(Fail::new("five parts"));
    };
    let line = line.trim();
    let mut device = volume(alloc, order, name.trim())?;
    change_all(&mut device, said)?;
    let left = ran(alloc, &["chkqnx6fs", "x"], device, &[])?;
    let output = left.output.strip_suffix(b"\n");
    Ok(left.status == status_of(line) && output == Some(line.as_bytes()))
}

/// The first row that the checker takes otherwise, if there is one.
fn first_wrong<'a>(alloc: Global, order: Order, rows: &'a str) -> Result<Option<&'a str>, Fail> {
    for row in rows.lines() {
        if !row.is_empty() && !holds(alloc, order, row)? {
            return Ok(Some(row));
        }
    }
    Ok(None)
}

/// How often the checker reads a volume with changes.
fn reads_of(alloc: Global, name: &str, said: &str) -> Result<u64, Fail> {
    let mut device = volume(alloc, Order::Little, name)?;
    change_all(&mut device, said)?;
    Ok(ran(alloc, &["chkqnx6fs", "x"], device, &[])?.reads)
}

#[test]
fn a_volume_is_read_no_more_often_than_it_has_bytes(rt: HostRuntime) -> Result<(), Fail> {
    let alloc = rt.alloc();
    // Both areas, the Inode tree's leaves in one call, the root directory and the bitmap.
    assert_eq!(rt; reads_of(alloc, "empty", "")?, 5);
    // Two directories whose records name one leaf of the Longfile, which is read for each; and one with such records alone.
    let twice = "4700:04.00.00.00.ff 470c:83.40.55.55";
    let often =
        "4860:04.00.00.00.ff 486c:83.40.55.55 4880:04.00.00.00.ff 488c:83.40.55.55 48a0:04.00.00.00.ff 48ac:83.40.55.55";
    let whole = reads_of(alloc, "tree", "")?;
    assert_eq!(rt; reads_of(alloc, "tree", twice)?, whole.saturating_add(1));
    for changes in ["", twice, often] {
        assert!(rt; reads_of(alloc, "tree", changes)? <= 65536 + 2, "{changes}");
    }
    Ok(())
}

#[test]
fn changed_areas_have_their_lines_in_little_order(rt: HostRuntime) -> Result<(), Fail> {
    let wrong = first_wrong(rt.alloc(), Order::Little, little::AREAS)?;
    assert_eq!(rt; wrong, None);
    Ok(())
}

#[test]
fn changed_sizes_and_levels_have_their_lines_in_little_order(rt: HostRuntime) -> Result<(), Fail> {
    let wrong = first_wrong(rt.alloc(), Order::Little, little::SIZES)?;
    assert_eq!(rt; wrong, None);
    Ok(())
}

#[test]
fn changed_pointers_and_named_inodes_have_their_lines_in_little_order(
    rt: HostRuntime,
) -> Result<(), Fail> {
    let wrong = first_wrong(rt.alloc(), Order::Little, little::POINTERS)?;
    assert_eq!(rt; wrong, None);
    Ok(())
}

#[test]
fn changed_kinds_and_links_have_their_lines_in_little_order(rt: HostRuntime) -> Result<(), Fail> {
    let wrong = first_wrong(rt.alloc(), Order::Little, little::KINDS)?;
    assert_eq!(rt; wrong, None);
    Ok(())
}

#[test]
fn changed_directory_records_have_their_lines_in_little_order(rt: HostRuntime) -> Result<(), Fail> {
    let wrong = first_wrong(rt.alloc(), Order::Little, little::RECORDS)?;
    assert_eq!(rt; wrong, None);
    Ok(())
}

#[test]
fn changed_tails_counts_and_the_order_of_tests_have_their_lines_in_little_order(
    rt: HostRuntime,
) -> Result<(), Fail> {
    let wrong = first_wrong(rt.alloc(), Order::Little, little::ENDS)?;
    assert_eq!(rt; wrong, None);
    Ok(())
}

#[test]
fn changed_numbers_halves_and_the_bitmap_have_their_lines_in_little_order(
    rt: HostRuntime,
) -> Result<(), Fail> {
    let wrong = first_wrong(rt.alloc(), Order::Little, little::LAYOUT)?;
    assert_eq!(rt; wrong, None);
    Ok(())
}

#[test]
fn changed_nodes_and_inodes_have_their_lines_in_little_order(rt: HostRuntime) -> Result<(), Fail> {
    let wrong = first_wrong(rt.alloc(), Order::Little, little::NODES)?;
    assert_eq!(rt; wrong, None);
    Ok(())
}

#[test]
fn changed_areas_have_their_lines_in_big_order(rt: HostRuntime) -> Result<(), Fail> {
    let wrong = first_wrong(rt.alloc(), Order::Big, big::AREAS)?;
    assert_eq!(rt; wrong, None);
    Ok(())
}

#[test]
fn changed_sizes_and_levels_have_their_lines_in_big_order(rt: HostRuntime) -> Result<(), Fail> {
    let wrong = first_wrong(rt.alloc(), Order::Big, big::SIZES)?;
    assert_eq!(rt; wrong, None);
    Ok(())
}

#[test]
fn changed_pointers_and_named_inodes_have_their_lines_in_big_order(
    rt: HostRuntime,
) -> Result<(), Fail> {
    let wrong = first_wrong(rt.alloc(), Order::Big, big::POINTERS)?;
    assert_eq!(rt; wrong, None);
    Ok(())
}

#[test]
fn changed_kinds_and_links_have_their_lines_in_big_order(rt: HostRuntime) -> Result<(), Fail> {
    let wrong = first_wrong(rt.alloc(), Order::Big, big::KINDS)?;
    assert_eq!(rt; wrong, None);
    Ok(())
}

#[test]
fn changed_directory_records_have_their_lines_in_big_order(rt: HostRuntime) -> Result<(), Fail> {
    let wrong = first_wrong(rt.alloc(), Order::Big, big::RECORDS)?;
    assert_eq!(rt; wrong, None);
    Ok(())
}

#[test]
fn changed_tails_counts_and_the_order_of_tests_have_their_lines_in_big_order(
    rt: HostRuntime,
) -> Result<(), Fail> {
    let wrong = first_wrong(rt.alloc(), Order::Big, big::ENDS)?;
    assert_eq!(rt; wrong, None);
    Ok(())
}

#[test]
fn changed_numbers_halves_and_the_bitmap_have_their_lines_in_big_order(
    rt: HostRuntime,
) -> Result<(), Fail> {
    let wrong = first_wrong(rt.alloc(), Order::Big, big::LAYOUT)?;
    assert_eq!(rt; wrong, None);
    Ok(())
}

#[test]
fn changed_nodes_and_inodes_have_their_lines_in_big_order(rt: HostRuntime) -> Result<(), Fail> {
    let wrong = first_wrong(rt.alloc(), Order::Big, big::NODES)?;
    assert_eq!(rt; wrong, None);
    Ok(())
}

//! Whole runs of the checker over a host in memory.

use super::small::small_image;
use super::{changed, ran, ran_in_room};
use crate::maker::made_over;
use qx_fields::Order;
use qx_make::MakeOptions;
use qx_outside::Recorded;
use std::alloc::Global;
use std::test::Fail;

const CHECK: [&str; 2] = ["chkqnx6fs", "x"];

const CLEAN: &str = "clean area 2 serial 2 free blocks 85 free inodes 15\n";

/// The bytes with others at some places.
fn with_bytes(mut device: Vec<u8>, changes: &[(usize, &[u8])]) -> Vec<u8> {
    for (at, bytes) in changes {
        for (there, byte) in device.iter_mut().skip(*at).zip(bytes.iter()) {
            *there = *byte;
        }
    }
    device
}

#[test]
fn a_volume_that_was_made_is_clean(rt: HostRuntime) -> Result<(), Fail> {
    let alloc = rt.alloc();
    let of_16m = "clean area 2 serial 2 free blocks 30655 free inodes 4095\n";
    let cases = [
        ("65536", CLEAN),
        ("65537", CLEAN),
        (
            "32K",
            "clean area 2 serial 2 free blocks 21 free inodes 15\n",
        ),
        ("16M", of_16m),
    ];
    for (size, line) in cases {
        let made = ran(alloc, &["mkqnx6fs", "x", size], Vec::new(alloc), &[])?;
        assert_eq!(rt; made.status, 0, "{size}");
        let left = ran(alloc, &CHECK, made.bytes, &[])?;
        assert!(rt; left.says(0, line), "{size}");
        assert!(rt; left.just_spoke, "{size}");
    }
    Ok(())
}

#[test]
fn each_change_has_its_line(rt: HostRuntime) -> Result<(), Fail> {
    let alloc = rt.alloc();
    let area_1 = "clean area 1 serial 1 free blocks 85 free inodes 15\n";
    let no_inode = "damaged 1 inode 1 block 4294967295\n";
    // A directory in the upper half's second inode, and two rows that name it.
    let twice: [(usize, &[u8]); 3] = [
        (0x3CA0, &[0xED, 0x41]),
        (0x4440, &[2, 0, 0, 0, 1, b'd']),
        (0x4460, &[2, 0, 0, 0, 1, b'e']),
    ];
    let cases: [(&str, &[(usize, &[u8])], &str, u8); 8] = [
        ("nothing", &[], CLEAN, 0),
        ("the first superblock", &[(0x2010, &[0])], CLEAN, 0),
        ("the second superblock", &[(0xF010, &[0])], area_1, 0),
        ("both", &[(0x2010, &[0]), (0xF010, &[0])], "no volume\n", 2),
        (
            "a bit of the bitmap",
            &[(0x3A01, &[0xE0])],
            "foreign 3 at 8\n",
            0,
        ),
        (
            "a block of the lower half",
            &[(0x3C24, &[2])],
            "foreign 2 at 0\n",
            0,
        ),
        (
            "a record's length",
            &[(0x4404, &[28])],
            "damaged 7 inode 1 block 10\n",
            2,
        ),
        ("levels", &[(0x3C64, &[6])], no_inode, 2),
    ];
    for (name, changes, line, status) in cases {
        let device = with_bytes(small_image(alloc)?, changes);
        let left = ran(alloc, &CHECK, device, &[])?;
        assert!(rt; left.says(status, line), "{name}");
        assert!(rt; left.just_spoke, "{name}");
    }
    let left = ran(alloc, &CHECK, with_bytes(small_image(alloc)?, &twice), &[])?;
    assert!(rt; left.says(2, "damaged 13 inode 1 block 10\n"));
    Ok(())
}

#[test]
fn a_pointer_block_of_the_other_half_counts(rt: HostRuntime) -> Result<(), Fail> {
    let alloc = rt.alloc();
    let made = ran(alloc, &["mkqnx6fs", "x", "16M"], Vec::new(alloc), &[])?;
    // Block 1032 is the first inode pointer block of the first half, and the second half is active.
    let device = changed(made.bytes, &[0x3000 + 1032 * 512]);
    let left = ran(alloc, &CHECK, device, &[])?;
    assert!(rt; left.says(0, "foreign 2 at 0\n"));
    Ok(())
}

#[test]
fn big_order_and_blocks_of_4096_bytes_are_read(rt: HostRuntime) -> Result<(), Fail> {
    let alloc = rt.alloc();
    let options = MakeOptions {
        size: 1 << 20,
        blocksize: 4096,
        inodes: 256,
        order: Order::Big,
        moment: 1000,
    };
    let (made, bytes) = made_over(alloc, &[], &options)?;
    assert_eq!(rt;
        (made.blocks, made.user, made.free, made.inodes),
        (252, 234, 233, 256)
    );
    let magic = [0x68, 0x19, 0x11, 0x22];
    assert_eq!(rt; bytes.get(0x2000..0x2004), Some(magic.as_slice()));
    assert_eq!(rt; bytes.get(1_044_480..1_044_484), Some(magic.as_slice()));
    let cases: [(&[&str], &str); 2] = [
        (
            &CHECK,
            "clean area 2 serial 2 free blocks 233 free inodes 255\n",
        ),
        (
            &["chkqnx6fs", "-s", "x"],
            "area 2 serial 2 blocksize 4096 blocks 252 inodes 256 order big\n",
        ),
    ];
    for (words, line) in cases {
        let left = ran(alloc, words, bytes.as_slice().to_vec(alloc)?, &[])?;
        assert!(rt; left.says(0, line), "{line}");
    }
    Ok(())
}

#[test]
fn each_device_call_that_fails_is_a_device_fault(rt: HostRuntime) -> Result<(), Fail> {
    let alloc = rt.alloc();
    let mut last = 0;
    for number in 0..100u64 {
        let left = ran(alloc, &CHECK, small_image(alloc)?, &[number])?;
        assert!(rt; left.bytes == small_image(alloc)?, "{number}");
        if left.status == 4 {
            // The line was the last call, and half of it was given.
            assert!(rt; left.says(4, "clean area 2 serial 2 free"));
            break;
        }
        assert!(rt; left.says(3, "device fault\n"), "{number}");
        last = number;
    }
    // The attach, the length, both areas, the Inode tree's leaves in one call, the root directory and the bitmap.
    assert_eq!(rt; last, 6);
    let (ended, host) = ran_in_room(alloc, &CHECK, small_image(alloc)?, &[], 0)?;
    assert_eq!(rt; (ended, host.events()), (4, 0));
    Ok(())
}

#[test]
fn a_word_that_begins_with_a_line_is_an_image(rt: HostRuntime) -> Result<(), Fail> {
    let alloc = rt.alloc();
    let left = ran(alloc, &["chkqnx6fs", "-s"], small_image(alloc)?, &[])?;
    assert!(rt; left.says(0, CLEAN));
    Ok(())
}

/// The bytes with noise from one place to another, by a generator of 64 bits from a seed on.
fn with_noise(mut device: Vec<u8>, seed: u64, from: usize, to: usize) -> Vec<u8> {
    let mut state = seed;
    for (at, byte) in device.iter_mut().enumerate() {
        state = state
            .wrapping_mul(6_364_136_223_846_793_005)
            .wrapping_add(1_442_695_040_888_963_407);
        if from <= at && at < to {
            *byte = (state >> 56 & 0xFF) as u8;
        }
    }
    device
}

/// Behind superblocks that are valid: all blocks, the root directory's, or the active Inode tree's but for inode 1.
/// The lines are those of the second reading in `bench/verify.py`.
#[test]
fn noise_behind_a_superblock_gets_a_verdict(rt: HostRuntime) -> Result<(), Fail> {
    let alloc = rt.alloc();
    let no_directory = ("damaged 5 inode 1 block 4294967295\n", 2);
    let too_large = ("damaged 1 inode 1 block 4294967295\n", 2);
    let bad_record = ("damaged 7 inode 1 block 10\n", 2);
    let noisy_inode = ("foreign 6 at 2\n", 0);
    let cases = [
        (1, 0x3000, 0xF000, no_directory),
        (2, 0x3000, 0xF000, no_directory),
        (5, 0x3000, 0xF000, too_large),
        (8, 0x3000, 0xF000, no_directory),
        (3, 0x4400, 0x4600, bad_record),
        (13, 0x4400, 0x4600, bad_record),
        (21, 0x3C80, 0x4000, noisy_inode),
        (34, 0x3C80, 0x4000, noisy_inode),
    ];
    for (seed, from, to, (line, status)) in cases {
        let device = with_noise(small_image(alloc)?, seed, from, to);
        let left = ran(alloc, &CHECK, device, &[])?;
        assert!(rt; left.says(status, line), "{seed}");
    }
    Ok(())
}

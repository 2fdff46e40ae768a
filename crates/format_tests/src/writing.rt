//! Superblocks that are written.

use crate::example::{BIG_EXAMPLE, EXAMPLE};
use qx_fields::Order;
use qx_geom::{ABSENT, Root};
use qx_super::{Super, write_super};

/// A node whose first pointers are these, and whose others are absent.
fn node(size: u64, first: &[u32], levels: u8) -> Root {
    let mut pointers = [ABSENT; 16];
    for (pointer, block) in pointers.iter_mut().zip(first) {
        *pointer = *block;
    }
    Root {
        size,
        pointers,
        levels,
    }
}

/// The bytes of a superblock, written over others.
fn written(s: &Super) -> [u8; 512] {
    let mut bytes = [0xFF; 512];
    write_super(s, &mut bytes);
    bytes
}

#[test]
fn a_superblock_has_the_bytes_that_others_give(rt: HostRuntime) {
    let small = Super {
        order: Order::Little,
        serial: 1,
        ctime: 1000,
        atime: 1000,
        version1: 1,
        blocksize: 512,
        num_inodes: 16,
        free_inodes: 15,
        num_blocks: 96,
        free_blocks: 85,
        inode: node(2048, &[1, 2, 3, 4], 0),
        bitmap: node(12, &[0], 0),
        longfile: node(0, &[], 0),
        fourth: node(0, &[], 0),
    };
    let big = Super {
        order: Order::Big,
        serial: 0x0102_0304_0506_0708,
        ctime: 1001,
        atime: 2002,
        version1: 1,
        blocksize: 1024,
        num_inodes: 48,
        free_inodes: 37,
        num_blocks: 3000,
        free_blocks: 2900,
        inode: node(6144, &[21, 22, 23, 24, 25, 26], 0),
        bitmap: node(375, &[20], 0),
        longfile: node(0x4800, &[0x0102, 0x0304], 1),
        fourth: node(0, &[], 0),
    };
    for (name, s, want) in [("small", small, EXAMPLE), ("big", big, BIG_EXAMPLE)] {
        assert_eq!(rt; written(&s), want, "{name}");
    }
}

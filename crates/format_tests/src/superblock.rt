//! Superblocks that are read, with each refusal.

use crate::example::EXAMPLE;
use crate::samples::{SMALL, SMALL_LEN, Sample};
use qx_fields::Order;
use qx_geom::{ABSENT, Root};
use qx_super::{RootName, SuperFault, SuperView};

/// Why a superblock with one changed byte is none.
fn fault_at(at: usize, order: Order) -> Option<SuperFault> {
    let mut bytes = Sample { order, ..SMALL }.bytes();
    if let Some(byte) = bytes.get_mut(at) {
        *byte ^= 0x10;
    }
    SuperView::read(&bytes, SMALL_LEN).err()
}

#[test]
fn a_changed_byte_is_found(rt: HostRuntime) {
    let cases = [
        ("magic", 0, SuperFault::Magic),
        ("magic", 3, SuperFault::Magic),
        ("checksum", 4, SuperFault::Checksum),
        ("checksum", 7, SuperFault::Checksum),
        ("serial", 8, SuperFault::Checksum),
        ("ctime", 16, SuperFault::Checksum),
        ("version1", 28, SuperFault::Checksum),
        ("blocksize", 50, SuperFault::Checksum),
        ("num_inodes", 52, SuperFault::Checksum),
        ("num_blocks", 63, SuperFault::Checksum),
        ("root of Inode", 72, SuperFault::Checksum),
        ("root of Bitmap", 152, SuperFault::Checksum),
        ("root of Longfile", 232, SuperFault::Checksum),
        ("fourth root", 391, SuperFault::Checksum),
        ("last byte", 511, SuperFault::Checksum),
    ];
    for order in [Order::Little, Order::Big] {
        for (name, at, want) in cases {
            assert_eq!(rt; fault_at(at, order), Some(want), "{name} in {order:?}");
        }
    }
}

/// Why a superblock is none on a device of that length.
fn fault_on(sample: Sample, len: u64) -> Option<SuperFault> {
    SuperView::read(&sample.bytes(), len).err()
}

#[test]
fn the_blocks_must_fit_the_device(rt: HostRuntime) {
    let bad = Some(SuperFault::Geometry);
    let cases = [
        ("as made", 512, 96, 65536, None),
        ("just long enough", 512, 96, 61952, None),
        ("a byte short", 512, 96, 61951, bad),
        ("as many as fit", 512, 103, 65536, None),
        ("one too many", 512, 104, 65536, bad),
        ("no block", 512, 0, 65536, bad),
        ("larger blocks", 4096, 13, 66048, None),
        ("blocks of 513 bytes", 513, 96, 65536, bad),
        ("blocks of 256 bytes", 256, 96, 65536, bad),
        ("blocks of 8192 bytes", 8192, 1, 65536, bad),
        ("the most of all", u32::MAX, u32::MAX, u64::MAX, bad),
    ];
    for order in [Order::Little, Order::Big] {
        for (name, blocksize, num_blocks, len, want) in cases {
            let sample = Sample {
                order,
                blocksize,
                num_blocks,
                ..SMALL
            };
            assert_eq!(rt; fault_on(sample, len), want, "{name} in {order:?}");
        }
    }
}

/// What a superblock says of its volume: the order, the serial, the bytes of a block, the inodes, the blocks, and where the second area stands.
fn volume_in(bytes: &[u8; 512], len: u64) -> Result<(Order, u64, u32, u32, u32, u64), SuperFault> {
    let view = SuperView::read(bytes, len)?;
    Ok((
        view.order(),
        view.serial(),
        view.blocksize(),
        view.num_inodes(),
        view.num_blocks(),
        view.second_place(),
    ))
}

#[test]
fn a_superblock_says_what_was_put(rt: HostRuntime) {
    for order in [Order::Little, Order::Big] {
        let bytes = Sample { order, ..SMALL }.bytes();
        let want = (order, 1, 512, 16, 96, 61440);
        assert_eq!(rt; volume_in(&bytes, SMALL_LEN), Ok(want));
    }
}

/// What a superblock says besides: the moment at which the volume was made, the first version, the free inodes and the free blocks.
fn counts_in(bytes: &[u8; 512], len: u64) -> Result<(u32, u16, u32, u32), SuperFault> {
    let view = SuperView::read(bytes, len)?;
    Ok((
        view.ctime(),
        view.version1(),
        view.free_inodes(),
        view.free_blocks(),
    ))
}

/// One of the root nodes of a superblock.
fn root_in(bytes: &[u8; 512], len: u64, name: RootName) -> Result<Root, SuperFault> {
    Ok(SuperView::read(bytes, len)?.root(name))
}

/// A node whose first pointers are these, and whose others are absent.
fn node(size: u64, first: &[u32]) -> Root {
    let mut pointers = [ABSENT; 16];
    for (pointer, block) in pointers.iter_mut().zip(first) {
        *pointer = *block;
    }
    Root {
        size,
        pointers,
        levels: 0,
    }
}

#[test]
fn the_example_says_what_its_maker_put(rt: HostRuntime) {
    let want = (Order::Little, 1, 512, 16, 96, 61440);
    assert_eq!(rt; volume_in(&EXAMPLE, 65536), Ok(want));
    assert_eq!(rt; counts_in(&EXAMPLE, 65536), Ok((1000, 1, 15, 85)));
    let roots = [
        (RootName::Inode, node(2048, &[1, 2, 3, 4])),
        (RootName::Bitmap, node(12, &[0])),
        (RootName::Longfile, node(0, &[])),
        (RootName::Fourth, node(0, &[])),
    ];
    for (name, want) in roots {
        assert_eq!(rt; root_in(&EXAMPLE, 65536, name), Ok(want), "{name:?}");
    }
}

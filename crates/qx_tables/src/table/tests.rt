//! A table that is read from a device in memory.
ghost use Rattle.std.specs.Prelude.{◌≡◌, ◌+◌, IfOk, Some, length};
ghost use Rattle.qx_outside.specs.Memory.{outside_of};
ghost use Rattle.qx_tables.specs.Tables.{places_of};

use super::InodeTable;
use qx_fields::Order::{self, Big, Little};
use qx_geom::{ABSENT, Root};
use qx_outside::MemHost;
use qx_pointers::{LeafPlace, Shape};
use qx_records::{Inode, write_inode};
use std::alloc::Global;
use std::test::Fail;

// A host over so many bytes 0 and this block behind them.
fn host_over(alloc: Global, before: usize, block: &[u8]) -> Result<MemHost, Fail>
    ensures { IfOk result (λ host. (outside_of host).extent ≡ Some (before + length block.now)) }
{
    let mut device = vec![in alloc; 0; before]?;
    device.extend_from_slice(block)?;
    let none = Vec::new(alloc);
    Ok(MemHost::new(alloc, device, none, Vec::new(alloc), Vec::new(alloc), 100)?)
}

// The table of an Inode tree of 960 bytes whose first leaf isn't present, and whose second leaf is this one.
fn table_of(alloc: Global, order: Order, block: &[u8; 512]) -> Result<InodeTable, Fail>
    ensures { IfOk result (λ table. places_of table ≡ 7) }
{
    let mut host = host_over(alloc, 0x3000 + 512, block)?;
    let shape = Shape {
        order,
        blocksize: 512,
        count: 2,
    };
    let root = Root {
        size: 960,
        pointers: [ABSENT; 16],
        levels: 0,
    };
    match InodeTable::read(
        alloc,
        &mut host,
        shape,
        &root,
        &[LeafPlace { index: 1, block: 1 }],
    ) {
        Ok(table) => Ok(table),
        Err(_) => Err(Fail::new("the table isn't read")),
    }
}

// An inode with a number in each of its fields.
fn numbered() -> Inode {
    Inode {
        root: Root {
            size: 0x0102_0304_0506,
            pointers: [ABSENT; 16],
            levels: 3,
        },
        uid: 7,
        gid: 8,
        ftime: 9,
        mtime: 10,
        atime: 11,
        ctime: 12,
        mode: 0x81A4,
        ext_mode: 13,
        status: 14,
    }
}

#[test]
fn inodes_are_read_in_both_orders_and_holes_are_zero(rt: HostRuntime) -> Result<(), Fail> {
    for order in [Little, Big] {
        let mut block = [0; 512];
        write_inode(&numbered(), order, &mut block[128..256]);
        let table = table_of(rt.alloc(), order, &block)?;
        assert_eq!(rt; table.places(), 7);
        assert_eq!(rt; table.inode(6), numbered(), "{order:?}");
        assert!(rt; table.is_zero(1));
        assert!(rt; table.is_zero(5));
        assert!(rt; !table.is_zero(6));
        assert!(rt; table.is_plain(6));
        assert!(rt; !table.has_tail());
    }
    Ok(())
}

#[test]
fn bytes_past_the_fields_and_past_the_size_are_seen(rt: HostRuntime) -> Result<(), Fail> {
    let cases = [
        ("the status of inode 6", 229, true, false),
        ("the first byte past its fields", 230, false, false),
        ("its last byte", 255, false, false),
        ("the last byte of the size", 447, true, false),
        ("the first byte past it", 448, true, true),
        ("the last byte of the leaf", 511, true, true),
    ];
    for (name, place, is_plain, has_tail) in cases {
        let mut block = [0; 512];
        block[place] = 1;
        let table = table_of(rt.alloc(), Little, &block)?;
        assert_eq!(rt; table.is_plain(6), is_plain, "{name}");
        assert_eq!(rt; table.has_tail(), has_tail, "{name}");
    }
    Ok(())
}

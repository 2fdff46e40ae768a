//! Tables that are filled, emptied, copied and written.

use crate::ITable;
use qx_fields::Order;
use qx_geom::{ABSENT, Root};
use qx_records::Inode;
use std::alloc::Global;
use std::test::Fail;

// The record of `example`, packed by the format's table by a script that has no part of this project.
const LITTLE: [u8; 128] = *b"\
    \x88\x13\0\0\0\0\0\0\xE8\x03\0\0\x04\x03\x02\x01\
    \x11\x11\x11\x11\x22\x22\x22\x22\x33\x33\x33\x33\x45\x44\x44\x44\
    \xA4\x81\0\0\x1A\0\0\0\x02\x01\0\0\xFF\xFF\xFF\xFF\
    \xFF\xFF\xFF\xFF\xFF\xFF\xFF\xFF\xFF\xFF\xFF\xFF\xFF\xFF\xFF\xFF\
    \xFF\xFF\xFF\xFF\xFF\xFF\xFF\xFF\xFF\xFF\xFF\xFF\xFF\xFF\xFF\xFF\
    \xFF\xFF\xFF\xFF\xFF\xFF\xFF\xFF\xFF\xFF\xFF\xFF\xFF\xFF\xFF\xFF\
    \xFF\xFF\xFF\xFF\x01\x03\0\0\0\0\0\0\0\0\0\0\
    \0\0\0\0\0\0\0\0\0\0\0\0\0\0\0\0";

const BIG: [u8; 128] = *b"\
    \0\0\0\0\0\0\x13\x88\0\0\x03\xE8\x01\x02\x03\x04\
    \x11\x11\x11\x11\x22\x22\x22\x22\x33\x33\x33\x33\x44\x44\x44\x45\
    \x81\xA4\0\0\0\0\0\x1A\0\0\x01\x02\xFF\xFF\xFF\xFF\
    \xFF\xFF\xFF\xFF\xFF\xFF\xFF\xFF\xFF\xFF\xFF\xFF\xFF\xFF\xFF\xFF\
    \xFF\xFF\xFF\xFF\xFF\xFF\xFF\xFF\xFF\xFF\xFF\xFF\xFF\xFF\xFF\xFF\
    \xFF\xFF\xFF\xFF\xFF\xFF\xFF\xFF\xFF\xFF\xFF\xFF\xFF\xFF\xFF\xFF\
    \xFF\xFF\xFF\xFF\x01\x03\0\0\0\0\0\0\0\0\0\0\
    \0\0\0\0\0\0\0\0\0\0\0\0\0\0\0\0";

// A file of 5,000 bytes.
fn example() -> Inode {
    let mut pointers = [ABSENT; 16];
    pointers[0] = 0x1A;
    pointers[1] = 0x0102;
    Inode {
        root: Root {
            size: 5000,
            pointers,
            levels: 1,
        },
        uid: 1000,
        gid: 0x0102_0304,
        ftime: 0x1111_1111,
        mtime: 0x2222_2222,
        atime: 0x3333_3333,
        ctime: 0x4444_4445,
        mode: 0o100644,
        ext_mode: 0,
        status: 3,
    }
}

// Gives a number that the table has an inode, with this mode.
fn put(table: &mut ITable, n: u32, mode: u16) {
    if 1 <= n && n <= table.num_inodes() {
        let mut inode = example();
        inode.mode = mode;
        table.set(n, &inode);
    }
}

// Clears a number that the table has.
fn clear(table: &mut ITable, n: u32) {
    if 1 <= n && n <= table.num_inodes() {
        table.clear(n);
    }
}

// Loads a record into a number that the table has.
fn load(table: &mut ITable, n: u32, record: &[u8]) {
    if 1 <= n && n <= table.num_inodes() && record.len() == 128 {
        table.load(n, record);
    }
}

// The inode of a number that the table has, if it is live.
fn at(table: &ITable, n: u32) -> Option<Inode> {
    if 1 <= n && n <= table.num_inodes() {
        table.get(n)
    } else {
        None
    }
}

// Fills a leaf that the table has.
fn fill(table: &ITable, leaf: u32, into: &mut [u8]) {
    let count = into.len() / 128;
    if into.len() % 128 == 0
        && u128::from(leaf) * (count as u128) < u128::from(table.num_inodes())
    {
        table.leaf_bytes(leaf, into);
    }
}

// What a table says of its numbers: the first free one, and how many are live.
fn said(table: &ITable) -> (Option<u32>, u32) {
    (table.first_free(), table.live())
}

#[test]
fn the_least_free_number_is_taken_first(rt: HostRuntime) -> Result<(), Fail> {
    let mut table = ITable::new(rt.alloc(), 16, Order::Little)?;
    assert_eq!(rt; said(&table), (Some(1), 0));
    for n in 1..16 {
        put(&mut table, n, 0o100644);
    }
    assert_eq!(rt; said(&table), (Some(16), 15));
    put(&mut table, 16, 0o100644);
    assert_eq!(rt; said(&table), (None, 16));
    clear(&mut table, 3);
    assert_eq!(rt; said(&table), (Some(3), 15));

    // A lower one that comes free is the first again; a higher one isn't.
    clear(&mut table, 9);
    assert_eq!(rt; said(&table), (Some(3), 14));
    clear(&mut table, 1);
    assert_eq!(rt; said(&table), (Some(1), 13));
    put(&mut table, 3, 0o100644);
    assert_eq!(rt; said(&table), (Some(1), 14));
    put(&mut table, 1, 0o040755);
    assert_eq!(rt; said(&table), (Some(9), 15));

    // Twice is as once.
    put(&mut table, 1, 0o100644);
    clear(&mut table, 9);
    assert_eq!(rt; said(&table), (Some(9), 15));

    // Without a mode it isn't live.
    put(&mut table, 2, 0);
    assert_eq!(rt; said(&table), (Some(2), 14));
    assert_eq!(rt; at(&table, 2), None);
    Ok(())
}

#[test]
fn numbers_are_found_in_a_table_of_any_size(rt: HostRuntime) -> Result<(), Fail> {
    for count in [0, 1, 63, 64, 65, 128, 130] {
        let mut table = ITable::new(rt.alloc(), count, Order::Little)?;
        assert_eq!(rt; table.num_inodes(), count);
        // From the last to the first, as a walk may meet them.
        for k in 0..count {
            put(&mut table, count - k, 0o100644);
        }
        assert_eq!(rt; said(&table), (None, count), "{count}");
        clear(&mut table, count);
        let last = if count == 0 { None } else { Some(count) };
        assert_eq!(rt; said(&table), (last, count.saturating_sub(1)), "{count}");
    }
    Ok(())
}

#[test]
fn an_inode_is_got_as_it_was_set(rt: HostRuntime) -> Result<(), Fail> {
    for (order, record) in [(Order::Little, LITTLE), (Order::Big, BIG)] {
        let mut table = ITable::new(rt.alloc(), 4, order)?;
        put(&mut table, 2, 0o100644);
        load(&mut table, 4, &record);
        for (n, want) in [
            (1, None),
            (2, Some(example())),
            (3, None),
            (4, Some(example())),
        ] {
            assert_eq!(rt; at(&table, n), want, "{order:?}, {n}");
        }
        clear(&mut table, 2);
        assert_eq!(rt; at(&table, 2), None, "{order:?}");
        assert_eq!(rt; at(&table, 4), Some(example()), "{order:?}");
    }
    Ok(())
}

// The record of `example` in an order of bytes.
fn record_in(order: Order) -> [u8; 128] {
    match order {
        Order::Little => LITTLE,
        Order::Big => BIG,
    }
}

// Whether a leaf has the record of `example` at a place, and bytes 0 everywhere else.
fn has_one_record(leaf: &[u8], order: Order, at: usize) -> bool {
    let record = record_in(order);
    for (k, byte) in leaf.iter().enumerate() {
        let want = if at <= k && k - at < 128 {
            record[k - at]
        } else {
            0
        };
        if *byte != want {
            return false;
        }
    }
    true
}

#[test]
fn leaves_have_the_records_of_their_numbers(rt: HostRuntime) -> Result<(), Fail> {
    let sizes = [(512, 4), (1024, 8), (2048, 16), (4096, 32)];
    for order in [Order::Little, Order::Big] {
        for (size, count) in sizes {
            // One number more than two leaves have: the second record, the last of the second leaf, and the one behind it.
            let mut table = ITable::new(rt.alloc(), 2 * count + 1, order)?;
            for n in [2, 2 * count, 2 * count + 1] {
                put(&mut table, n, 0o100644);
            }
            for (leaf, at) in [(0, 128), (1, size - 128), (2, 0)] {
                let mut bytes = vec![in rt.alloc(); 0xFF; size]?;
                fill(&table, leaf, &mut bytes);
                assert!(rt;
                    has_one_record(&bytes, order, at),
                    "{order:?}, {size}, {leaf}"
                );
            }
        }
    }
    Ok(())
}

// The leaf of a table into which two records were loaded that have more than their fields: that of `example`, and one without a mode.
fn cleaned(alloc: Global, order: Order) -> Result<[u8; 512], Fail> {
    let mut table = ITable::new(alloc, 2, order)?;
    let mut record = record_in(order);
    record[102] = 0xEE;
    record[127] = 0xEE;
    load(&mut table, 1, &record);
    record[32] = 0;
    record[33] = 0;
    load(&mut table, 2, &record);
    let mut bytes = [0xFF; 512];
    fill(&table, 0, &mut bytes);
    Ok(bytes)
}

#[test]
fn bytes_that_no_field_has_are_written_as_0(rt: HostRuntime) -> Result<(), Fail> {
    for order in [Order::Little, Order::Big] {
        let bytes = cleaned(rt.alloc(), order)?;
        assert!(rt; has_one_record(&bytes, order, 0), "{order:?}");
    }
    Ok(())
}

#[test]
fn a_frozen_table_stays_as_it_was(rt: HostRuntime) -> Result<(), Fail> {
    let mut table = ITable::new(rt.alloc(), 3, Order::Big)?;
    put(&mut table, 1, 0o040755);
    put(&mut table, 2, 0o100644);
    let mut frozen = table.freeze(rt.alloc())?;
    let mut bytes = [0xFF; 512];
    fill(&frozen, 0, &mut bytes);
    assert_eq!(rt; said(&frozen), (Some(3), 2));
    assert_eq!(rt; frozen.num_inodes(), 3);
    assert_eq!(rt; at(&frozen, 2), Some(example()));
    assert_eq!(rt; bytes[128..256], *BIG.as_slice());

    // Each changes alone.
    clear(&mut table, 1);
    assert_eq!(rt; said(&frozen), (Some(3), 2));
    put(&mut frozen, 3, 0o100644);
    clear(&mut frozen, 2);
    assert_eq!(rt; said(&frozen), (Some(2), 2));
    assert_eq!(rt; said(&table), (Some(1), 1));
    assert_eq!(rt; at(&table, 2), Some(example()));
    Ok(())
}

//! Lists that keep what is added, with ample memory.
use crate::{Notice, Notices, Row, RowList};
use qx_outside::ByteList;
use std::alloc::{AllocError, Global};
use std::test::Fail;

// A row for an inode, with this name.
fn row(alloc: Global, inode: u32, name: &[u8]) -> Result<Row, AllocError> {
    let mut bytes = ByteList::new(alloc);
    bytes.add(name)?;
    Ok(Row { inode, name: bytes })
}

#[test]
fn a_list_of_rows_keeps_what_is_added(rt: HostRuntime) -> Result<(), Fail> {
    let mut rows = RowList::new(rt.alloc());
    assert_eq!(rt; rows.items().len(), 0);
    rows.push(row(rt.alloc(), 2, b"d")?)?;
    rows.push(row(rt.alloc(), 3, b"g")?)?;
    let cases: [(u32, &[u8]); 2] = [(2, b"d"), (3, b"g")];
    assert_eq!(rt; rows.items().len(), cases.len());
    for (row, (inode, name)) in rows.items().iter().zip(cases) {
        assert_eq!(rt; row.inode, inode);
        assert_eq!(rt; row.name.bytes(), name);
    }
    Ok(())
}

#[test]
fn four_notices_have_room(rt: HostRuntime) -> Result<(), Fail> {
    let mut notices = Notices::new();
    notices.push(Notice::Memory);
    notices.push(Notice::Snapshot(3));
    notices.push(Notice::Snapshot(u64::MAX));
    notices.push(Notice::Device);
    let told = [
        Notice::Memory,
        Notice::Snapshot(3),
        Notice::Snapshot(u64::MAX),
        Notice::Device,
    ];
    assert_eq!(rt; notices.items(), told.as_slice());
    Ok(())
}

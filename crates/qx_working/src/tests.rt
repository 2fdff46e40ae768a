//! Links that are set, and a working tree of nothing.

use crate::{Links, Working};
use qx_fields::Order;
use qx_geom::{ABSENT, Root};
use qx_records::Inode;
use std::alloc::Global;
use std::test::Fail;

#[test]
fn a_link_is_set_and_its_neighbours_stay(rt: HostRuntime) -> Result<(), Fail> {
    let mut links = Links::new(rt.alloc(), 3)?;
    links.set(2, 70_000_000_000);
    links.set_parent(3, 2);
    links.set_parent(2, 3);
    links.set(2, 5);
    let rows = [links.get(1), links.get(2), links.get(3)];
    let parents = [links.parent(1), links.parent(2), links.parent(3)];
    assert_eq!(rt; rows, [0, 5, 0]);
    assert_eq!(rt; parents, [1, 3, 2]);
    Ok(())
}

#[test]
fn a_working_tree_of_nothing_has_no_inode(rt: HostRuntime) -> Result<(), Fail> {
    for order in [Order::Little, Order::Big] {
        let working = Working::empty(rt.alloc(), 32, order)?;
        assert_eq!(rt; (working.table.num_inodes(), working.table.live()), (32, 0));
        assert_eq!(rt; (working.long.size, working.long.levels), (0, 0));
        assert_eq!(rt; working.long.pointers, [ABSENT; 16]);
        assert_eq!(rt; (working.links.get(32), working.links.parent(32)), (0, 1));
        assert_eq!(rt; working.order, order);
    }
    Ok(())
}

// A node of so many bytes without a block.
fn hollow(size: u64) -> Root {
    Root {
        size,
        pointers: [ABSENT; 16],
        levels: 0,
    }
}

// A live inode of this mode whose node has so many bytes.
fn inode(mode: u16, size: u64) -> Inode {
    Inode {
        root: hollow(size),
        uid: 0,
        gid: 0,
        ftime: 0,
        mtime: 0,
        atime: 0,
        ctime: 0,
        mode,
        ext_mode: 0,
        status: 3,
    }
}

// Gives a number that the table has an inode.
fn put(working: &mut Working, n: u32, given: &Inode) {
    if 1 <= n && n <= working.table.num_inodes() {
        working.table.set(n, given);
    }
}

// How many bytes the node of a number has.
fn size_of(working: &Working, number: u32) -> Option<u64> {
    Some(working.node(number)?.size)
}

#[test]
fn nodes_are_lent_and_put_by_number(rt: HostRuntime) -> Result<(), Fail> {
    let mut working = Working::empty(rt.alloc(), 4, Order::Little)?;
    put(&mut working, 1, &inode(0o040755, 512));
    put(&mut working, 2, &inode(0o100644, 7));
    put(&mut working, 3, &inode(0o020644, 0));
    let cases = [
        ("the Longfile", 0, Some(0), Some(9000)),
        ("a directory", 1, Some(512), Some(9001)),
        ("a file", 2, Some(7), Some(9002)),
        ("a special", 3, None, None),
        ("no live inode", 4, None, None),
        ("past the last number", 5, None, None),
    ];
    for (name, number, before, after) in cases {
        assert_eq!(rt; size_of(&working, number), before, "{name}");
        working.put_node(number, &hollow(9000 + u64::from(number)));
        assert_eq!(rt; size_of(&working, number), after, "{name}");
    }

    // Each has its own still, and a special is as it was.
    assert_eq!(rt;
        (size_of(&working, 0), size_of(&working, 2)),
        (Some(9000), Some(9002))
    );
    assert_eq!(rt; working.table.live(), 3);
    Ok(())
}

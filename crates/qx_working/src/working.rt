//! What the working tree has in memory.
ghost use Rattle.std.specs.Prelude.{◌≡◌, IfOk, replicate};
ghost use Rattle.qx_copies.specs.Copies.{node_in, node_of_inode};
ghost use Rattle.qx_itable.specs.TableState.{blank_table};
ghost use Rattle.qx_ptree.specs.Trees.{empty_node};
ghost use Rattle.qx_working.specs.Links.{no_link};
ghost use Rattle.qx_working.specs.States.{copy_of, with_node_at};

use crate::Links;
use qx_fields::Order;
use qx_geom::{ABSENT, Root};
use qx_itable::ITable;
use qx_records::{Inode, Kind};
use std::alloc::{AllocError, Global};

// The node of a file of no bytes.
const EMPTY: Root = Root {
    size: 0,
    pointers: [ABSENT; 16],
    levels: 0,
};

/// The inodes of the working tree, its Longfile's node, how rows name the inodes, and the order of bytes on disk.
#[derive(Drop)]
pub struct Working {
    pub table: ITable,
    pub long: Root,
    pub links: Links,
    pub order: Order,
}

impl Working {
    /// No inode that is live, of so many, and a Longfile of nothing.
    pub fn empty(alloc: Global, num_inodes: u32, order: Order) -> Result<Working, AllocError>
        ensures table { IfOk result (λ working. working.table ≡ blank_table num_inodes order) }
        ensures long { IfOk result (λ working. working.long ≡ empty_node) }
        ensures links { IfOk result (λ working. working.links ≡ replicate num_inodes no_link) }
        ensures order { IfOk result (λ working. working.order ≡ order) }
    {
        let table = ITable::new(alloc, num_inodes, order)?;
        let links = Links::new(alloc, num_inodes)?;
        Ok(Working {
            table,
            long: EMPTY,
            links,
            order,
        })
    }

    /// The node of a number that has one: 0 is the Longfile's, n that of inode n, where it is live and no special.
    pub fn node(&self, number: u32) -> Option<Root>
        ensures { result ≡ node_in (copy_of self.now) number }
    {
        if number == 0 {
            return Some(self.long);
        }
        if number > self.table.num_inodes() {
            return None;
        }
        let inode = self.table.get(number)?;
        node_of(&inode)
    }

    /// Gives a number that has a node this one.
    pub fn put_node(&mut self, number: u32, node: &Root)
        ensures { self.new ≡ with_node_at self.old number node.now }
    {
        if number == 0 {
            self.long = *node;
            return;
        }
        if number > self.table.num_inodes() {
            return;
        }
        let Some(inode) = self.table.get(number) else {
            return;
        };
        if node_of(&inode).is_none() {
            return;
        }
        let root = *node;
        self.table.set(number, &Inode { root, ..inode });
    }
}

// The node of an inode; a special has none.
fn node_of(inode: &Inode) -> Option<Root>
    ensures { result ≡ node_of_inode inode.now }
{
    match Kind::of(inode.mode)? {
        Kind::Special => None,
        Kind::Directory | Kind::File | Kind::Link => Some(inode.root),
    }
}

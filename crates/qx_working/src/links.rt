//! How many rows name each inode, and in which directory each directory is.
use std::alloc::{AllocError, Global};
use std::marker::Model;

/// What is kept of an inode beside its record.
#[derive(Clone, Copy, Debug, PartialEq, Eq)]
pub struct Link {
    /// How many rows name it, `.` and `..` not counted.
    pub rows: u64,
    /// Of a directory, the inode of the directory that it is in; inode 1 is in itself.
    pub parent: u32,
}

// What an inode has that no row names.
const NONE: Link = Link { rows: 0, parent: 1 };

/// The links of the inodes from 1 on.
#[derive(Drop)]
pub struct Links {
    // That of inode n stands at place n - 1.
    kept: Vec<Link>,
}

impl Model for Links {
    ghost use Rattle.std.specs.Prelude.{List};
    ghost use Rattle.qx_working.specs.declared.links.Link.{Link};

    ghost Value = { List Link };

    ghost view = { λ links. links.kept.items };
}

impl Links {
    ghost use Rattle.std.specs.Prelude.{◌≡◌, ◌≤◌, IfOk, length, replicate};
    ghost use Rattle.qx_working.specs.Links.{link_of, no_link, with_link};

    /// So many inodes that no row names.
    pub fn new(alloc: Global, num_inodes: u32) -> Result<Links, AllocError>
        ensures { IfOk result (λ links. links ≡ replicate num_inodes no_link) }
    {
        let kept = vec![in alloc; NONE; num_inodes as usize]?;
        Ok(Links { kept })
    }

    /// How many rows name an inode.
    pub fn get(&self, n: u32) -> u64
        requires from_one { 1 ≤ n }
        requires within { n ≤ length self.now }
        ensures { result ≡ (link_of self.now n).rows }
    {
        self.at(n).rows
    }

    /// So many rows name an inode from now on.
    pub fn set(&mut self, n: u32, rows: u64)
        requires from_one { 1 ≤ n }
        requires within { n ≤ length self.old }
        ensures { self.new ≡ with_link self.old n (record (link_of self.old n) { rows = rows }) }
    {
        let link = self.at(n);
        self.put(n, Link { rows, ..link });
    }

    /// The directory that a directory is in.
    pub fn parent(&self, n: u32) -> u32
        requires from_one { 1 ≤ n }
        requires within { n ≤ length self.now }
        ensures { result ≡ (link_of self.now n).parent }
    {
        self.at(n).parent
    }

    /// A directory is in this one from now on.
    pub fn set_parent(&mut self, n: u32, parent: u32)
        requires from_one { 1 ≤ n }
        requires within { n ≤ length self.old }
        ensures { self.new ≡ with_link self.old n (record (link_of self.old n) { parent = parent }) }
    {
        let link = self.at(n);
        self.put(n, Link { parent, ..link });
    }

    // What is kept of an inode.
    fn at(&self, n: u32) -> Link
        requires from_one { 1 ≤ n }
        requires within { n ≤ length self.now }
        ensures { result ≡ link_of self.now n }
    {
        self.kept[n as usize - 1]
    }

    // This is kept of an inode from now on.
    fn put(&mut self, n: u32, link: Link)
        requires from_one { 1 ≤ n }
        requires within { n ≤ length self.old }
        ensures { self.new ≡ with_link self.old n link }
    {
        self.kept[n as usize - 1] = link;
    }
}

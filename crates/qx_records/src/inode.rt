//! An inode, read and written.
ghost use Rattle.std.specs.Prelude.{◌≡◌, length};
ghost use Rattle.qx_records.specs.InodeRecord.{inode_in};
ghost use Rattle.qx_records.specs.WrittenInode.{inode_bytes, FitsInode};

use qx_fields::{Order, get16, get32, get32s, get64, put16, put32s, put64};
use qx_geom::Root;
use std::marker::Model;

/// What the 128 bytes of an inode say (`struct qnx6_inode_entry` of `qnx6_fs.h`). Times are seconds since 1970.
#[derive(Clone, Copy, Debug, PartialEq, Eq)]
pub struct Inode {
    pub root: Root,
    pub uid: u32,
    pub gid: u32,
    /// When the inode was made.
    pub ftime: u32,
    /// When its bytes were last changed.
    pub mtime: u32,
    /// When its bytes were last read.
    pub atime: u32,
    /// When the inode was last changed.
    pub ctime: u32,
    /// The kind in the top four bits, the permissions below.
    pub mode: u16,
    pub ext_mode: u16,
    /// 1 for a directory and 3 for another inode, as this project writes it; 2 is the format's mark of a deleted one.
    pub status: u8,
}

/// An inode that is read from lent bytes.
#[derive(Drop)]
pub struct InodeView<'a> {
    order: Order,
    bytes: &'a [u8],
}

impl<'a> Model for InodeView<'a> {
    ghost use Rattle.std.specs.Prelude.{◌≡◌, length};
    ghost use Rattle.qx_records.specs.declared.inode.Inode.{Inode};
    ghost use Rattle.qx_records.specs.InodeRecord.{inode_in};

    ghost Value = { Inode };

    ghost view = { λ s. inode_in s.order s.bytes.now };

    ghost invariant = { λ s. length s.bytes.now ≡ 128 };
}

impl<'a> InodeView<'a> {
    ghost use Rattle.std.specs.Prelude.{◌≡◌, length};
    ghost use Rattle.qx_records.specs.InodeRecord.{inode_in};

    /// The inode that these bytes are.
    pub fn new(bytes: &'a [u8], order: Order) -> InodeView<'a>
        requires { length bytes.now ≡ 128 }
        ensures { result ≡ inode_in order bytes.now }
    {
        InodeView { order, bytes }
    }

    /// All its fields.
    #[tactic(auto, unfolding(crate::specs::InodeRecord::inode_in))]
    pub fn get(&self) -> Inode
        ensures { result ≡ self.now }
    {
        let mut pointers = [0; 16];
        get32s(self.order, self.bytes, 36, &mut pointers);
        Inode {
            root: Root {
                size: get64(self.order, self.bytes, 0),
                pointers,
                levels: self.bytes[100],
            },
            uid: get32(self.order, self.bytes, 8),
            gid: get32(self.order, self.bytes, 12),
            ftime: get32(self.order, self.bytes, 16),
            mtime: get32(self.order, self.bytes, 20),
            atime: get32(self.order, self.bytes, 24),
            ctime: get32(self.order, self.bytes, 28),
            mode: get16(self.order, self.bytes, 32),
            ext_mode: get16(self.order, self.bytes, 34),
            status: self.bytes[101],
        }
    }
}

/// Fills 128 bytes with an inode, whatever stood there. Bytes without a field become 0.
pub fn write_inode(inode: &Inode, order: Order, into: &mut [u8])
    requires { length into.old ≡ 128 }
    ensures bytes { into.new ≡ inode_bytes order inode.now }
    ensures read_back { inode_in order into.new ≡ inode.now }
    ensures fits { FitsInode inode.now }
{
    let mode = inode.mode;
    let ext_mode = inode.ext_mode;
    into.fill(0);
    put64(order, into, 0, inode.root.size);
    let words = [
        inode.uid,
        inode.gid,
        inode.ftime,
        inode.mtime,
        inode.atime,
        inode.ctime,
    ];
    put32s(order, into, 8, &words);
    put16(order, into, 32, mode);
    put16(order, into, 34, ext_mode);
    put32s(order, into, 36, &inode.root.pointers);
    into[100] = inode.root.levels;
    into[101] = inode.status;
}

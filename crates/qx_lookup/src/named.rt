//! Which inode a name leads to in a directory of the working tree.
ghost use Rattle.std.specs.Prelude.{◌≡◌, ◌<◌, ◌/◌, Some, IfOk, IfSome, IsTrue};
ghost use Rattle.qx_geom.specs.declared.root.Root.{Root};
ghost use Rattle.qx_model.specs.Directories.{inode_named};
ghost use Rattle.qx_model.specs.Tree.{Tree};
ghost use Rattle.qx_blocks.specs.Calls.{OnlyReads};
ghost use Rattle.qx_copies.specs.Copies.{inode_at};
ghost use Rattle.qx_working.specs.Standing.{IsReadable, StandsForTree};
ghost use Rattle.qx_lookup.specs.Names.{IsRowNamed, directory_in};

use crate::{FoundRow, find_row};
use qx_blocks::{Blocks, Stop};
use qx_geom::Root;
use qx_records::{Inode, Kind};
use qx_working::Working;

/// The inode that a name leads to in a directory, `.` and `..` among the names. What is no directory has none.
pub fn lookup<B: Blocks>(
    state: &Working,
    blocks: &mut B,
    dir: u32,
    name: &[u8],
) -> Result<Option<u32>, Stop>
    requires readable { IsReadable (B.state blocks.old) state.now }
    ensures named { IfOk result (λ found. IsTrue (B.state blocks.new).tells
        → (t : Tree) → StandsForTree (B.state blocks.old) state.now t → found ≡ inode_named t dir name.now) }

    ensures reads { OnlyReads B.state B.beside blocks.old blocks.new result }
{
    let row = row_named(state, blocks, dir, name)?;
    Ok(row.map(|row| row.inode))
}

/// The row that has a name in a directory, `.` and `..` among the rows. What is no directory has none.
pub fn row_named<B: Blocks>(
    state: &Working,
    blocks: &mut B,
    dir: u32,
    name: &[u8],
) -> Result<Option<FoundRow>, Stop>
    requires readable { IsReadable (B.state blocks.old) state.now }
    ensures row { IfOk result (λ found. IsTrue (B.state blocks.new).tells
        → (t : Tree) → StandsForTree (B.state blocks.old) state.now t → IsRowNamed t dir name.now found) }
    ensures within { IfOk result (λ found. IfSome found (λ row.
        (node : Root) × (directory_in state.now.table.inodes dir ≡ Some node) × (row.record < node.size / 32))) }

    ensures reads { OnlyReads B.state B.beside blocks.old blocks.new result }
{
    let _size = blocks.size();
    let Some(node) = directory(state, dir) else {
        return Ok(None);
    };
    find_row(blocks, &node, &state.long, state.order, name)
}

/// The inode of a number, where it is live. Numbers that the table doesn't have are none's.
pub fn live_inode(state: &Working, n: u32) -> Option<Inode>
    ensures { result ≡ inode_at state.now.table.inodes n }
{
    if n == 0 || n > state.table.num_inodes() {
        return None;
    }
    state.table.get(n)
}

/// The node of a directory.
pub fn directory(state: &Working, dir: u32) -> Option<Root>
    ensures { result ≡ directory_in state.now.table.inodes dir }
{
    let inode = live_inode(state, dir)?;
    match Kind::of(inode.mode)? {
        Kind::Directory => Some(inode.root),
        Kind::File | Kind::Link | Kind::Special => None,
    }
}

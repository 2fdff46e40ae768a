//! Whether both halves of the system blocks are as this project writes them.
ghost use Rattle.std.specs.Prelude.{◌≡◌, ◌+◌, ◌*◌, ◌≤◌, IfOk, length};
ghost use Rattle.qx_blockset.specs.Members.{limit_of};
ghost use Rattle.qx_geom.specs.Layout.{IsGeometry, IsPointerBlock, tree_base, tree_leaves};
ghost use Rattle.qx_nodes.specs.BlockMap.{BlockMap};
ghost use Rattle.qx_view.specs.declared.findings.Finding.{Finding};
ghost use Rattle.qx_view.specs.Sound.{has_system_trees, is_system_tree};
ghost use Rattle.qx_pointers.specs.Halts.{Asks};
ghost use Rattle.qx_walk.specs.Layouts.{IsMetOn, IsVolumeOn, are_words_of, has_block_of_half, is_laid_out_by};
ghost use Rattle.qx_pointers.specs.Shown.{Shows};

use qx_blockset::BlockSet;
use qx_fields::{Order, get32};
use qx_geom::{Geometry, SystemTree, Which};
use qx_outside::Dev;
use qx_pointers::{Halt, Shape, read_block};
use qx_super::{RootName, SuperView};

/// Whether both root nodes are those of the active half, the pointer blocks of both halves are right, and no block of the other half was met.
pub(crate) fn is_laid_out<D: Dev>(
    host: &mut D,
    shape: Shape,
    view: &SuperView<'_>,
    which: Which,
    geometry: &Geometry,
    met: &BlockSet,
) -> Result<bool, Halt>
    requires met { IsMetOn shape geometry.now met.now (D.outside host.old) }
    ensures right { (m : BlockMap) → Shows shape (D.outside host.new) m
        → IfOk result (λ right. right ≡ is_laid_out_by m view.now geometry.now which met.now) }
    ensures asks { Asks (4 * shape.count) (D.outside host.old) (D.outside host.new) result }
{
    if view.root(RootName::Bitmap) != geometry.tree_root(which, SystemTree::Bitmap)
        || view.root(RootName::Inode) != geometry.tree_root(which, SystemTree::Inodes)
    {
        return Ok(false);
    }
    if !has_system_trees(host, shape, geometry, Which::First)?
        || !has_system_trees(host, shape, geometry, Which::Second)?
    {
        return Ok(false);
    }
    Ok(!has_block_of_half(geometry, which.other(), met))
}

/// Whether the pointer blocks of both trees of a half are as they must be.
fn has_system_trees<D: Dev>(
    host: &mut D,
    shape: Shape,
    geometry: &Geometry,
    which: Which,
) -> Result<bool, Halt>
    requires volume { IsVolumeOn shape geometry.now (D.outside host.old) }
    ensures words { (m : BlockMap) → Shows shape (D.outside host.new) m
        → IfOk result (λ right. right ≡ has_system_trees m geometry.now which) }
    ensures asks { Asks (2 * shape.count) (D.outside host.old) (D.outside host.new) result }
{
    if !has_system_words(host, shape, geometry, which, SystemTree::Bitmap)? {
        return Ok(false);
    }
    has_system_words(host, shape, geometry, which, SystemTree::Inodes)
}

/// Whether the pointer blocks of a half's tree are as they must be.
fn has_system_words<D: Dev>(
    host: &mut D,
    shape: Shape,
    geometry: &Geometry,
    which: Which,
    tree: SystemTree,
) -> Result<bool, Halt>
    requires volume { IsVolumeOn shape geometry.now (D.outside host.old) }
    ensures words { (m : BlockMap) → Shows shape (D.outside host.new) m
        → IfOk result (λ right. right ≡ is_system_tree m (tree_base geometry.now which tree) (tree_leaves geometry.now tree)) }
    ensures asks { Asks shape.count (D.outside host.old) (D.outside host.new) result }
{
    let blocks = geometry.pointer_blocks(which, tree);
    let first = blocks.start;
    for block in first..blocks.end {
        if !has_right_words(host, shape, geometry, which, tree, block)? {
            return Ok(false);
        }
    }
    Ok(true)
}

/// Whether a pointer block is as it must be.
fn has_right_words<D: Dev>(
    host: &mut D,
    shape: Shape,
    geometry: &Geometry,
    which: Which,
    tree: SystemTree,
    block: u32,
) -> Result<bool, Halt>
    requires volume { IsVolumeOn shape geometry.now (D.outside host.old) }
    requires block { IsPointerBlock geometry.now which tree block }
    ensures words { (m : BlockMap) → Shows shape (D.outside host.new) m
        → IfOk result (λ right. right ≡ are_words_of geometry.now which tree block m.order (m.bytes block)) }
    ensures asks { Asks 1 (D.outside host.old) (D.outside host.new) result }
{
    let mut buffer = [0; 4096];
    let bytes = &mut buffer[0..shape.blocksize as usize];
    read_block(host, shape, block, bytes)?;
    Ok(are_words_of(geometry, which, tree, block, shape.order, bytes))
}

/// Whether the words of a pointer block are as they must be.
fn are_words_of(
    geometry: &Geometry,
    which: Which,
    tree: SystemTree,
    block: u32,
    order: Order,
    bytes: &[u8],
) -> bool
    requires geometry { IsGeometry geometry.now }
    requires block { IsPointerBlock geometry.now which tree block }
    requires long { length bytes.now ≡ geometry.now.blocksize }
    ensures { result ≡ are_words_of geometry.now which tree block order bytes.now }
{
    for word in 0..geometry.blocksize / 4 {
        if get32(order, bytes, word as usize * 4) != geometry.tree_word(which, tree, block, word) {
            return false;
        }
    }
    true
}

/// Whether a block of a half was met.
fn has_block_of_half(geometry: &Geometry, which: Which, met: &BlockSet) -> bool
    requires geometry { IsGeometry geometry.now }
    requires met { limit_of met.now ≡ geometry.now.num_blocks }
    ensures { result ≡ has_block_of_half geometry.now which met.now }
{
    let first = geometry.first_block(which);
    for block in first..first + geometry.half {
        if met.has(block) {
            return true;
        }
    }
    false
}

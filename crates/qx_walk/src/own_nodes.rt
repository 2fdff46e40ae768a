//! The node of an inode, and what is noted of it.
ghost use Rattle.std.specs.Prelude.{◌≡◌, ◌<◌, ◌≤◌, ◌+◌, ◌%◌, ℕ, List, All, IfOk, IfSome, OnOk, length};
ghost use Rattle.qx_blockset.specs.Members.{count_of, limit_of};
ghost use Rattle.qx_geom.specs.Pointer.{ceil_div, reach};
ghost use Rattle.qx_nodes.specs.BlockMap.{BlockMap};
ghost use Rattle.qx_nodes.specs.ForeignNodes.{is_foreign_node as is_foreign_root};
ghost use Rattle.qx_view.specs.declared.findings.Finding.{Finding};
ghost use Rattle.qx_view.specs.Sound.{are_zero, is_foreign_directory as is_foreign_directory_node};
ghost use Rattle.qx_pointers.specs.declared.halt.Halt.TheVariants as halts;
ghost use Rattle.qx_pointers.specs.Halts.{Asks};
ghost use Rattle.qx_walk.specs.Inodes.{WalksNode, tail_at};
ghost use Rattle.qx_pointers.specs.Marks.{Marks};
ghost use Rattle.qx_pointers.specs.Parts.{IsInReach, IsPlaced, IsWhole};
ghost use Rattle.qx_pointers.specs.Shown.{Fits, Looks, Shows};
ghost use Rattle.qx_walk.specs.Trees.{note_if};

use crate::Way;
use qx_geom::{Root, levels};
use qx_outside::Dev;
use qx_pointers::{Halt, Part, Shape, Visitor, read_block_from, walk_node};

/// As many bytes 0 as a block may have.
const ZEROS: [u8; 4096] = [0; 4096];

/// Walks the node of inode n, and notes where it isn't as this project writes it.
pub(crate) fn walk_own_node<D: Dev>(
    host: &mut D,
    shape: Shape,
    n: u32,
    node: &Root,
    keeps: bool,
    way: &mut Way,
) -> Result<Part, Halt>
    requires met { limit_of way.old.met ≡ shape.count }
    requires fits { Fits shape (D.outside host.old) }
    ensures walked { (m : BlockMap) (met : List ℕ) → Shows shape (D.outside host.new) m
        → Marks way.old.met met
        → WalksNode m n node.now keeps met result way.old way.new }

    // Whether the device tells or not.
    ensures node { OnOk result (IsInReach shape node.now) }
    ensures placed { OnOk result (All (IsPlaced shape node.now) way.new.leaves.items) }
    ensures dots { way.new.notes.dots ≡ way.old.notes.dots }
    ensures limit { limit_of way.new.met ≡ limit_of way.old.met }
    ensures few { length way.new.leaves.items + count_of way.old.met ≤ count_of way.new.met }
    ensures looks { Looks halts.Device (count_of way.old.met) (count_of way.new.met + 1)
        (D.outside host.old) (D.outside host.new) result }
{
    way.leaves.clear();
    let visitor = Visitor {
        shape,
        inode: n,
        bounded: false,
        keeps,
    };
    let part = walk_node(host, &visitor, node, &mut way.met, &mut way.leaves)?;
    let tail = has_tail(host, shape, node, part, &mut way.tail)?;
    way.notes.nodes = noted(way.notes.nodes, is_foreign_node(shape, node, part), n);
    way.notes.tails = noted(way.notes.tails, tail, n);
    Ok(part)
}

/// Whether a node isn't as this project writes it, of which this was seen.
pub(crate) fn is_foreign_node(shape: Shape, node: &Root, part: Part) -> bool
    requires bounds { ceil_div node.now.size shape.blocksize ≤ reach shape.blocksize 5 }
    ensures { (m : BlockMap) → m.size ≡ shape.blocksize → IsWhole m node.now part
        → result ≡ is_foreign_root m node.now }
{
    let leaves = node.size.div_ceil(u64::from(shape.blocksize));
    node.levels != levels(leaves, shape.blocksize) || part.strays || part.bare
}

/// Whether a directory isn't as this project writes it by its size or its holes.
pub(crate) fn is_foreign_directory(shape: Shape, node: &Root, part: Part) -> bool
    ensures { (m : BlockMap) → m.size ≡ shape.blocksize → IsWhole m node.now part
        → result ≡ is_foreign_directory_node m node.now }
{
    let blocksize = u64::from(shape.blocksize);
    node.size == 0 || node.size % blocksize != 0 || part.leaves != node.size / blocksize
}

/// The lesser of a number that was noted and of this one, if it is to be noted.
pub(crate) fn noted(before: Option<u32>, fails: bool, n: u32) -> Option<u32>
    ensures { result ≡ note_if fails n before }
{
    match before {
        _ if !fails => before,
        None => Some(n),
        Some(least) => Some(least.min(n)),
    }
}

/// Whether a byte past a node's size, in its last leaf, isn't 0. The buffer takes these bytes.
fn has_tail<D: Dev>(
    host: &mut D,
    shape: Shape,
    node: &Root,
    part: Part,
    buffer: &mut [u8; 4096],
) -> Result<bool, Halt>
    requires end { IfSome part.end (λ block. block < shape.count) }
    requires fits { Fits shape (D.outside host.old) }
    ensures tail { (m : BlockMap) → Shows shape (D.outside host.new) m
        → IfOk result (λ tail. tail ≡ tail_at m (node.now.size % m.size) part.end) }
    ensures asks { Asks 1 (D.outside host.old) (D.outside host.new) result }
{
    let Some(block) = part.end else {
        return Ok(false);
    };
    let past = (node.size % u64::from(shape.blocksize)) as usize;
    if past == 0 {
        return Ok(false);
    }
    let tail = &mut buffer[0..shape.blocksize as usize - past];
    read_block_from(host, shape, block, past, tail)?;
    Ok(!is_zero(tail))
}

/// Whether all bytes are 0.
fn is_zero(bytes: &[u8]) -> bool
    requires { length bytes.now ≤ 4096 }
    ensures { result ≡ are_zero bytes.now }
{
    bytes == &ZEROS[..bytes.len()]
}

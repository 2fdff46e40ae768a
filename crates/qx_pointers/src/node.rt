//! The pointers of a node, followed depth first.
ghost use Rattle.std.specs.Prelude.{◌≡◌, ◌<◌, ◌≤◌, ◌+◌, ◌*◌, ◌^◌, ◌||◌, [], true, All, IfOk, IfSome, IsTrue, OnOk, if◌then◌else◌};
ghost use Rattle.qx_blockset.specs.Members.{limit_of};
ghost use Rattle.qx_geom.specs.Pointer.{ceil_div, per_block, reach};
ghost use Rattle.qx_nodes.specs.BlockMap.{BlockMap};
ghost use Rattle.qx_nodes.specs.Content.{levels_fit, root_fits};
ghost use Rattle.qx_nodes.specs.Visits.{visits_of};
ghost use Rattle.qx_view.specs.Walk.{node_tests};
ghost use Rattle.qx_pointers.specs.Marks.{Follows, GoesThrough};
ghost use Rattle.qx_pointers.specs.Parts.{IsInReach, IsPlaced, IsWhole, joined, kept_leaves, nothing};
ghost use Rattle.qx_pointers.specs.Shown.{Fits, Shows};

use crate::pointers::{Position, visit_each};
use crate::{Halt, Shape};
use qx_blockset::BlockSet;
use qx_geom::{ABSENT, Root};
use qx_outside::Dev;
use qx_view::{Code, Finding};

/// The greatest size of a node, in bytes.
const MOST_BYTES: u64 = 1 << 48;

/// A present leaf: which leaf of its node it is, and the block that holds it.
#[derive(Clone, Copy, Debug, PartialEq, Eq)]
pub struct LeafPlace {
    pub index: u64,
    pub block: u32,
}

/// What is seen below a pointer, or of a whole node.
#[derive(Clone, Copy, Debug, PartialEq, Eq)]
pub struct Part {
    /// How many leaves are present.
    pub leaves: u64,
    /// A pointer that leads past the size isn't absent.
    pub strays: bool,
    /// A pointer block has no present leaf.
    pub bare: bool,
    /// The block of the leaf that has the node's last byte, where this leaf is present.
    pub end: Option<u32>,
}

impl Part {
    /// What is seen where nothing is.
    pub(crate) fn nothing() -> Part
        ensures { result ≡ nothing }
    {
        Part {
            leaves: 0,
            strays: false,
            bare: false,
            end: None,
        }
    }

    /// What is seen in one place and then in another.
    pub(crate) fn joined(self, other: Part) -> Part
        requires { self.leaves + other.leaves < 2 ^ 64 }
        ensures { result ≡ joined self other }
    {
        Part {
            leaves: self.leaves + other.leaves,
            strays: self.strays || other.strays,
            bare: self.bare || other.bare,
            end: self.end.or(other.end),
        }
    }
}

/// The node under the walk.
#[derive(Clone, Copy, Debug, PartialEq, Eq)]
pub struct Visitor {
    pub shape: Shape,
    /// Its inode, or 0 for a root node.
    pub inode: u32,
    /// Whether its size is bounded by that of all blocks, as a root node's is.
    pub bounded: bool,
    /// Whether its leaves are kept.
    pub keeps: bool,
}

impl Visitor {
    /// How many leaves a root pointer of a node of so many levels reaches.
    fn span(&self, levels: u8) -> u64
        requires { levels ≤ 5 }
        ensures span { result ≡ per_block self.now.shape.blocksize ^ levels }
        ensures few { result ≤ 2 ^ 50 }
    {
        u64::from(self.shape.blocksize / 4).pow(u32::from(levels))
    }

    /// Whether the node's levels and size are within the bounds.
    fn fits(&self, node: &Root) -> bool
        ensures fits { (m : BlockMap) → m.size ≡ self.now.shape.blocksize → m.count ≡ self.now.shape.count
            → result ≡ (if self.now.bounded then root_fits m node.now else levels_fit m node.now) }
        ensures levels { result ≡ true → node.now.levels ≤ 5 }
        ensures reached { result ≡ true → ceil_div node.now.size self.now.shape.blocksize
            ≤ 16 * per_block self.now.shape.blocksize ^ node.now.levels }
        ensures bounded { result ≡ true → IsTrue self.now.bounded
            → node.now.size ≤ self.now.shape.count * self.now.shape.blocksize }
    {
        let blocksize = u64::from(self.shape.blocksize);
        node.levels <= 5
            && node.size.div_ceil(blocksize) <= 16 * self.span(node.levels)
            && node.size <= MOST_BYTES
            && (!self.bounded || node.size <= u64::from(self.shape.count) * blocksize)
    }
}

/// Goes through the tests of a node, its pointers in order on all paths to leaves below its size.
pub fn walk_node<D: Dev>(
    host: &mut D,
    visitor: &Visitor,
    node: &Root,
    met: &mut BlockSet,
    leaves: &mut Vec<LeafPlace>,
) -> Result<Part, Halt>
    requires met { limit_of met.old ≡ visitor.now.shape.count }
    requires leaves { leaves.old.items ≡ [] }
    requires fits { Fits visitor.now.shape (D.outside host.old) }
    ensures tests { (m : BlockMap) → Shows visitor.now.shape (D.outside host.new) m
        → GoesThrough (node_tests m visitor.now.inode node.now (if visitor.now.bounded then root_fits m node.now else levels_fit m node.now)) result met.old met.new }
    ensures part { (m : BlockMap) → Shows visitor.now.shape (D.outside host.new) m
        → IfOk result (IsWhole m node.now) }
    ensures leaves { (m : BlockMap) → Shows visitor.now.shape (D.outside host.new) m
        → OnOk result (leaves.new.items ≡ kept_leaves visitor.now.keeps (visits_of m node.now)) }

    // Whether the device tells or not.
    ensures bounds { OnOk result (ceil_div node.now.size visitor.now.shape.blocksize
        ≤ reach visitor.now.shape.blocksize 5) }
    ensures reach { OnOk result (IsInReach visitor.now.shape node.now) }
    ensures bounded { OnOk result (IsTrue visitor.now.bounded
        → node.now.size ≤ visitor.now.shape.count * visitor.now.shape.blocksize) }
    ensures placed { OnOk result (All (IsPlaced visitor.now.shape node.now) leaves.new.items) }
    ensures end { IfOk result (λ part. IfSome part.end (λ block. block < visitor.now.shape.count)) }
    ensures follows { Follows met.old met.new [] leaves.new.items
        (D.outside host.old) (D.outside host.new) result }
{
    if !visitor.fits(node) {
        return Err(Halt::Finding(Finding {
            code: Code::Levels,
            inode: visitor.inode,
            block: ABSENT,
        }));
    }
    let last = node.size.div_ceil(u64::from(visitor.shape.blocksize));
    let first = Position {
        level: node.levels,
        span: visitor.span(node.levels),
        index: 0,
    };
    let whole = visit_each(host, visitor, last, first, &node.pointers, met, leaves)?;
    Ok(whole)
}

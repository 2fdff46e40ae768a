//! Whether a volume is laid out as this project writes it, and counted right.
ghost use Rattle.std.specs.Prelude.{◌≡◌, ◌<◌, ◌≤◌, ◌+◌, ◌*◌, ℕ, not, Some, None, IfOk, IfSome, IsTrue, is_some};
ghost use Rattle.qx_blockset.specs.Members.{limit_of};
ghost use Rattle.qx_geom.specs.declared.area.Which.{Which as Area};
ghost use Rattle.qx_geom.specs.Layout.{IsGeometry};
ghost use Rattle.qx_geom.specs.Lists.{first_below};
ghost use Rattle.qx_nodes.specs.BlockMap.{BlockMap};
ghost use Rattle.qx_view.specs.declared.findings.Finding.{Finding};
ghost use Rattle.qx_view.specs.Images.{Roots, inode_places, main_roots};
ghost use Rattle.qx_view.specs.Sound.{fails_inodes, is_empty_root, is_written_by, is_written_inode, last_with, reason_with, written_geometry};
ghost use Rattle.qx_view.specs.Walk.{walked_inodes};
ghost use Rattle.qx_pointers.specs.Halts.{Asks};
ghost use Rattle.qx_walk.specs.Layouts.{HasNumbers, IsShapeOf, has_right_counts, later_reason};
ghost use Rattle.qx_pointers.specs.Shown.{Fits, Shows};
ghost use Rattle.qx_tables.specs.Tables.{HoldsInodes, places_of};
ghost use Rattle.qx_walk.specs.Trees.{HasLimits, IsWalked};

use crate::Walked;
use crate::bitmap::first_wrong_bit;
use crate::halves::is_laid_out;
use qx_geom::{ABSENT, Geometry, Root, Which};
use qx_outside::Dev;
use qx_pointers::{Halt, Shape};
use qx_records::Kind;
use qx_super::{RootName, SuperView};
use qx_tables::InodeTable;
use qx_view::{Code, Finding, Foreign, Reason};

/// The geometry that this project writes for a superblock on a device of `len` bytes; none where it would write other numbers.
pub fn geometry_of(view: &SuperView<'_>, len: u64) -> Option<Geometry>
    ensures geometry { result ≡ written_geometry view.now len }
    ensures numbers { IfSome result (HasNumbers view.now) }
{
    let Ok(geometry) = Geometry::new(len, view.blocksize(), view.num_inodes()) else {
        return None;
    };
    if is_written_by(view, &geometry) {
        Some(geometry)
    } else {
        None
    }
}

/// Whether a superblock says what a geometry says, and what this project writes.
fn is_written_by(view: &SuperView<'_>, geometry: &Geometry) -> bool
    ensures { result ≡ is_written_by view.now geometry.now }
{
    geometry.num_blocks == view.num_blocks()
        && view.version1() == 1
        && is_empty_root(&view.root(RootName::Fourth))
}

/// Whether a root node is one of nothing, whatever its levels.
fn is_empty_root(node: &Root) -> bool
    ensures { result ≡ is_empty_root node.now }
{
    for index in 0..16 {
        if node.pointers[index] != ABSENT {
            return false;
        }
    }
    node.size == 0
}

/// The first reason for which a walked volume is foreign.
pub fn first_reason<D: Dev>(
    host: &mut D,
    shape: Shape,
    view: &SuperView<'_>,
    which: Which,
    geometry: Option<Geometry>,
    walked: &Walked,
) -> Result<Option<Foreign>, Halt>
    requires shape { IsShapeOf view.now shape }
    requires geometry { IfSome geometry (HasNumbers view.now) }
    requires bounds { HasLimits shape.count walked.now }
    requires fits { Fits shape (D.outside host.old) }
    ensures reason { (m : BlockMap) (len : ℕ) → Shows shape (D.outside host.new) m
        → written_geometry view.now len ≡ geometry → IsWalked m (main_roots view.now) walked.now
        → IfOk result (λ why. why ≡ reason_with m view.now which geometry) }
    ensures numbers { IfOk result (λ why. why ≡ None → IsTrue (is_some geometry)) }
    ensures asks { Asks (5 * shape.count) (D.outside host.old) (D.outside host.new) result }
{
    let Some(geometry) = geometry else {
        return Ok(Some(Foreign {
            reason: Reason::Numbers,
            at: 0,
        }));
    };
    if !is_laid_out(host, shape, view, which, &geometry, &walked.met)? {
        return Ok(Some(Foreign {
            reason: Reason::Halves,
            at: 0,
        }));
    }
    if let Some(at) = first_wrong_bit(host, shape, which, &geometry, &walked.met)? {
        return Ok(Some(Foreign {
            reason: Reason::Bitmap,
            at,
        }));
    }
    Ok(noted_reason(walked))
}

/// The first of the reasons 4 to 7, by what the walk noted.
fn noted_reason(walked: &Walked) -> Option<Foreign>
    requires { limit_of walked.now.reached ≡ places_of walked.now.table }
    ensures { (m : BlockMap) (r : Roots) → IsWalked m r walked.now
        → result ≡ later_reason m r (walked_inodes m r) }
{
    if let Some(n) = walked.notes.nodes {
        return Some(Foreign {
            reason: Reason::Nodes,
            at: u64::from(n),
        });
    }
    if let Some(n) = walked.notes.dots {
        return Some(Foreign {
            reason: Reason::Dots,
            at: u64::from(n),
        });
    }
    if let Some(n) = first_foreign_inode(walked) {
        return Some(Foreign {
            reason: Reason::Inodes,
            at: u64::from(n),
        });
    }
    let at = walked.long?;
    Some(Foreign {
        reason: Reason::LongNames,
        at,
    })
}

/// The least inode that is reached and not as this project writes it, or isn't reached and has a byte that isn't 0.
fn first_foreign_inode(walked: &Walked) -> Option<u32>
    requires { limit_of walked.now.reached ≡ places_of walked.now.table }
    ensures { (m : BlockMap) (r : Roots) → IsWalked m r walked.now
        → result ≡ first_below (fails_inodes m r (walked_inodes m r)) (inode_places r + 1) }
{
    for place in 0..walked.table.places() {
        if !is_right_inode(walked, place + 1) {
            return Some(place + 1);
        }
    }
    None
}

/// Whether an inode is reached and as this project writes it, or isn't reached and all its bytes are 0.
fn is_right_inode(walked: &Walked, n: u32) -> bool
    requires bounds { limit_of walked.now.reached ≡ places_of walked.now.table }
    requires place { (0 < n) × (n ≤ places_of walked.now.table) }
    ensures { (m : BlockMap) (r : Roots) → IsWalked m r walked.now
        → fails_inodes m r (walked_inodes m r) n ≡ not result }
{
    if walked.reached.has(n - 1) {
        return is_written_inode(&walked.table, n);
    }
    walked.table.is_zero(n)
}

/// Whether an inode is as this project writes it.
fn is_written_inode(table: &InodeTable, n: u32) -> bool
    requires { (0 < n) × (n ≤ places_of table.now) }
    ensures { (m : BlockMap) (r : Roots) → HoldsInodes m r.inodes table.now
        → result ≡ is_written_inode m r n }
{
    let inode = table.inode(n);
    let status = match Kind::of(inode.mode) {
        Some(Kind::Special) => return false,
        Some(Kind::Directory) => 1,
        _ => 3,
    };
    inode.status == status && inode.ext_mode == 0 && table.is_plain(n)
}

/// The last finding, where no reason applies: a byte past the size of the Inode tree or of a reached inode, or counts that are wrong.
pub fn last_finding(view: &SuperView<'_>, geometry: &Geometry, walked: &Walked) -> Option<Finding>
    requires geometry { IsGeometry geometry.now }
    requires bounds { HasLimits geometry.now.num_blocks walked.now }
    ensures { (m : BlockMap) (len : ℕ) (which : Area) → m.size ≡ geometry.now.blocksize
        → m.count ≡ geometry.now.num_blocks → written_geometry view.now len ≡ Some geometry.now
        → IsWalked m (main_roots view.now) walked.now
        → reason_with m view.now which (Some geometry.now) ≡ None → result ≡ last_with m view.now (Some geometry.now) }
{
    if let Some(n) = walked.notes.tails {
        return Some(Finding {
            code: Code::Tail,
            inode: n,
            block: ABSENT,
        });
    }
    if has_right_counts(view, geometry, walked) {
        None
    } else {
        Some(Finding {
            code: Code::Counts,
            inode: 0,
            block: ABSENT,
        })
    }
}

/// Whether the free blocks and the free inodes are counted right.
fn has_right_counts(view: &SuperView<'_>, geometry: &Geometry, walked: &Walked) -> bool
    requires geometry { IsGeometry geometry.now }
    ensures { result ≡ has_right_counts view.now geometry.now walked.now }
{
    // The active half's blocks were met as well, and are none of the user's.
    let blocks = u64::from(view.free_blocks()) + u64::from(walked.met.count());
    let inodes = u64::from(view.free_inodes()) + u64::from(walked.live);
    blocks == u64::from(geometry.user()) + u64::from(geometry.half)
        && inodes == u64::from(view.num_inodes())
}

/// The last finding of a volume that has this geometry, if it has one, and for which no reason applies.
pub fn last_of(
    view: &SuperView<'_>,
    geometry: Option<Geometry>,
    foreign: Option<Foreign>,
    walked: &Walked,
) -> Option<Finding>
    requires geometry { IfSome geometry (HasNumbers view.now) }
    requires bounds { HasLimits view.now.num_blocks walked.now }
    ensures last { (m : BlockMap) (len : ℕ) (which : Area) → m.size ≡ view.now.blocksize
        → m.count ≡ view.now.num_blocks → written_geometry view.now len ≡ geometry
        → IsWalked m (main_roots view.now) walked.now
        → reason_with m view.now which geometry ≡ None → foreign ≡ None → result ≡ last_with m view.now geometry }
    ensures foreign { IfSome foreign (λ f. result ≡ None) }
{
    match (foreign, geometry) {
        (None, Some(geometry)) => last_finding(view, &geometry, walked),
        _ => None,
    }
}

//! The tree of a volume, walked from its root nodes.
ghost use Rattle.std.specs.Prelude.{◌≡◌, ◌≢◌, ◌<◌, ◌≤◌, ◌*◌, ◌/◌, ℕ, List, [], Err, IfOk, OnOk, None, Some, length};
ghost use Rattle.qx_blockset.specs.Members.{Members, count_of, limit_of};
ghost use Rattle.qx_nodes.specs.BlockMap.{BlockMap};
ghost use Rattle.qx_nodes.specs.ForeignNodes.{is_foreign_node as is_foreign_root};
ghost use Rattle.qx_records.specs.declared.kind.Kind.TheVariants as kinds;
ghost use Rattle.qx_records.specs.InodeRecord.{kind_of};
ghost use Rattle.qx_view.specs.Images.{Roots, places_in};
ghost use Rattle.qx_view.specs.Walk.{finding_of, root_tests, top_tests};
ghost use Rattle.qx_pointers.specs.declared.halt.Halt.TheVariants as halts;
ghost use Rattle.qx_pointers.specs.Halts.{Answers};
ghost use Rattle.qx_pointers.specs.Marks.{GoesThrough, Marks};
ghost use Rattle.qx_pointers.specs.Parts.{IsInReach};
ghost use Rattle.qx_pointers.specs.Shown.{Fits, Looks, Shows};
ghost use Rattle.qx_tables.specs.Tables.{AreInside, HoldsInodes, HoldsNames, inode_at, places_of};
ghost use Rattle.qx_walk.specs.Trees.{HasBounds, IsWalked, note_if, roots_of};

use crate::inodes::walk_inodes;
use crate::own_nodes::{is_foreign_node, noted};
use crate::{Ground, Notes, RootNodes, Seen, Walked, Way};
use qx_blockset::BlockSet;
use qx_geom::{ABSENT, Root};
use qx_outside::Dev;
use qx_pointers::{Halt, LeafPlace, Shape, Visitor, walk_node};
use qx_records::Kind;
use qx_tables::{InodeTable, Listing, LongNames, Names};
use qx_view::{Code, Finding};
use std::alloc::Global;

/// Walks the tree that begins at these root nodes, to its first finding.
pub fn walk_tree<D: Dev>(
    alloc: Global,
    host: &mut D,
    shape: Shape,
    roots: &RootNodes,
) -> Result<Walked, Halt>
    requires fits { Fits shape (D.outside host.old) }
    ensures answer { (m : BlockMap) → Shows shape (D.outside host.new) m → Answers (finding_of m (roots_of roots.now)) result }
    ensures walked { (m : BlockMap) → Shows shape (D.outside host.new) m → IfOk result (IsWalked m (roots_of roots.now)) }

    // Whether the device tells or not.
    ensures bounds { IfOk result (HasBounds shape roots.now) }
    ensures looks { Looks halts.Device 0 (shape.count * (shape.blocksize / 8)) (D.outside host.old) (D.outside host.new) result }
{
    let mut met = BlockSet::new(alloc, shape.count)?;
    let mut leaves = Vec::new(alloc);
    let table = walk_inode_tree(alloc, host, shape, &roots.inodes, &mut met, &mut leaves)?;
    let (longs, nodes) = walk_longfile(alloc, host, shape, &roots.longfile, &mut met, &mut leaves)?;
    let visitor = Visitor {
        shape,
        inode: 0,
        bounded: true,
        keeps: false,
    };
    walk_node(host, &visitor, &roots.bitmap, &mut met, &mut leaves)?;
    test_top(&table)?;
    let tail = table.has_tail();
    let notes = Notes {
        nodes,
        dots: None,
        tails: noted(None, tail, 0),
    };
    let listing = Listing::new(alloc, table.places())?;
    let mut way = Way {
        met,
        leaves,
        notes,
        tail: [0; 4096],
    };
    let mut seen = Seen {
        names: Names::new(alloc),
        longs,
        listing,
    };
    let ground = Ground { shape, table };
    walk_inodes(host, &ground, &mut way, &mut seen)?;
    Ok(Walked {
        long: seen.longs.bad(shape),
        live: seen.listing.count(),
        reached: seen.listing.into_listed(),
        met: way.met,
        table: ground.table,
        notes: way.notes,
    })
}

/// Walks the Inode tree, and reads its inodes.
fn walk_inode_tree<D: Dev>(
    alloc: Global,
    host: &mut D,
    shape: Shape,
    inodes: &Root,
    met: &mut BlockSet,
    leaves: &mut Vec<LeafPlace>,
) -> Result<InodeTable, Halt>
    requires met { limit_of met.old ≡ shape.count }
    requires leaves { leaves.old.items ≡ [] }
    requires fits { Fits shape (D.outside host.old) }
    ensures tests { (m : BlockMap) → Shows shape (D.outside host.new) m → GoesThrough (root_tests m inodes.now) result met.old met.new }
    ensures holds { (m : BlockMap) (before : List ℕ) → Shows shape (D.outside host.new) m → Marks met.old before → IfOk result (HoldsInodes m inodes.now) }

    // Whether the device tells or not.
    ensures places { IfOk result (λ table. places_of table ≡ places_in inodes.now) }
    ensures covers { IfOk result (λ table. places_of table * 128 ≤ length table.bytes.items) }
    ensures bounded { OnOk result (inodes.now.size ≤ shape.count * shape.blocksize) }
    ensures cleared { OnOk result (leaves.new.items ≡ []) }
    ensures limit { limit_of met.new ≡ limit_of met.old }
    ensures more { count_of met.old ≤ count_of met.new }

    // Each block that is met is read once at most, and once more as a leaf.
    ensures looks { Looks halts.Device (2 * count_of met.old) (2 * count_of met.new) (D.outside host.old) (D.outside host.new) result }
{
    let visitor = Visitor {
        shape,
        inode: 0,
        bounded: true,
        keeps: true,
    };
    walk_node(host, &visitor, inodes, met, leaves)?;
    let table = InodeTable::read(alloc, host, shape, inodes, leaves)?;
    leaves.clear();
    Ok(table)
}

/// Walks the Longfile, and keeps its leaves as long names, none of them named yet. Beside them it answers what is noted of the node.
fn walk_longfile<D: Dev>(
    alloc: Global,
    host: &mut D,
    shape: Shape,
    longfile: &Root,
    met: &mut BlockSet,
    leaves: &mut Vec<LeafPlace>,
) -> Result<(LongNames, Option<u32>), Halt>
    requires met { limit_of met.old ≡ shape.count }
    requires leaves { leaves.old.items ≡ [] }
    requires fits { Fits shape (D.outside host.old) }
    ensures tests { (m : BlockMap) → Shows shape (D.outside host.new) m → GoesThrough (root_tests m longfile.now) result met.old met.new }
    ensures names { (m : BlockMap) (before : List ℕ) → Shows shape (D.outside host.new) m → Marks met.old before → IfOk result (λ told. HoldsNames m longfile.now [] told.0) }
    ensures nodes { (m : BlockMap) → Shows shape (D.outside host.new) m → IfOk result (λ told. told.1 ≡ note_if (is_foreign_root m longfile.now) 0 None) }

    // Whether the device tells or not.
    ensures inside { IfOk result (λ told. AreInside shape.count told.0) }
    ensures reach { OnOk result (IsInReach shape longfile.now) }
    ensures bounded { OnOk result (longfile.now.size ≤ shape.count * shape.blocksize) }
    ensures cleared { OnOk result (leaves.new.items ≡ []) }
    ensures limit { limit_of met.new ≡ limit_of met.old }
    ensures more { count_of met.old ≤ count_of met.new }
    ensures looks { Looks halts.Device (count_of met.old) (count_of met.new) (D.outside host.old) (D.outside host.new) result }
{
    let visitor = Visitor {
        shape,
        inode: 0,
        bounded: true,
        keeps: true,
    };
    let part = walk_node(host, &visitor, longfile, met, leaves)?;
    let longs = LongNames::new(alloc, shape, longfile, leaves)?;
    leaves.clear();
    let foreign = is_foreign_node(shape, longfile, part);
    Ok((longs, noted(None, foreign, 0)))
}

/// Goes through the tests of inode 1.
fn test_top(table: &InodeTable) -> Result<(), Halt>
    ensures tests { (m : BlockMap) (r : Roots) (met : Members) → HoldsInodes m r.inodes table.now → GoesThrough (top_tests m r) result met met }
    ensures some { OnOk result (0 < places_of table.now) }
    ensures directory { OnOk result (kind_of (inode_at table.now 1).mode ≡ Some kinds.Directory) }
    ensures no_fault { result ≢ Err halts.Device }
{
    if table.places() == 0 {
        return Err(Halt::Finding(Finding {
            code: Code::NoInode,
            inode: 1,
            block: ABSENT,
        }));
    }
    match Kind::of(table.inode(1).mode) {
        Some(Kind::Directory) => Ok(()),
        None | Some(Kind::File | Kind::Link | Kind::Special) => Err(Halt::Finding(Finding {
            code: Code::Kind,
            inode: 1,
            block: ABSENT,
        })),
    }
}

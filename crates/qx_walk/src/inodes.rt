//! The inodes of a tree, walked in the order in which they are listed.
ghost use Rattle.std.specs.Prelude.{◌≡◌, ◌<◌, ◌≤◌, ◌==◌, ◌&&◌, not, nat_lt, OnOk, Some, is_some, true};
ghost use Rattle.qx_nodes.specs.BlockMap.{BlockMap};
ghost use Rattle.qx_records.specs.declared.kind.Kind.TheVariants as kinds;
ghost use Rattle.qx_records.specs.InodeRecord.{kind_of};
ghost use Rattle.qx_view.specs.Images.{Roots};
ghost use Rattle.qx_view.specs.Walk.{inode_mode, inode_root};
ghost use Rattle.qx_walk.specs.Inodes.{Begins, Done, Remembers, WalksAll, WalksInode};
ghost use Rattle.qx_walk.specs.Steps.{AreWalked, Carries, IsUnderway};
ghost use Rattle.qx_pointers.specs.Parts.{IsInReach};
ghost use Rattle.qx_walk.specs.Trees.{IsWalkedInode};
ghost use Rattle.qx_pointers.specs.Shown.{Shows};
ghost use Rattle.qx_tables.specs.Tables.{HoldsInodes, inode_at, places_of, taken_in};

use crate::own_nodes::{is_foreign_directory, noted, walk_own_node};
use crate::{Directory, Ground, Seen, Way, walk_records};
use qx_geom::ABSENT;
use qx_outside::Dev;
use qx_pointers::Halt;
use qx_records::Kind;
use qx_tables::Queued;
use qx_view::{Code, Finding};

/// Walks the inodes that are listed and those that they list, each in its turn.
pub(crate) fn walk_inodes<D: Dev>(
    host: &mut D,
    ground: &Ground,
    way: &mut Way,
    seen: &mut Seen,
) -> Result<(), Halt>
    requires underway { IsUnderway ground.now way.old seen.old (D.outside host.old) }
    requires first { seen.old.listing.next ≡ 0 }
    ensures walked { (m : BlockMap) (r : Roots) → Shows ground.now.shape (D.outside host.new) m → HoldsInodes m r.inodes ground.now.table
        → Begins m r way.old seen.old → WalksAll m r result way.new seen.new }

    // Whether the device tells or not.
    ensures reached { OnOk result (AreWalked ground.now seen.new.listing.queue.items) }
    ensures carries { Carries ground.now 0 way.old way.new seen.old seen.new
        (D.outside host.old) (D.outside host.new) result }
{
    while let Some(queued) = seen.listing.take() {
        walk_inode(host, ground, queued, way, seen)?;
    }
    Ok(())
}

/// Walks an inode: its node, unless it is a special, the size of a link, and a directory's records.
fn walk_inode<D: Dev>(
    host: &mut D,
    ground: &Ground,
    queued: Queued,
    way: &mut Way,
    seen: &mut Seen,
) -> Result<(), Halt>
    requires there { (0 < queued.inode) × (queued.inode ≤ places_of ground.now.table) }
    requires underway { IsUnderway ground.now way.old seen.old (D.outside host.old) }
    ensures walked { (m : BlockMap) (r : Roots) (done : Done) → Shows ground.now.shape (D.outside host.new) m → HoldsInodes m r.inodes ground.now.table
        → Remembers m r done way.old seen.old → is_some (kind_of (inode_mode m r queued.inode)) ≡ true
        → WalksInode m r queued.inode queued.parent done result way.new seen.new }

    ensures next { seen.new.listing.next ≡ seen.old.listing.next }
    ensures taken { taken_in seen.new.listing ≡ taken_in seen.old.listing }
    ensures node { OnOk result (IsWalkedInode ground.now.shape (inode_at ground.now.table queued.inode)) }
    ensures carries { Carries ground.now 1 way.old way.new seen.old seen.new
        (D.outside host.old) (D.outside host.new) result }
{
    let inode = ground.table.inode(queued.inode);
    // The records that listed it were tested for its kind.
    let Some(kind) = Kind::of(inode.mode) else {
        return Ok(());
    };
    match kind {
        Kind::Special => Ok(()),
        Kind::File => {
            walk_own_node(host, ground.shape, queued.inode, &inode.root, false, way)?;
            Ok(())
        }
        Kind::Link => {
            walk_own_node(host, ground.shape, queued.inode, &inode.root, false, way)?;
            if !is_link_size(inode.root.size) {
                return Err(Halt::Finding(Finding {
                    code: Code::LinkSize,
                    inode: queued.inode,
                    block: ABSENT,
                }));
            }
            Ok(())
        }
        Kind::Directory => {
            let directory = Directory {
                inode: queued.inode,
                parent: queued.parent,
                node: inode.root,
            };
            walk_directory(host, ground, &directory, way, seen)
        }
    }
}

/// Whether a link's path may have so many bytes.
fn is_link_size(size: u64) -> bool
    ensures { result ≡ (not (size == 0) && nat_lt size 1024) }
{
    size != 0 && size < 1024
}

/// Walks the node of a directory and its records, and notes where they aren't as this project writes them.
fn walk_directory<D: Dev>(
    host: &mut D,
    ground: &Ground,
    directory: &Directory,
    way: &mut Way,
    seen: &mut Seen,
) -> Result<(), Halt>
    requires there { (0 < directory.now.inode) × (directory.now.inode ≤ places_of ground.now.table) }
    requires underway { IsUnderway ground.now way.old seen.old (D.outside host.old) }
    ensures walked { (m : BlockMap) (r : Roots) (done : Done) → Shows ground.now.shape (D.outside host.new) m → HoldsInodes m r.inodes ground.now.table
        → Remembers m r done way.old seen.old → kind_of (inode_mode m r directory.now.inode) ≡ Some kinds.Directory → directory.now.node ≡ inode_root m r directory.now.inode
        → WalksInode m r directory.now.inode directory.now.parent done result way.new seen.new }

    ensures next { seen.new.listing.next ≡ seen.old.listing.next }
    ensures taken { taken_in seen.new.listing ≡ taken_in seen.old.listing }
    ensures node { OnOk result (IsInReach ground.now.shape directory.now.node) }
    ensures carries { Carries ground.now 1 way.old way.new seen.old seen.new
        (D.outside host.old) (D.outside host.new) result }
{
    let part = walk_own_node(
        host,
        ground.shape,
        directory.inode,
        &directory.node,
        true,
        way,
    )?;
    let dots = walk_records(host, ground, directory, &way.leaves, seen)?;
    let foreign = is_foreign_directory(ground.shape, &directory.node, part);
    way.notes.nodes = noted(way.notes.nodes, foreign, directory.inode);
    way.notes.dots = noted(way.notes.dots, !dots, directory.inode);
    Ok(())
}

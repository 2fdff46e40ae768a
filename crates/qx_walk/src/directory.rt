//! The records of a directory, tested in order.
ghost use Rattle.std.specs.Prelude.{◌≡◌, ◌≢◌, ◌≤◌, ◌<◌, ◌*◌, ◌/◌, ◌-◌, ◌&&◌, ◌==◌, if◌then◌else◌, ℕ, List, All, IfOk, Err, Some, length, min};
ghost use Rattle.qx_blockset.specs.Members.{limit_of};
ghost use Rattle.qx_geom.specs.Lists.{is_in};
ghost use Rattle.qx_geom.specs.Pointer.{ceil_div};
ghost use Rattle.qx_model.specs.Tree.{is_dots};
ghost use Rattle.qx_nodes.specs.BlockMap.{BlockMap};
ghost use Rattle.qx_nodes.specs.Leaves.{Block, leaf_of};
ghost use Rattle.qx_records.specs.NameRecord.{Long};
ghost use Rattle.qx_records.specs.NameSum.{sum_fits};
ghost use Rattle.qx_records.specs.Slots.{raw_of_slot};
ghost use Rattle.qx_view.specs.Images.{Roots, leaf_records};
ghost use Rattle.qx_model.specs.Rooted.{is_plain};
ghost use Rattle.qx_view.specs.Sound.{is_short as is_short_record};
ghost use Rattle.qx_view.specs.Walk.{is_directory_kind};
ghost use Rattle.qx_pointers.specs.declared.halt.Halt.TheVariants as halts;
ghost use Rattle.qx_walk.specs.Kept.{Kept};
ghost use Rattle.qx_pointers.specs.Parts.{IsPlaced};
ghost use Rattle.qx_walk.specs.Rows.{Holds, NamesSome, WalksRecord, WalksRecords, WalksRow, WalksThrough, begins_with_dots, dots_in, record_place};
ghost use Rattle.qx_walk.specs.Steps.{IsReading, Lists, ListsInodes, leaf_reads};
ghost use Rattle.qx_pointers.specs.Shown.{Shows};
ghost use Rattle.qx_tables.specs.Tables.{AreLeaves, HasListed, HoldsInodes, HoldsNames, IsListing, places_of, taken_in};

use crate::{Directory, Ground, RecordPlace, Seen};
use qx_fields::Order;
use qx_outside::Dev;
use qx_pointers::{Halt, LeafPlace, Shape, read_block};
use qx_records::{Kind, Slot, name_sum, name_sum_signed, slot_at};
use qx_tables::Listing;
use qx_view::{Code, Finding};

/// Goes through the tests of a directory's records, and lists the inodes that they name.
/// Answers whether the first two are short ones with the names `.` and `..`; of a directory with a hole, or whose size is 0 or no multiple of the block size, this says nothing.
pub fn walk_records<D: Dev>(
    host: &mut D,
    ground: &Ground,
    directory: &Directory,
    leaves: &[LeafPlace],
    seen: &mut Seen,
) -> Result<bool, Halt>
    requires placed { All (IsPlaced ground.now.shape directory.now.node) leaves.now }
    requires there { (0 < directory.now.inode) × (directory.now.inode ≤ places_of ground.now.table) }
    requires reading { IsReading ground.now seen.old (D.outside host.old) }
    ensures walked { (m : BlockMap) (r : Roots) (queue : List (ℕ × ℕ)) (listed numbers : List ℕ)
        → Shows ground.now.shape (D.outside host.new) m
        → HoldsInodes m r.inodes ground.now.table → HoldsNames m r.longfile numbers seen.old.longs → HasListed queue listed seen.old.listing
        → AreLeaves m directory.now.node leaves.now → WalksRecords m r directory.now queue listed numbers result seen.new }

    // Whether the device tells or not.
    ensures lists { Lists ground.now (length leaves.now * leaf_reads ground.now.shape) seen.old seen.new
        (D.outside host.old) (D.outside host.new) result }
{
    seen.names.clear();
    let mut dots = false;
    for leaf in leaves {
        let begins = walk_leaf(host, ground, directory, *leaf, seen)?;
        dots = if leaf.index == 0 { begins } else { dots };
    }
    Ok(dots)
}

/// Goes through the tests of the records of a present leaf. Answers whether the first two are short ones with the names `.` and `..`.
fn walk_leaf<D: Dev>(
    host: &mut D,
    ground: &Ground,
    directory: &Directory,
    leaf: LeafPlace,
    seen: &mut Seen,
) -> Result<bool, Halt>
    requires placed { IsPlaced ground.now.shape directory.now.node leaf }
    requires there { (0 < directory.now.inode) × (directory.now.inode ≤ places_of ground.now.table) }
    requires reading { IsReading ground.now seen.old (D.outside host.old) }
    ensures walked { (m : BlockMap) (r : Roots) (kept : Kept) → Shows ground.now.shape (D.outside host.new) m
        → HoldsInodes m r.inodes ground.now.table → Holds m r.longfile kept seen.old → leaf_of m directory.now.node leaf.index ≡ Block leaf.block
        → WalksThrough m r directory.now (leaf_records m directory.now.node leaf.index) kept result seen.new }
    ensures dots { (m : BlockMap) → Shows ground.now.shape (D.outside host.new) m
        → leaf_of m directory.now.node leaf.index ≡ Block leaf.block
        → leaf.index ≡ 0 → IfOk result (λ begins. begins ≡ begins_with_dots m directory.now.node) }

    ensures lists { Lists ground.now (leaf_reads ground.now.shape) seen.old seen.new
        (D.outside host.old) (D.outside host.new) result }
{
    let mut buffer = [0; 4096];
    let block = &mut buffer[0..ground.shape.blocksize as usize];
    read_block(host, ground.shape, leaf.block, block)?;
    let at = RecordPlace {
        inode: directory.inode,
        parent: directory.parent,
        block: leaf.block,
    };
    for place in 0..records_below(ground.shape, directory.node.size, leaf.index) {
        let slot = slot_at(block, ground.shape.order, place);
        walk_record(host, ground, at, slot, seen)?;
    }
    Ok(begins_with_dots(block, ground.shape.order))
}

/// How many records of a leaf lie below a directory's size.
fn records_below(shape: Shape, size: u64, index: u64) -> usize
    requires { index < ceil_div size shape.blocksize }
    ensures { result ≡ min (shape.blocksize / 32) (size / 32 - index * (shape.blocksize / 32)) }
{
    let per_leaf = u64::from(shape.blocksize / 32);
    per_leaf.min(size / 32 - index * per_leaf) as usize
}

/// Whether the first two records of a block are short ones with the names `.` and `..`.
fn begins_with_dots(block: &[u8], order: Order) -> bool
    requires { 64 ≤ length block.now }
    ensures { result ≡ dots_in order block.now }
{
    is_short(slot_at(block, order, 0), b".") && is_short(slot_at(block, order, 1), b"..")
}

/// Whether a record is a short one with this name.
fn is_short(slot: Slot<'_>, wanted: &[u8]) -> bool
    ensures { result ≡ is_short_record (raw_of_slot slot.entry) wanted.now }
{
    match slot {
        Slot::Short { name, .. } => name == wanted,
        Slot::Unused | Slot::Long { .. } | Slot::Bad { .. } => false,
    }
}

/// Goes through the tests of a record.
fn walk_record<D: Dev>(
    host: &mut D,
    ground: &Ground,
    at: RecordPlace,
    slot: Slot<'_>,
    seen: &mut Seen,
) -> Result<(), Halt>
    requires named { NamesSome (raw_of_slot slot) }
    requires there { (0 < at.inode) × (at.inode ≤ places_of ground.now.table) }
    requires reading { IsReading ground.now seen.old (D.outside host.old) }
    ensures walked { (m : BlockMap) (r : Roots) (kept : Kept) → Shows ground.now.shape (D.outside host.new) m
        → HoldsInodes m r.inodes ground.now.table → Holds m r.longfile kept seen.old
        → WalksRecord m r (record_place at) (raw_of_slot slot.entry) kept result seen.new }

    ensures lists { Lists ground.now 1 seen.old seen.new
        (D.outside host.old) (D.outside host.new) result }
{
    match slot {
        Slot::Unused => Ok(()),
        Slot::Bad { .. } => Err(found(Code::Record, at)),
        Slot::Short { inode, name } => walk_row(ground, at, inode, name, seen),
        Slot::Long { inode, number, sum } => walk_long(host, ground, at, inode, number, sum, seen),
    }
}

/// Goes through the tests of a record whose name is a long one, and counts its number.
fn walk_long<D: Dev>(
    host: &mut D,
    ground: &Ground,
    at: RecordPlace,
    inode: u32,
    number: u32,
    sum: u32,
    seen: &mut Seen,
) -> Result<(), Halt>
    requires named { 0 < inode }
    requires there { (0 < at.inode) × (at.inode ≤ places_of ground.now.table) }
    requires reading { IsReading ground.now seen.old (D.outside host.old) }
    ensures walked { (m : BlockMap) (r : Roots) (kept : Kept) → Shows ground.now.shape (D.outside host.new) m
        → HoldsInodes m r.inodes ground.now.table → Holds m r.longfile kept seen.old
        → WalksRecord m r (record_place at) (Long inode number sum) kept result seen.new }

    ensures lists { Lists ground.now 1 seen.old seen.new
        (D.outside host.old) (D.outside host.new) result }
{
    let mut buffer = [0; 4096];
    let leaf = &mut buffer[0..ground.shape.blocksize as usize];
    let Some(name) = seen.longs.read(host, ground.shape, number, leaf)? else {
        return Err(found(Code::LongName, at));
    };
    if !is_sum_of(sum, name) {
        return Err(found(Code::LongSum, at));
    }
    walk_row(ground, at, inode, name, seen)?;
    seen.longs.count(number);
    Ok(())
}

/// Goes through the tests of a row with a name, and lists its inode unless the row is `.` or `..`.
fn walk_row(
    ground: &Ground,
    at: RecordPlace,
    inode: u32,
    name: &[u8],
    seen: &mut Seen,
) -> Result<(), Halt>
    requires named { 0 < inode }
    requires there { (0 < at.inode) × (at.inode ≤ places_of ground.now.table) }
    requires listing { IsListing (places_of ground.now.table) seen.old.listing }
    requires listed { ListsInodes ground.now seen.old.listing }
    ensures walked { (m : BlockMap) (r : Roots) (kept : Kept) → HoldsInodes m r.inodes ground.now.table
        → Holds m r.longfile kept seen.old
        → WalksRow m r (record_place at) inode name.now kept result seen.new }

    ensures longs { seen.new.longs ≡ seen.old.longs }
    ensures listing { IsListing (places_of ground.now.table) seen.new.listing }
    ensures listed { ListsInodes ground.now seen.new.listing }
    ensures next { seen.new.listing.next ≡ seen.old.listing.next }
    ensures taken { taken_in seen.new.listing ≡ taken_in seen.old.listing }
    ensures no_fault { result ≢ Err halts.Device }
{
    if !is_plain(name) {
        return Err(found(Code::NameByte, at));
    }
    if !seen.names.add(name)? {
        return Err(found(Code::SameName, at));
    }
    if is_dots(name) {
        if inode != wanted(at, name) {
            return Err(found(Code::Dots, at));
        }
        return Ok(());
    }
    if inode > ground.table.places() {
        return Err(found(Code::NoInode, at));
    }
    let Some(kind) = Kind::of(ground.table.inode(inode).mode) else {
        return Err(found(Code::Kind, at));
    };
    if is_again(kind, inode, &seen.listing) {
        return Err(found(Code::DirTwice, at));
    }
    seen.listing.put(inode, at.inode)
}

/// Whether a checksum is that of a name, whose bytes are unsigned or, as older kernels wrote it, signed.
fn is_sum_of(sum: u32, name: &[u8]) -> bool
    ensures { result ≡ sum_fits sum name.now }
{
    sum == name_sum(name) || sum == name_sum_signed(name)
}

/// The inode that a row `.` or `..` has to name.
fn wanted(at: RecordPlace, name: &[u8]) -> u32
    ensures { result ≡ (if length name.now == 1 then at.inode else at.parent) }
{
    if name.len() == 1 { at.inode } else { at.parent }
}

/// Whether an inode is a directory that was listed before.
fn is_again(kind: Kind, inode: u32, listing: &Listing) -> bool
    requires positive { 0 < inode }
    requires there { inode ≤ limit_of listing.now.listed }
    ensures { (queue : List (ℕ × ℕ)) (listed : List ℕ) → HasListed queue listed listing.now
        → result ≡ (is_directory_kind (Some kind) && is_in listed inode) }
{
    matches!(kind, Kind::Directory) && listing.has(inode)
}

/// The halt at a test that fails at a record.
fn found(code: Code, at: RecordPlace) -> Halt
    ensures { result ≡ halts.Finding (record { code = code; inode = at.inode; block = at.block }) }
{
    Halt::Finding(Finding {
        code,
        inode: at.inode,
        block: at.block,
    })
}

/// Whether a name has no byte 0 and no `/`.
fn is_plain(name: &[u8]) -> bool
    ensures { result ≡ is_plain name.now }
{
    name.iter().all(|byte| *byte != 0 && *byte != b'/')
}

/// Whether a name is `.` or `..`.
fn is_dots(name: &[u8]) -> bool
    ensures { result ≡ is_dots name.now }
{
    match name {
        [first] => *first == b'.',
        [first, second] => *first == b'.' && *second == b'.',
        _ => false,
    }
}

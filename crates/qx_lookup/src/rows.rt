//! The row of a directory that has a name.
ghost use Rattle.std.specs.Prelude.{◌≡◌, ◌≤◌, ◌<◌, ◌/◌, ◌*◌, ◌+◌, ℕ, IsTrue, IfOk, IfSome, Contains};
ghost use Rattle.qx_geom.specs.Pointer.{ceil_div};
ghost use Rattle.qx_nodes.specs.LongNames.{long_name};
ghost use Rattle.qx_nodes.specs.Visits.{visits_of};
ghost use Rattle.qx_blocks.specs.Calls.{OnlyReads};
ghost use Rattle.qx_ptree.specs.Trees.{HasLevels, IsWorking, block_map};
ghost use Rattle.qx_lookup.specs.Rows.{IsFirstRow, IsFoundAs, IsFoundIn, is_name, records_end, slot_in_block, slot_in};

use crate::spans::Span;
use qx_blocks::{Blocks, Stop};
use qx_dir::{Found, find};
use qx_fields::Order;
use qx_geom::Root;
use qx_long::get;
use qx_ptree::{Leaf, next_present};

/// A row of a directory: its record, the inode that it names, and the number of its name where that is a long one.
#[derive(Clone, Copy, Debug, PartialEq, Eq)]
pub struct FoundRow {
    pub record: u64,
    pub inode: u32,
    pub long: Option<u32>,
}

/// The first row with a name among the records below a directory's size. A record that says nothing has no name.
pub fn find_row<B: Blocks>(
    blocks: &mut B,
    node: &Root,
    longfile: &Root,
    order: Order,
    name: &[u8],
) -> Result<Option<FoundRow>, Stop>
    requires levels { HasLevels (B.state blocks.old).holdings.size node.now }
    requires works { IsTrue (B.state blocks.old).tells → IsWorking order (B.state blocks.old) node.now }
    requires long_levels { HasLevels (B.state blocks.old).holdings.size longfile.now }
    requires long_works { IsTrue (B.state blocks.old).tells → IsWorking order (B.state blocks.old) longfile.now }
    ensures row { IfOk result (λ found. IsTrue (B.state blocks.new).tells
        → IsFirstRow (slot_in (block_map order (B.state blocks.old)) longfile.now node.now) name.now 0 (node.now.size / 32) found) }
    ensures within { IfOk result (λ found. IfSome found (λ row. row.record < node.now.size / 32)) }

    ensures reads { OnlyReads B.state B.beside blocks.old blocks.new result }
{
    let _size = blocks.size();
    let mut from = 0;
    while let Some(leaf) = next_present(node, blocks, order, from)? {
        let found = find_in_leaf(blocks, node, longfile, order, leaf, name)?;
        if found.is_some() {
            return Ok(found);
        }
        from = leaf.index + 1;
    }
    Ok(None)
}

// The first row with a name among the records of a present leaf of a directory.
fn find_in_leaf<B: Blocks>(
    blocks: &mut B,
    node: &Root,
    longfile: &Root,
    order: Order,
    leaf: Leaf,
    name: &[u8],
) -> Result<Option<FoundRow>, Stop>
    requires works { IsTrue (B.state blocks.old).tells → IsWorking order (B.state blocks.old) node.now }
    requires long_levels { HasLevels (B.state blocks.old).holdings.size longfile.now }
    requires long_works { IsTrue (B.state blocks.old).tells → IsWorking order (B.state blocks.old) longfile.now }
    requires present { IsTrue (B.state blocks.old).tells → Contains (visits_of (block_map order (B.state blocks.old)) node.now) (record { level = 0; index = leaf.index; block = leaf.block }) }
    requires held { IsTrue ((B.state blocks.old).holdings.held leaf.block) }
    requires below { leaf.index < ceil_div node.now.size (B.state blocks.old).holdings.size }
    ensures row { IfOk result (λ found. IsTrue (B.state blocks.new).tells
        → IsFirstRow (slot_in (block_map order (B.state blocks.old)) longfile.now node.now) name.now
        (leaf.index * ((B.state blocks.old).holdings.size / 32)) (records_end (B.state blocks.old).holdings.size node.now.size leaf.index) found) }
    ensures within { IfOk result (λ found. IfSome found (λ row. row.record < node.now.size / 32)) }

    ensures reads { OnlyReads B.state B.beside blocks.old blocks.new result }
{
    let records = Span::of(blocks, node, leaf.index);
    let Some(row) = find_in_block(blocks, longfile, order, leaf.block, records.count(), name)?
    else {
        return Ok(None);
    };
    Ok(Some(FoundRow {
        record: records.first + row.record,
        ..row
    }))
}

// The first row with a name among so many first records of a block.
fn find_in_block<B: Blocks>(
    blocks: &mut B,
    longfile: &Root,
    order: Order,
    block: u32,
    count: usize,
    name: &[u8],
) -> Result<Option<FoundRow>, Stop>
    requires long_levels { HasLevels (B.state blocks.old).holdings.size longfile.now }
    requires long_works { IsTrue (B.state blocks.old).tells → IsWorking order (B.state blocks.old) longfile.now }
    requires held { IsTrue ((B.state blocks.old).holdings.held block) }
    requires count { 32 * count ≤ (B.state blocks.old).holdings.size }
    ensures row { IfOk result (λ found. IsTrue (B.state blocks.new).tells
        → IsFirstRow (slot_in_block order (long_name (block_map order (B.state blocks.old)) longfile.now) ((B.state blocks.old).bytes block)) name.now 0 count found) }
    ensures within { IfOk result (λ found. IfSome found (λ row. row.record < count)) }

    ensures reads { OnlyReads B.state B.beside blocks.old blocks.new result }
{
    let mut from = 0;
    while from < count {
        match find_from(blocks, order, block, from, count, name)? {
            Found::None => return Ok(None),
            Found::Name { place, inode } => {
                return Ok(Some(FoundRow {
                    record: place as u64,
                    inode,
                    long: None,
                }));
            }
            Found::Maybe {
                place,
                inode,
                number,
            } => {
                if has_name(blocks, longfile, order, number, name)? {
                    return Ok(Some(FoundRow {
                        record: place as u64,
                        inode,
                        long: Some(number),
                    }));
                }
                from = place + 1;
            }
        }
    }
    Ok(None)
}

// What a name is found as among the records of a block from one on, before another.
fn find_from<B: Blocks>(
    blocks: &mut B,
    order: Order,
    block: u32,
    from: usize,
    to: usize,
    name: &[u8],
) -> Result<Found, Stop>
    requires held { IsTrue ((B.state blocks.old).holdings.held block) }
    requires to { 32 * to ≤ (B.state blocks.old).holdings.size }
    ensures found { IfOk result (λ found. IsTrue (B.state blocks.new).tells
        → IsFoundAs order ((B.state blocks.old).bytes block) name.now from to found) }
    ensures between { IfOk result (λ found. IsFoundIn from to found) }

    ensures reads { OnlyReads B.state B.beside blocks.old blocks.new result }
{
    let bytes = blocks.read(block)?;
    Ok(find(&bytes[0..32 * to], order, from, name))
}

// Whether the long name of a number is this one.
fn has_name<B: Blocks>(
    blocks: &mut B,
    longfile: &Root,
    order: Order,
    number: u32,
    name: &[u8],
) -> Result<bool, Stop>
    requires levels { HasLevels (B.state blocks.old).holdings.size longfile.now }
    requires works { IsTrue (B.state blocks.old).tells → IsWorking order (B.state blocks.old) longfile.now }
    ensures same { IfOk result (λ same. IsTrue (B.state blocks.new).tells
        → same ≡ is_name name.now (long_name (block_map order (B.state blocks.old)) longfile.now number)) }

    ensures reads { OnlyReads B.state B.beside blocks.old blocks.new result }
{
    match get(blocks, longfile, order, number)? {
        Some(other) => Ok(other == name),
        None => Ok(false),
    }
}

//! The first unused record of a directory.
ghost use Rattle.std.specs.Prelude.{◌≡◌, ◌≤◌, ◌<◌, ◌/◌, ◌*◌, not, Some, IfOk, IfSome, IsTrue, Contains, position};
ghost use Rattle.qx_geom.specs.declared.root.Root.{Root};
ghost use Rattle.qx_geom.specs.Pointer.{ceil_div};
ghost use Rattle.qx_nodes.specs.Visits.{visits_of};
ghost use Rattle.qx_records.specs.Slots.{is_used, record_at};
ghost use Rattle.qx_model.specs.Directories.{is_unused};
ghost use Rattle.qx_model.specs.Tree.{Tree, slots_of};
ghost use Rattle.qx_blocks.specs.Calls.{OnlyReads};
ghost use Rattle.qx_ptree.specs.Trees.{HasLevels, IsWorking, block_map};
ghost use Rattle.qx_working.specs.Standing.{IsReadable, StandsForTree};
ghost use Rattle.qx_lookup.specs.Names.{directory_in};
ghost use Rattle.qx_lookup.specs.Rows.{records_end, slot_in};
ghost use Rattle.qx_lookup.specs.UnusedRecords.{IsFirstOf, says_unused};

use crate::named::directory;
use crate::spans::Span;
use qx_blocks::{Blocks, Stop};
use qx_dir::first_unused;
use qx_fields::Order;
use qx_geom::Root;
use qx_ptree::{Leaf, next_present};
use qx_working::Working;

/// The first unused record of a directory below its size, which may lie in a hole. What is no directory has none.
pub fn free_record<B: Blocks>(
    state: &Working,
    blocks: &mut B,
    dir: u32,
) -> Result<Option<u64>, Stop>
    requires readable { IsReadable (B.state blocks.old) state.now }
    ensures unused { IfOk result (λ found. IsTrue (B.state blocks.new).tells
        → (t : Tree) → StandsForTree (B.state blocks.old) state.now t → found ≡ position is_unused (slots_of t dir)) }
    ensures within { IfOk result (λ found. IfSome found (λ place.
        (node : Root) × (directory_in state.now.table.inodes dir ≡ Some node) × (place < node.size / 32))) }

    ensures reads { OnlyReads B.state B.beside blocks.old blocks.new result }
{
    let _size = blocks.size();
    let Some(node) = directory(state, dir) else {
        return Ok(None);
    };
    unused_record(blocks, &node, state.order)
}

// The first unused record below a directory's size. Whichever Longfile there is, it says nothing of unused records.
fn unused_record<B: Blocks>(blocks: &mut B, node: &Root, order: Order) -> Result<Option<u64>, Stop>
    requires levels { HasLevels (B.state blocks.old).holdings.size node.now }
    requires works { IsTrue (B.state blocks.old).tells → IsWorking order (B.state blocks.old) node.now }
    ensures unused { IfOk result (λ found. IsTrue (B.state blocks.new).tells
        → (longfile : Root) → IsFirstOf (λ k. says_unused (slot_in (block_map order (B.state blocks.old)) longfile node.now k)) 0 (node.now.size / 32) found) }
    ensures within { IfOk result (λ found. IfSome found (λ place. place < node.now.size / 32)) }

    ensures reads { OnlyReads B.state B.beside blocks.old blocks.new result }
{
    let records = blocks.size() as u64 / 32;
    let mut from = 0;
    while let Some(leaf) = next_present(node, blocks, order, from)? {
        // A hole's records are unused.
        if from < leaf.index {
            return Ok(Some(from * records));
        }
        let found = unused_in_leaf(blocks, node, order, leaf)?;
        if found.is_some() {
            return Ok(found);
        }
        from = leaf.index + 1;
    }
    let place = from * records;
    if place < node.size / 32 {
        return Ok(Some(place));
    }
    Ok(None)
}

// The first among the records of a present leaf.
fn unused_in_leaf<B: Blocks>(
    blocks: &mut B,
    node: &Root,
    order: Order,
    leaf: Leaf,
) -> Result<Option<u64>, Stop>
    requires works { IsTrue (B.state blocks.old).tells → IsWorking order (B.state blocks.old) node.now }
    requires present { IsTrue (B.state blocks.old).tells → Contains (visits_of (block_map order (B.state blocks.old)) node.now) (record { level = 0; index = leaf.index; block = leaf.block }) }
    requires held { IsTrue ((B.state blocks.old).holdings.held leaf.block) }
    requires below { leaf.index < ceil_div node.now.size (B.state blocks.old).holdings.size }
    ensures unused { IfOk result (λ found. IsTrue (B.state blocks.new).tells
        → (longfile : Root) → IsFirstOf (λ k. says_unused (slot_in (block_map order (B.state blocks.old)) longfile node.now k))
        (leaf.index * ((B.state blocks.old).holdings.size / 32)) (records_end (B.state blocks.old).holdings.size node.now.size leaf.index) found) }
    ensures within { IfOk result (λ found. IfSome found (λ place. place < node.now.size / 32)) }

    ensures reads { OnlyReads B.state B.beside blocks.old blocks.new result }
{
    let records = Span::of(blocks, node, leaf.index);
    let Some(place) = unused_in_block(blocks, order, leaf.block, records.count())? else {
        return Ok(None);
    };
    Ok(Some(records.first + place as u64))
}

// The first among so many first records of a block.
fn unused_in_block<B: Blocks>(
    blocks: &mut B,
    order: Order,
    block: u32,
    count: usize,
) -> Result<Option<usize>, Stop>
    requires held { IsTrue ((B.state blocks.old).holdings.held block) }
    requires count { 32 * count ≤ (B.state blocks.old).holdings.size }
    ensures unused { IfOk result (λ found. IsTrue (B.state blocks.new).tells
        → IsFirstOf (λ k. not (is_used (record_at order ((B.state blocks.old).bytes block) k).raw)) 0 count found) }
    ensures within { IfOk result (λ found. IfSome found (λ place. place < count)) }

    ensures reads { OnlyReads B.state B.beside blocks.old blocks.new result }
{
    let bytes = blocks.read(block)?;
    Ok(first_unused(&bytes[0..32 * count], order))
}

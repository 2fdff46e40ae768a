//! Whether a directory has no row but `.` and `..`.
ghost use Rattle.std.specs.Prelude.{◌≡◌, ◌≤◌, ◌<◌, ◌/◌, ◌*◌, ◌+◌, ◌&&◌, not, IsTrue, IfOk, Contains};
ghost use Rattle.qx_geom.specs.Pointer.{ceil_div};
ghost use Rattle.qx_nodes.specs.LongNames.{long_name};
ghost use Rattle.qx_nodes.specs.Visits.{visits_of};
ghost use Rattle.qx_records.specs.NameSum.{sum_fits};
ghost use Rattle.qx_records.specs.Slots.{raw_of_slot, record_at};
ghost use Rattle.qx_model.specs.Directories.{is_bare};
ghost use Rattle.qx_model.specs.Tree.{Tree, is_dots};
ghost use Rattle.qx_blocks.specs.Calls.{OnlyReads};
ghost use Rattle.qx_ptree.specs.Trees.{HasLevels, IsWorking, block_map};
ghost use Rattle.qx_working.specs.Standing.{IsReadable, StandsForTree};
ghost use Rattle.qx_lookup.specs.Links.{IsBareFrom, is_long_link, said_of, says_link};
ghost use Rattle.qx_lookup.specs.Rows.{records_end, slot_in, slot_in_block};

use crate::named::directory;
use crate::spans::Span;
use qx_blocks::{Blocks, Stop};
use qx_fields::Order;
use qx_geom::Root;
use qx_long::get;
use qx_ptree::{Leaf, next_present};
use qx_records::{Slot, name_sum, name_sum_signed, slot_at};
use qx_working::Working;

/// Whether a directory has no row but `.` and `..`. What is no directory has none.
pub fn is_bare<B: Blocks>(state: &Working, blocks: &mut B, dir: u32) -> Result<bool, Stop>
    requires readable { IsReadable (B.state blocks.old) state.now }
    ensures bare { IfOk result (λ bare. IsTrue (B.state blocks.new).tells
        → (t : Tree) → StandsForTree (B.state blocks.old) state.now t → bare ≡ is_bare t dir) }

    ensures reads { OnlyReads B.state B.beside blocks.old blocks.new result }
{
    let _size = blocks.size();
    let Some(node) = directory(state, dir) else {
        return Ok(true);
    };
    is_node_bare(blocks, &node, &state.long, state.order)
}

// Whether no record below a directory's size says another row.
fn is_node_bare<B: Blocks>(
    blocks: &mut B,
    node: &Root,
    longfile: &Root,
    order: Order,
) -> Result<bool, Stop>
    requires levels { HasLevels (B.state blocks.old).holdings.size node.now }
    requires works { IsTrue (B.state blocks.old).tells → IsWorking order (B.state blocks.old) node.now }
    requires long_levels { HasLevels (B.state blocks.old).holdings.size longfile.now }
    requires long_works { IsTrue (B.state blocks.old).tells → IsWorking order (B.state blocks.old) longfile.now }
    ensures bare { IfOk result (λ bare. IsTrue (B.state blocks.new).tells
        → IsBareFrom (slot_in (block_map order (B.state blocks.old)) longfile.now node.now) 0 (node.now.size / 32) bare) }

    ensures reads { OnlyReads B.state B.beside blocks.old blocks.new result }
{
    let _size = blocks.size();
    let mut from = 0;
    while let Some(leaf) = next_present(node, blocks, order, from)? {
        if !is_leaf_bare(blocks, node, longfile, order, leaf)? {
            return Ok(false);
        }
        from = leaf.index + 1;
    }
    Ok(true)
}

// The same of the records of a present leaf.
fn is_leaf_bare<B: Blocks>(
    blocks: &mut B,
    node: &Root,
    longfile: &Root,
    order: Order,
    leaf: Leaf,
) -> Result<bool, Stop>
    requires works { IsTrue (B.state blocks.old).tells → IsWorking order (B.state blocks.old) node.now }
    requires long_levels { HasLevels (B.state blocks.old).holdings.size longfile.now }
    requires long_works { IsTrue (B.state blocks.old).tells → IsWorking order (B.state blocks.old) longfile.now }
    requires present { IsTrue (B.state blocks.old).tells → Contains (visits_of (block_map order (B.state blocks.old)) node.now) (record { level = 0; index = leaf.index; block = leaf.block }) }
    requires held { IsTrue ((B.state blocks.old).holdings.held leaf.block) }
    requires below { leaf.index < ceil_div node.now.size (B.state blocks.old).holdings.size }
    ensures bare { IfOk result (λ bare. IsTrue (B.state blocks.new).tells
        → IsBareFrom (slot_in (block_map order (B.state blocks.old)) longfile.now node.now)
        (leaf.index * ((B.state blocks.old).holdings.size / 32)) (records_end (B.state blocks.old).holdings.size node.now.size leaf.index) bare) }

    ensures reads { OnlyReads B.state B.beside blocks.old blocks.new result }
{
    let records = Span::of(blocks, node, leaf.index);
    is_block_bare(blocks, longfile, order, leaf.block, records.count())
}

// The same of so many first records of a block.
fn is_block_bare<B: Blocks>(
    blocks: &mut B,
    longfile: &Root,
    order: Order,
    block: u32,
    count: usize,
) -> Result<bool, Stop>
    requires long_levels { HasLevels (B.state blocks.old).holdings.size longfile.now }
    requires long_works { IsTrue (B.state blocks.old).tells → IsWorking order (B.state blocks.old) longfile.now }
    requires held { IsTrue ((B.state blocks.old).holdings.held block) }
    requires count { 32 * count ≤ (B.state blocks.old).holdings.size }
    ensures bare { IfOk result (λ bare. IsTrue (B.state blocks.new).tells
        → IsBareFrom (slot_in_block order (long_name (block_map order (B.state blocks.old)) longfile.now) ((B.state blocks.old).bytes block)) 0 count bare) }

    ensures reads { OnlyReads B.state B.beside blocks.old blocks.new result }
{
    for place in 0..count {
        if is_link_at(blocks, longfile, order, block, place)? {
            return Ok(false);
        }
    }
    Ok(true)
}

// Whether a record of a block says a row that is neither `.` nor `..`.
fn is_link_at<B: Blocks>(
    blocks: &mut B,
    longfile: &Root,
    order: Order,
    block: u32,
    place: usize,
) -> Result<bool, Stop>
    requires long_levels { HasLevels (B.state blocks.old).holdings.size longfile.now }
    requires long_works { IsTrue (B.state blocks.old).tells → IsWorking order (B.state blocks.old) longfile.now }
    requires held { IsTrue ((B.state blocks.old).holdings.held block) }
    requires within { place * 32 + 32 ≤ (B.state blocks.old).holdings.size }
    ensures link { IfOk result (λ link. IsTrue (B.state blocks.new).tells
        → link ≡ says_link (slot_in_block order (long_name (block_map order (B.state blocks.old)) longfile.now) ((B.state blocks.old).bytes block) place)) }

    ensures reads { OnlyReads B.state B.beside blocks.old blocks.new result }
{
    match said_at(blocks, order, block, place)? {
        Said::Nothing => Ok(false),
        Said::Link => Ok(true),
        Said::Long { number, sum } => is_long_link(blocks, longfile, order, number, sum),
    }
}

/// What a record says by itself: no row but `.` or `..`, another row, or one whose long name has to be looked at.
#[derive(Clone, Copy)]
pub enum Said {
    Nothing,
    Link,
    Long { number: u32, sum: u32 },
}

// What a record of a block says by itself.
fn said_at<B: Blocks>(blocks: &mut B, order: Order, block: u32, place: usize) -> Result<Said, Stop>
    requires held { IsTrue ((B.state blocks.old).holdings.held block) }
    requires within { place * 32 + 32 ≤ (B.state blocks.old).holdings.size }
    ensures said { IfOk result (λ said. IsTrue (B.state blocks.new).tells
        → said ≡ said_of (record_at order ((B.state blocks.old).bytes block) place).raw) }

    ensures reads { OnlyReads B.state B.beside blocks.old blocks.new result }
{
    let bytes = blocks.read(block)?;
    Ok(said_by(slot_at(bytes, order, place)))
}

// What a record that was read says.
fn said_by(slot: Slot<'_>) -> Said
    ensures { result ≡ said_of (raw_of_slot slot.entry) }
{
    match slot {
        Slot::Unused | Slot::Bad { .. } => Said::Nothing,
        Slot::Short { name, .. } => {
            if is_dots(name) {
                Said::Nothing
            } else {
                Said::Link
            }
        }
        Slot::Long { number, sum, .. } => Said::Long { number, sum },
    }
}

// Whether the long name of a number has this checksum and is neither `.` nor `..`.
fn is_long_link<B: Blocks>(
    blocks: &mut B,
    longfile: &Root,
    order: Order,
    number: u32,
    sum: u32,
) -> Result<bool, Stop>
    requires levels { HasLevels (B.state blocks.old).holdings.size longfile.now }
    requires works { IsTrue (B.state blocks.old).tells → IsWorking order (B.state blocks.old) longfile.now }
    ensures link { IfOk result (λ link. IsTrue (B.state blocks.new).tells
        → link ≡ is_long_link sum (long_name (block_map order (B.state blocks.old)) longfile.now number)) }

    ensures reads { OnlyReads B.state B.beside blocks.old blocks.new result }
{
    match get(blocks, longfile, order, number)? {
        Some(name) => Ok(is_link_name(name, sum)),
        None => Ok(false),
    }
}

// Whether a name has this checksum, by unsigned or by signed bytes, and is neither `.` nor `..`.
fn is_link_name(name: &[u8], sum: u32) -> bool
    ensures { result ≡ (sum_fits sum name.now && not (is_dots name.now)) }
{
    let fits = sum == name_sum(name) || sum == name_sum_signed(name);
    fits && !is_dots(name)
}

// Whether a name is `.` or `..`.
fn is_dots(name: &[u8]) -> bool
    ensures { result ≡ is_dots name.now }
{
    match name {
        [first] => *first == b'.',
        [first, second] => *first == b'.' && *second == b'.',
        _ => false,
    }
}

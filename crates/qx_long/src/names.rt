//! A long name by its number.
ghost use Rattle.std.specs.Prelude.{◌≡◌, ◌<◌, ◌≤◌, length, IfOk, IfSome, IsTrue};
ghost use Rattle.std.specs.Borrow.{sem};
ghost use Rattle.std.specs.Io.BufRead.{Rests};
ghost use Rattle.std.specs.Option.{option_copied};
ghost use Rattle.qx_blocks.specs.Calls.{OnlyReads};
ghost use Rattle.qx_ptree.specs.Trees.{HasLevels, IsWorking, block_map};
ghost use Rattle.qx_nodes.specs.LongNames.{long_name};

use qx_blocks::{Blocks, Stop};
use qx_fields::Order;
use qx_geom::Root;
use qx_ptree::leaf;
use qx_records::LongView;

// The blocks come first, where other calls take the node: what a call leaves once its loan is over is proved for its first parameter.
/// Lends the long name of a number, or answers `None` where its leaf lies past the Longfile's size, is a hole or has no long name.
pub fn get<'a, B: Blocks>(
    blocks: &'a mut B,
    long: &Root,
    order: Order,
    number: u32,
) -> Result<Option<&'a [u8]>, Stop>
    requires levels { HasLevels (B.state blocks.old).holdings.size long.now }
    requires works { IsTrue (B.state blocks.old).tells → IsWorking order (B.state blocks.old) long.now }
    ensures short { IfOk result (λ name.
        IfSome name (λ lent. (0 < length lent.now) × (length lent.now ≤ 510))) }
    // What holds once the name is no longer lent.
    ensures* leaves { sem 𝓛 (Rests B.row blocks.entry (λ new.
        OnlyReads B.state B.beside blocks.old new result
        × IfOk result (λ name. IsTrue (B.state new).tells → option_copied name ≡ long_name (block_map order (B.state blocks.old)) long.now number))) }
{
    if u64::from(number) * blocks.size() as u64 >= long.size {
        return Ok(None);
    }
    match leaf(long, blocks, order, u64::from(number))? {
        Some(block) => Ok(LongView::read(blocks.read(block)?, order)),
        None => Ok(None),
    }
}

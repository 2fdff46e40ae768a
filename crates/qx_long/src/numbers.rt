//! The number of a new long name.
ghost use Rattle.std.specs.Prelude.{◌≡◌, ◌<◌, ◌≤◌, ◌^◌, ℕ, true, Ok, Err, IfOk, IsTrue};
ghost use Rattle.qx_geom.specs.Lists.{is_in};
ghost use Rattle.qx_nodes.specs.Visits.{present_of};
ghost use Rattle.qx_blocks.specs.Calls.{OnlyReads};
ghost use Rattle.qx_ptree.specs.Trees.{HasLevels, IsWorking, block_map};
ghost use Rattle.qx_long.specs.AbsentNumbers.{HasAbsent, IsAbsent};

use qx_blocks::{Blocks, Stop};
use qx_fields::Order;
use qx_geom::Root;
use qx_ptree::first_hole;

/// The least number whose leaf is a hole of the Longfile or lies past its size. Where a device tells nothing and shows a leaf for each number, it is `NoMemory`.
pub fn first_absent<B: Blocks>(long: &Root, blocks: &mut B, order: Order) -> Result<u32, Stop>
    requires levels { HasLevels (B.state blocks.old).holdings.size long.now }
    requires works { IsTrue (B.state blocks.old).tells → IsWorking order (B.state blocks.old) long.now }
    requires room { IsTrue (B.state blocks.old).tells
        → HasAbsent (block_map order (B.state blocks.old)) long.now }
    ensures absent { IfOk result (λ number. IsTrue (B.state blocks.new).tells
        → IsAbsent (block_map order (B.state blocks.old)) long.now number) }
    ensures least { IfOk result (λ number. IsTrue (B.state blocks.new).tells → (i : ℕ) → i < number
        → is_in (present_of (block_map order (B.state blocks.old)) long.now) i ≡ true) }

    ensures reads { OnlyReads B.state B.beside blocks.old blocks.new result }
{
    number_of(first_hole(long, blocks, order)?)
}

// The number of a leaf. There are none from 2^32 on.
fn number_of(leaf: u64) -> Result<u32, Stop>
    ensures fits { leaf < 2 ^ 32 → result ≡ Ok leaf }
    ensures past { 2 ^ 32 ≤ leaf → result ≡ Err Stop.NoMemory }
{
    match u32::try_from(leaf) {
        Ok(number) => Ok(number),
        Err(_) => Err(Stop::NoMemory),
    }
}

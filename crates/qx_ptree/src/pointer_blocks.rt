//! A pointer block that is to have other pointers: it is taken, or gets them by the commit, or is given up.
ghost use Rattle.std.specs.Prelude.{◌≡◌, ◌<◌, ◌+◌, ◌-◌, ◌^◌, ℕ, ◌∷◌, ◌++◌, [], length, IfOk, OnOk, OnErr, IsTrue, slice_index};
ghost use Rattle.qx_geom.specs.Pointer.{absent, per_block};
ghost use Rattle.qx_blocks.specs.Beside.{LeavesBeside};
ghost use Rattle.qx_blocks.specs.Calls.{Keeps, MakesReady};
ghost use Rattle.qx_ptree.specs.Building.{WritesBlock, pointer_bytes};
ghost use Rattle.qx_ptree.specs.PreparedNode.{Prepares};
ghost use Rattle.qx_ptree.specs.Takings.{Adds, Takes};

use crate::work::Work;
use qx_blocks::{Blocks, Stop};
use qx_fields::{Order, put32s};
use qx_geom::ABSENT;
use std::alloc::Global;

// Prepares a pointer block that is to have these pointers, and answers the pointer to it.
pub(crate) fn prepare_block<B: Blocks>(
    alloc: Global,
    blocks: &mut B,
    order: Order,
    work: &mut Work,
    pointer: u32,
    pointers: &[u32],
    changed: bool,
    present: bool,
) -> Result<u32, Stop>
    requires leads { ¬ (pointer ≡ absent) → IsTrue ((B.state blocks.old).holdings.works pointer) }
    requires long { length pointers.now ≡ per_block (B.state blocks.old).holdings.size }
    ensures fit { (v : ℕ) → slice_index pointers.now v < 2 ^ 32 }
    ensures written { IfOk result (λ b. WritesBlock order (B.state blocks.old) (B.state blocks.new)
        work.old work.new pointer pointers.now changed present b) }

    ensures err { OnErr result (Adds (B.state blocks.old) (B.state blocks.new) work.old work.new) }
    ensures others { LeavesBeside (B.beside blocks.old) (B.beside blocks.new) result }
{
    let had = pointer != ABSENT;
    if !present {
        if had {
            work.give_up(pointer)?;
        }
        return Ok(ABSENT);
    }
    if !had {
        return take_filled(blocks, order, work, pointers);
    }
    if !changed {
        return Ok(pointer);
    }
    if blocks.is_private(pointer) {
        edit_block(alloc, blocks, order, work, pointer, pointers)?;
        return Ok(pointer);
    }
    let b = take_filled(blocks, order, work, pointers)?;
    work.give_up(pointer)?;
    Ok(b)
}

// Takes a block that has these pointers.
fn take_filled<B: Blocks>(
    blocks: &mut B,
    order: Order,
    work: &mut Work,
    pointers: &[u32],
) -> Result<u32, Stop>
    requires long { length pointers.now ≡ per_block (B.state blocks.old).holdings.size }
    ensures takes { IfOk result (λ b. Takes (b ∷ []) (B.state blocks.old) (B.state blocks.new)) }
    ensures bytes { IfOk result (λ b. (B.state blocks.new).bytes b ≡ pointer_bytes order pointers.now) }
    ensures noted { IfOk result (λ b. work.new ≡ record work.old { fresh = work.old.fresh ++ b ∷ [] }) }

    ensures err { OnErr result (Keeps (B.state blocks.old) (B.state blocks.new)) }
    ensures same { OnErr result (work.new ≡ work.old) }
    ensures others { LeavesBeside (B.beside blocks.old) (B.beside blocks.new) result }
{
    let b = work.take(blocks)?;
    put32s(order, blocks.edit(b), 0, pointers);
    Ok(b)
}

// The commit is to give these pointers to a block that stays where it is.
fn edit_block<B: Blocks>(
    alloc: Global,
    blocks: &mut B,
    order: Order,
    work: &mut Work,
    pointer: u32,
    pointers: &[u32],
) -> Result<(), Stop>
    requires private { IsTrue ((B.state blocks.old).holdings.private pointer) }
    requires long { length pointers.now ≡ per_block (B.state blocks.old).holdings.size }
    ensures ready { OnOk result (MakesReady pointer (B.state blocks.old) (B.state blocks.new)) }
    ensures noted { OnOk result (work.new ≡ record work.old {
      edits = work.old.edits ++ (record { block = pointer; bytes = pointer_bytes order pointers.now }) ∷ [];
      kept = work.old.kept ++ pointer ∷ [];
    }) }

    ensures err { OnErr result (Adds (B.state blocks.old) (B.state blocks.new) work.old work.new) }
    ensures others { LeavesBeside (B.beside blocks.old) (B.beside blocks.new) result }
{
    let mut bytes = vec![in alloc; 0; blocks.size()]?;
    put32s(order, bytes.as_mut_slice(), 0, pointers);
    work.keep(blocks, pointer)?;
    work.edit_later(pointer, bytes)
}

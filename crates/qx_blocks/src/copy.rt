//! A block copied into a fresh one.
ghost use Rattle.std.specs.Prelude.{◌≡◌, ◌<◌, false, IsTrue, IfOk, OnErr};
ghost use Rattle.qx_blocks.specs.BlockState.{with_bytes, with_fresh};
ghost use Rattle.qx_blocks.specs.Beside.{LeavesBeside};
ghost use Rattle.qx_blocks.specs.Calls.{Keeps};

use crate::{Blocks, Stop};

/// Takes a fresh block that has the bytes of another.
pub fn fresh_copy<B: Blocks>(blocks: &mut B, from: u32) -> Result<u32, Stop>
    requires held { IsTrue ((B.state blocks.old).holdings.held from) }
    requires room { 0 < (B.state blocks.old).holdings.free }
    ensures unheld { IfOk result (λ to. (B.state blocks.old).holdings.held to ≡ false) }
    ensures holdings { IfOk result (λ to.
        (B.state blocks.new).holdings ≡ (with_fresh (B.state blocks.old) to).holdings) }

    // Every block's bytes, where they are still told.
    ensures told { IfOk result (λ to. IsTrue (B.state blocks.new).tells
        → B.state blocks.new ≡ with_bytes (with_fresh (B.state blocks.old) to) to ((B.state blocks.old).bytes from)) }

    // A ready block's bytes, also where others are told no more.
    ensures ready { IfOk result (λ to. (b : _) → IsTrue ((B.state blocks.old).holdings.ready b)
        → (B.state blocks.new).bytes b ≡ (B.state blocks.old).bytes b) }
    ensures copied { IfOk result (λ to. IsTrue ((B.state blocks.old).holdings.ready from)
        → (B.state blocks.new).bytes to ≡ (B.state blocks.old).bytes from) }

    ensures err { OnErr result (Keeps (B.state blocks.old) (B.state blocks.new)) }
    ensures others { LeavesBeside (B.beside blocks.old) (B.beside blocks.new) result }
{
    let mut buffer = [0; 4096];
    let size = blocks.size();
    let lent = blocks.read(from)?;
    buffer[..size].copy_from_slice(lent);
    let to = blocks.fresh()?;
    blocks.edit(to).copy_from_slice(&buffer[..size]);
    Ok(to)
}

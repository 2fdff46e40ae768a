//! Bytes are put into nodes that were changed.
ghost use Rattle.std.specs.Prelude.{◌≡◌, ℕ, List, length, Contains};
ghost use Rattle.qx_blocks.specs.BlockState.{BlockState};
ghost use Rattle.qx_batch.specs.declared.planned.Planned.{Planned};
ghost use Rattle.qx_batch.specs.Nodes.{AreNodesOf};
ghost use Rattle.qx_batch.specs.PutNodes.{put_content};
ghost use Rattle.qx_copies.specs.Copies.{Contents, node_in};
ghost use Rattle.qx_working.specs.declared.working.Working.{Working};
ghost use Rattle.qx_working.specs.States.{copy_of};
ghost use Rattle.qx_changes.specs.Made.{AreWritten, CanPutInto, Writes, with_content};
ghost use Rattle.qx_changes.specs.PutBytes.{bytes_of};

use qx_blocks::Blocks;
use qx_file::{put, put_fill};
use qx_working::Working;

/// Bytes that are to be put.
#[derive(Clone, Copy, Debug)]
pub enum Bytes<'a> {
    /// These.
    These(&'a [u8]),
    /// One byte, so many times.
    Same { byte: u8, count: u64 },
}

impl Bytes<'_> {
    /// How many they are.
    pub fn count(self) -> u64
        ensures { result ≡ length (bytes_of self.entry) }
    {
        match self {
            Bytes::These(bytes) => bytes.len() as u64,
            Bytes::Same { count, .. } => count,
        }
    }
}

/// Puts bytes from byte `at` on into leaves that a change of the number's node wrote.
pub fn put_bytes<B: Blocks>(state: &Working, blocks: &mut B, owner: u32, at: u64, bytes: Bytes<'_>)
    requires { CanPutInto (B.state blocks.old) state.now owner at (length (bytes_of bytes)) }
    ensures written { (old : BlockState) (w : Working) (ps : List Planned) (held : Contents) (p : Planned) → AreNodesOf (node_in (copy_of w)) ps → AreWritten old (B.state blocks.old) w state.now ps held
        → Contains ps p → Writes old.holdings.size p owner at (length (bytes_of bytes.entry))
        → AreWritten old (B.state blocks.new) w state.now ps (with_content held owner (put_content old.holdings.size at (bytes_of bytes.entry) (held owner))) }

    ensures others { B.beside blocks.new ≡ B.beside blocks.old }
{
    // Only this says that the blocks are consistent.
    let _ = blocks.size();
    let Some(node) = state.node(owner) else {
        return;
    };
    match bytes {
        Bytes::These(bytes) => put(&node, blocks, state.order, at, bytes),
        Bytes::Same { byte, count } => put_fill(&node, blocks, state.order, at, count, byte),
    }
}

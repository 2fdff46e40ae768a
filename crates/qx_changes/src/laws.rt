//! What changes that were made leave of a working state.
ghost use Rattle.std.specs.Prelude.{ℕ, ◌+◌, ◌^◌, ◌≤◌, List, IsTrue, Contains};
ghost use Rattle.qx_blocks.specs.BlockState.{BlockState};
ghost use Rattle.qx_file.specs.Puts.{leaves_end};
ghost use Rattle.qx_batch.specs.declared.planned.Planned.{Planned};
ghost use Rattle.qx_batch.specs.Nodes.{AreLaid, AreNodesOf};
ghost use Rattle.qx_copies.specs.Copies.{Contents, node_in};
ghost use Rattle.qx_working.specs.declared.working.Working.{Working};
ghost use Rattle.qx_working.specs.Standing.{IsReadable};
ghost use Rattle.qx_working.specs.States.{copy_of};
ghost use Rattle.qx_changes.specs.Made.{AreWritten, CanPutInto, Writes};

/// A state that could be read can be read after changes to sizes within the format's bound of 2^48 bytes.
pub fn a_state_stays_readable()
    ensures { (old new : BlockState) (w after : Working) (ps : List Planned) (held : Contents) → IsReadable old w → AreNodesOf (node_in (copy_of w)) ps → AreWritten old new w after ps held
        → (IsTrue new.tells → AreLaid w.order old (node_in (copy_of w))) → ((p : Planned) → Contains ps p → p.change.size ≤ 2 ^ 48) → IsReadable new after }
{}

/// Bytes can be put into the leaves that a change wrote, up to the end of the last one.
pub fn what_was_written_takes_bytes()
    ensures { (old new : BlockState) (w after : Working) (ps : List Planned) (held : Contents) (p : Planned) (owner at count : ℕ) → AreNodesOf (node_in (copy_of w)) ps → AreWritten old new w after ps held
        → Contains ps p → Writes old.holdings.size p owner at count → at + count ≤ leaves_end old.holdings.size p.change.size → CanPutInto new after owner at count }
{}

//! Callers that know the trait alone, and blocks in memory under them.
ghost use Rattle.std.specs.Prelude.{◌≡◌, ◌-◌, ◌<◌, ◌≤◌, ℕ, length, IsTrue, IfOk, OnOk, OnErr, slice_index, slice_set};
ghost use Rattle.qx_blocks.specs.BlockState.{with_bytes, with_ready};
ghost use Rattle.qx_blocks.specs.Beside.{LeavesBeside};
ghost use Rattle.qx_blocks.specs.Calls.{Keeps, OnlyReads};
ghost use Rattle.qx_blocks.specs.Growth.{Grows};

use qx_blocks::{Blocks, MemBlocks, Stop, fresh_copy};
use std::test::Fail;

// The last byte of a block.
fn last_byte<B: Blocks>(blocks: &mut B, b: u32) -> Result<u8, Stop>
    requires { IsTrue ((B.state blocks.old).holdings.held b) }
    ensures told { IfOk result (λ byte. IsTrue (B.state blocks.new).tells
        → byte ≡ slice_index ((B.state blocks.old).bytes b) ((B.state blocks.old).holdings.size - 1)) }
    ensures ready { IfOk result (λ byte. IsTrue ((B.state blocks.old).holdings.ready b)
        → byte ≡ slice_index ((B.state blocks.old).bytes b) ((B.state blocks.old).holdings.size - 1)) }
    ensures reads { OnlyReads B.state B.beside blocks.old blocks.new result }
{
    let size = blocks.size();
    let lent = blocks.read(b)?;
    Ok(lent[size - 1])
}

// Sets the last byte of a private block.
fn set_last<B: Blocks>(blocks: &mut B, b: u32, value: u8) -> Result<(), Stop>
    requires { IsTrue ((B.state blocks.old).holdings.private b) }
    ensures holdings { OnOk result
        ((B.state blocks.new).holdings ≡ (with_ready (B.state blocks.old) b).holdings) }
    ensures told { OnOk result (IsTrue (B.state blocks.new).tells
        → B.state blocks.new ≡ with_bytes (with_ready (B.state blocks.old) b) b (slice_set ((B.state blocks.old).bytes b) ((B.state blocks.old).holdings.size - 1) value)) }
    ensures err { OnErr result (Keeps (B.state blocks.old) (B.state blocks.new)) }
    ensures others { LeavesBeside (B.beside blocks.old) (B.beside blocks.new) result }
{
    let size = blocks.size();
    blocks.ready(b)?;
    blocks.edit(b)[size - 1] = value;
    Ok(())
}

// Copies each block into a fresh one.
fn copy_each<B: Blocks>(blocks: &mut B, from: &[u32], into: &mut [u32]) -> Result<(), Stop>
    requires long { length from.now ≡ length into.old }
    requires held { (k : ℕ) → k < length from.now
        → IsTrue ((B.state blocks.old).holdings.held (slice_index from.now k)) }
    requires room { length from.now ≤ (B.state blocks.old).holdings.free }
    ensures grows { OnOk result (Grows (length from.now) (B.state blocks.old) (B.state blocks.new)) }
    ensures taken { OnOk result ((k : ℕ) → k < length from.now
        → IsTrue ((B.state blocks.new).holdings.held (slice_index into.new k))) }
    ensures copies { OnOk result (IsTrue (B.state blocks.new).tells → (k : ℕ) → k < length from.now
        → (B.state blocks.new).bytes (slice_index into.new k) ≡ (B.state blocks.old).bytes (slice_index from.now k)) }
    ensures others { LeavesBeside (B.beside blocks.old) (B.beside blocks.new) result }
{
    for (i, b) in from.iter().enumerate() {
        into[i] = fresh_copy(blocks, *b)?;
    }
    Ok(())
}

// The last bytes of a block and of its copy, which was written.
fn bytes_of_a_copy<B: Blocks>(blocks: &mut B) -> Result<[u8; 2], Stop>
    requires { 1 < (B.state blocks.old).holdings.free }
{
    let block = blocks.fresh()?;
    set_last(blocks, block, 7)?;
    let copy = fresh_copy(blocks, block)?;
    set_last(blocks, copy, 9)?;
    Ok([last_byte(blocks, block)?, last_byte(blocks, copy)?])
}

// The last byte of a block that was written, given up and taken again.
fn byte_taken_again<B: Blocks>(blocks: &mut B) -> Result<u8, Stop>
    requires { 0 < (B.state blocks.old).holdings.free }
{
    let block = blocks.fresh()?;
    set_last(blocks, block, 5)?;
    blocks.release(block);
    let again = blocks.fresh()?;
    last_byte(blocks, again)
}

// The last byte of the second of two copies of a block.
fn byte_of_copies<B: Blocks>(blocks: &mut B) -> Result<u8, Stop>
    requires { 2 < (B.state blocks.old).holdings.free }
{
    let block = blocks.fresh()?;
    set_last(blocks, block, 3)?;
    let mut copies = [0; 2];
    copy_each(blocks, &[block, block], &mut copies)?;
    last_byte(blocks, copies[1])
}

#[test]
fn calls_through_the_trait_answer_with_ample_memory(rt: HostRuntime) -> Result<(), Fail> {
    for size in [512, 4096] {
        let mut blocks = MemBlocks::new(rt.alloc(), size, 3)?;
        assert_eq!(rt; byte_taken_again(&mut blocks)?, 0);
        let mut blocks = MemBlocks::new(rt.alloc(), size, 3)?;
        assert_eq!(rt; bytes_of_a_copy(&mut blocks)?, [7, 9]);
        let mut blocks = MemBlocks::new(rt.alloc(), size, 3)?;
        assert_eq!(rt; byte_of_copies(&mut blocks)?, 3);
        assert_eq!(rt; blocks.free(), 0);
        for (block, works) in [(0, true), (2, true), (3, false), (u32::MAX, false)] {
            assert_eq!(rt; blocks.works(block), works);
            assert_eq!(rt; blocks.is_private(block), works);
        }
    }
    Ok(())
}

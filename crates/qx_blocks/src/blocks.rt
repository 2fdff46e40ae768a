//! Blocks that are read, taken, written and given up by number.
ghost use Rattle.std.specs.Prelude.{◌≡◌, ◌<◌, ℕ, Bool, List, false, is_ok, length, IsTrue, IfOk, IfErr, OnOk, OnErr};
ghost use Rattle.std.specs.Borrow.{sem, Lends, Array, u8 as byte};
ghost use Rattle.std.specs.Io.BufRead.{Rests};
ghost use Rattle.qx_blocks.specs.BlockState.{BlockState, IsConsistent, with_bytes, with_fresh, without};
ghost use Rattle.qx_blocks.specs.Beside.{Beside, LeavesBeside};
ghost use Rattle.qx_blocks.specs.Calls.{Keeps, MakesReady, OnlyReads};

use std::alloc::AllocError;

/// Why a call on blocks gave up.
#[derive(Clone, Copy, Debug, PartialEq, Eq)]
pub enum Stop {
    /// The device failed.
    Device,
    /// There is no memory.
    NoMemory,
}

impl From<AllocError> for Stop {
    ghost use Rattle.qx_blocks.specs.declared.blocks.Stop.TheVariants.{NoMemory};

    ghost from_gives = { λ _ stop. stop ≡ NoMemory };

    fn from(_: AllocError) -> Stop {
        Stop::NoMemory
    }
}

/// The blocks of a volume, as one working tree holds and changes them. Other trees may hold some of them too.
pub trait Blocks {
    /// Who holds each block, and what its bytes are.
    ghost state: { Self → BlockState };

    /// What else an implementer keeps that none of these calls changes.
    ghost Aside: { Type 0 } = { Unit {0} };

    /// What it keeps beside, such as which blocks other trees hold, and how often the device failed.
    ghost beside: { Self → Beside Self.Aside };

    /// The blocks once block b was lent for writing and got these bytes.
    ghost edited: { Self → ℕ → List ℕ → Self };

    /// What else a read of block b leaves of the implementer, before and after, by whether it is Ok: such as what it keeps in memory.
    ghost read_leaves: { Self → ℕ → Bool → Self → Type 0 } = { λ _ _ _ _. Unit {0} };

    /// The bytes of a block. No call changes it.
    fn size(&self) -> usize
        ensures size { result ≡ (state self.now).holdings.size }
        ensures consistent { IsConsistent (state self.now) };

    /// Lends the bytes of a block that some tree holds.
    fn read(&mut self, b: u32) -> Result<&[u8], Stop>
        requires { IsTrue ((state self.old).holdings.held b) }
        ensures long { IfOk result (λ lent. length lent.now ≡ (state self.old).holdings.size) }
        ensures ready { IfOk result (λ lent. IsTrue ((state self.old).holdings.ready b)
            → lent.now ≡ (state self.old).bytes b) }
        ensures* leaves { sem 𝓛 (Rests Self.row self.entry (λ new.
            OnlyReads state beside self.old new result
            × IfOk result (λ lent. IsTrue (state new).tells → lent.now ≡ (state self.old).bytes b)
            × read_leaves self.old b (is_ok result) new)) };

    /// Takes a block that no tree holds. Its bytes are 0.
    fn fresh(&mut self) -> Result<u32, Stop>
        requires { 0 < (state self.old).holdings.free }
        ensures taken { IfOk result (λ b. state self.new ≡ with_fresh (state self.old) b) }
        ensures unheld { IfOk result (λ b. (state self.old).holdings.held b ≡ false) }
        ensures refused { IfErr result (λ stop. stop ≡ Stop.NoMemory) }
        ensures err { OnErr result (state self.new ≡ state self.old) }
        ensures others { beside self.new ≡ beside self.old };

    /// Makes a block ready to be written that the working tree alone holds.
    fn ready(&mut self, b: u32) -> Result<(), Stop>
        requires { IsTrue ((state self.old).holdings.private b) }
        ensures ok { OnOk result (MakesReady b (state self.old) (state self.new)) }
        ensures err { OnErr result (Keeps (state self.old) (state self.new)) }
        ensures others { LeavesBeside (beside self.old) (beside self.new) result };

    /// Lends a ready block for writing. All other blocks stay.
    fn edit(&mut self, b: u32) -> &mut [u8]
        requires { IsTrue ((state self.old).holdings.ready b) }
        ensures long { length result.now ≡ (state self.old).holdings.size }
        ensures bytes { result.now ≡ (state self.old).bytes b }
        ensures* edited { sem 𝓛 (Lends Self.row (Array byte 0) self.entry result (edited self.old b)) };

    /// Gives up the working tree's hold.
    fn release(&mut self, b: u32)
        requires { IsTrue ((state self.old).holdings.works b) }
        ensures released { state self.new ≡ without (state self.old) b }
        ensures others { beside self.new ≡ beside self.old };

    /// Whether the working tree alone holds the block.
    fn is_private(&self, b: u32) -> bool
        ensures private { result ≡ (state self.now).holdings.private b }
        ensures consistent { IsConsistent (state self.now) };

    /// How many more blocks can be taken.
    fn free(&self) -> u64
        ensures free { result ≡ (state self.now).holdings.free }
        ensures consistent { IsConsistent (state self.now) };

    /// Whether the working tree holds the block.
    fn works(&self, b: u32) -> bool
        ensures works { result ≡ (state self.now).holdings.works b }
        ensures consistent { IsConsistent (state self.now) };

    /// As many bytes as before, written through `edit`, change that block's bytes and nothing else.
    ghost edits: { (x : Self) (b : ℕ) (new : List ℕ) → IsTrue ((state x).holdings.ready b)
        → length new ≡ length ((state x).bytes b) → state (edited x b new) ≡ with_bytes (state x) b new };

    /// A write through `edit` makes no outside call, and changes nothing of what stands beside the blocks.
    ghost edits_beside: { (x : Self) (b : ℕ) (new : List ℕ) → beside (edited x b new) ≡ beside x };
}

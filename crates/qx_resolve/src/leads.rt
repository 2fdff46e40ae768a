//! Where one name of a path leads.
ghost use Rattle.std.specs.Prelude.{◌≡◌, ◌≤◌, ℕ, IfErr, IsTrue, length};
ghost use Rattle.qx_blocks.specs.BlockState.{BlockState};
ghost use Rattle.qx_model.specs.declared.refusal.Refusal.TheVariants.{NoEntry};
ghost use Rattle.qx_model.specs.Paths.{lead, lead_in, lead_to};
ghost use Rattle.qx_model.specs.Tree.{IsDirectory, Tree};
ghost use Rattle.qx_working.specs.Standing.{IsReadable, IsToldState, StandsForTree};
ghost use Rattle.qx_resolve.specs.Answers.{Leads};
ghost use Rattle.qx_resolve.specs.Looks.{OnlyLooks, stop_refusal};

use qx_blocks::{Blocks, Stop};
use qx_lookup::{live_inode, lookup};
use qx_model::Refusal;
use qx_records::Kind;
use qx_working::Working;

/// Where a name leads: to an inode, or through the target of a link, which is the inode given.
#[derive(Clone, Copy, Debug, PartialEq, Eq)]
pub(crate) enum Lead {
    To(u32),
    Through(u32),
}

// How an act answers where a call on blocks stopped.
pub(crate) fn refusal_of(stop: Stop) -> Refusal
    ensures { result ≡ stop_refusal stop }
{
    match stop {
        Stop::Device => Refusal::Device,
        Stop::NoMemory => Refusal::NoMemory,
    }
}

// Where a name leads from an inode; a link is followed where that is asked.
pub(crate) fn name_leads<B: Blocks>(
    state: &Working,
    blocks: &mut B,
    at: u32,
    name: &[u8],
    follows: bool,
) -> Result<Lead, Refusal>
    requires readable { IsReadable (B.state blocks.old) state.now }
    ensures leads { IsTrue (B.state blocks.new).tells → (t : Tree) → StandsForTree (B.state blocks.old) state.now t → Leads t result (lead t follows at name.now) }

    ensures looks { OnlyLooks B.state B.beside blocks.old blocks.new result }
{
    let Some(inode) = live_inode(state, at) else {
        return Err(Refusal::NoEntry);
    };
    match Kind::of(inode.mode) {
        Some(Kind::Directory) => directory_leads(state, blocks, at, name, follows),
        _ => Err(Refusal::NotDir),
    }
}

// Where a name leads from a directory.
fn directory_leads<B: Blocks>(
    state: &Working,
    blocks: &mut B,
    at: u32,
    name: &[u8],
    follows: bool,
) -> Result<Lead, Refusal>
    requires readable { IsReadable (B.state blocks.old) state.now }
    requires from_one { 1 ≤ at }
    requires within { at ≤ length state.now.links }
    ensures leads { IsTrue (B.state blocks.new).tells → (t : Tree) → StandsForTree (B.state blocks.old) state.now t → (parent : ℕ) → IsDirectory t at parent
        → Leads t result (lead_in t follows at parent name.now) }

    ensures looks { OnlyLooks B.state B.beside blocks.old blocks.new result }
{
    if name == b".".as_slice() {
        return Ok(Lead::To(at));
    }
    if name == b"..".as_slice() {
        return Ok(Lead::To(state.links.parent(at)));
    }
    match lookup(state, blocks, at, name) {
        Ok(Some(n)) => inode_leads(state, n, follows),
        Ok(None) => Err(Refusal::NoEntry),
        Err(stop) => Err(refusal_of(stop)),
    }
}

// An inode, or through its target where it is a link that is followed.
fn inode_leads(state: &Working, n: u32, follows: bool) -> Result<Lead, Refusal>
    ensures leads { (m : BlockState) (t : Tree) → IsToldState m state.now t → Leads t result (lead_to t follows n) }
    ensures refused { IfErr result (λ refusal. refusal ≡ NoEntry) }
{
    let Some(inode) = live_inode(state, n) else {
        return Err(Refusal::NoEntry);
    };
    match Kind::of(inode.mode) {
        Some(Kind::Link) if follows => Ok(Lead::Through(n)),
        _ => Ok(Lead::To(n)),
    }
}

//! A change of a node, from the question whether it may be made to the answer.
ghost use Rattle.std.specs.Prelude.{◌≡◌, ◌+◌, ◌<◌, ◌≤◌, ◌↔◌, ◌&&◌, [], ℕ, true, false, nat_le, nat_lt, IfErr, IfOk, IsTrue, OnErr, OnOk};
ghost use Rattle.qx_geom.specs.Positions.{is_named};
ghost use Rattle.qx_blocks.specs.BlockState.{IsBlockSize, IsConsistent};
ghost use Rattle.qx_blocks.specs.Calls.{Keeps};
ghost use Rattle.qx_ptree.specs.Alterations.{alteration_of, fresh_count};
ghost use Rattle.qx_ptree.specs.Fates.{IsChange, is_written};
ghost use Rattle.qx_ptree.specs.ReadyLeaves.{IsReadyApart, IsWrittenBy};
ghost use Rattle.qx_ptree.specs.Takings.{Takes};
ghost use Rattle.qx_ptree.specs.Trees.{IsNode};
ghost use Rattle.tree_bench.specs.Refusals.{HasReason};

use qx_blocks::{Blocks, Stop};
use qx_fields::Order;
use qx_geom::{ABSENT, Root};
use qx_ptree::{Change, abandon, commit, need, prepare};
use std::alloc::{AllocError, Global};
use thiserror::Error;

/// Why a node isn't changed.
#[derive(Clone, Copy, Debug, PartialEq, Eq, Error)]
pub enum Refusal {
    /// No node is changed so.
    #[error("no node is changed so")]
    Unfit,
    /// Fewer blocks are free than the change takes.
    #[error("the change takes more blocks than are free")]
    NoSpace,
    /// A call on blocks gave up.
    #[error("a call on blocks gave up: {0:?}")]
    Stopped(Stop),
}

impl From<Stop> for Refusal {
    ghost use Rattle.tree_bench.specs.declared.changes.Refusal.TheVariants.{Stopped};

    ghost from_gives = { λ stop refusal. refusal ≡ Stopped stop };

    fn from(stop: Stop) -> Refusal {
        Refusal::Stopped(stop)
    }
}

impl From<AllocError> for Refusal {
    fn from(_: AllocError) -> Refusal {
        Refusal::Stopped(Stop::NoMemory)
    }
}

/// A node of nothing.
pub fn empty_node<B: Blocks>(blocks: &B, order: Order) -> Root
    ensures { IsNode order (B.state blocks.now) result }
{
    // Only this says that the blocks are consistent.
    let _size = blocks.size();
    Root {
        size: 0,
        pointers: [ABSENT; 16],
        levels: 0,
    }
}

/// The need of a change, where a node can be changed so and as many blocks are free.
pub fn checked_need<B: Blocks>(
    node: &Root,
    blocks: &mut B,
    order: Order,
    change: &Change,
) -> Result<u64, Refusal>
    requires node { IsNode order (B.state blocks.old) node.now }
    ensures change { OnOk result (IsChange (B.state blocks.old).holdings.size change.now) }
    ensures need { IfOk result (λ need. IsTrue (B.state blocks.new).tells
        → need ≡ fresh_count (alteration_of order (B.state blocks.old) node.now change.now)) }
    ensures room { IfOk result (λ need. need ≤ (B.state blocks.new).holdings.free) }

    ensures reason { IfErr result (HasReason order (B.state blocks.old) node.now change.now
        (B.state blocks.new).tells (B.beside blocks.old).faults (B.beside blocks.new).faults) }

    ensures keeps { Keeps (B.state blocks.old) (B.state blocks.new) }
    ensures node { IsNode order (B.state blocks.new) node.now }
    ensures consistent { OnOk result (IsConsistent (B.state blocks.new)) }
    ensures kept { OnOk result ((B.beside blocks.new).faults ≡ (B.beside blocks.old).faults) }
    ensures aside { (B.beside blocks.new).aside ≡ (B.beside blocks.old).aside }
{
    if !is_permitted(change, blocks.size() as u64) {
        return Err(Refusal::Unfit);
    }
    let takes = need(node, blocks, order, change)?;
    if blocks.free() < takes {
        return Err(Refusal::NoSpace);
    }
    Ok(takes)
}

/// Makes a change of a node, and answers how many fresh blocks it took.
pub fn change_node<B: Blocks>(
    alloc: Global,
    node: &mut Root,
    blocks: &mut B,
    order: Order,
    change: &Change,
) -> Result<u64, Refusal>
    requires node { IsNode order (B.state blocks.old) node.old }
    ensures made { IfOk result (λ need. IsTrue (B.state blocks.new).tells
        → need ≡ fresh_count (alteration_of order (B.state blocks.old) node.old change.now)) }
    ensures size { OnOk result (node.new.size ≡ change.now.size) }
    ensures written { OnOk result
        (IsReadyApart order (B.state blocks.new) node.new (IsWrittenBy change.now)) }

    ensures reason { IfErr result (HasReason order (B.state blocks.old) node.old change.now
        (B.state blocks.new).tells (B.beside blocks.old).faults (B.beside blocks.new).faults) }
    ensures same { OnErr result (node.new ≡ node.old) }
    ensures err { OnErr result (Takes [] (B.state blocks.old) (B.state blocks.new)) }

    ensures node { IsNode order (B.state blocks.new) node.new }
    ensures blocksize { (B.state blocks.new).holdings.size ≡ (B.state blocks.old).holdings.size }
    ensures aside { (B.beside blocks.new).aside ≡ (B.beside blocks.old).aside }
{
    let takes = checked_need(node, blocks, order, change)?;
    let p = prepare(alloc, node, blocks, order, change)?;
    commit(node, blocks, p);
    Ok(takes)
}

/// Prepares a change of a node and gives it up, and answers how many fresh blocks it takes.
pub fn try_node<B: Blocks>(
    alloc: Global,
    node: &Root,
    blocks: &mut B,
    order: Order,
    change: &Change,
) -> Result<u64, Refusal>
    requires node { IsNode order (B.state blocks.old) node.now }
    ensures made { IfOk result (λ need. IsTrue (B.state blocks.new).tells
        → need ≡ fresh_count (alteration_of order (B.state blocks.old) node.now change.now)) }
    ensures reason { IfErr result (HasReason order (B.state blocks.old) node.now change.now
        (B.state blocks.new).tells (B.beside blocks.old).faults (B.beside blocks.new).faults) }

    ensures back { Takes [] (B.state blocks.old) (B.state blocks.new) }
    ensures node { IsNode order (B.state blocks.new) node.now }
    ensures aside { (B.beside blocks.new).aside ≡ (B.beside blocks.old).aside }
{
    let takes = checked_need(node, blocks, order, change)?;
    let p = prepare(alloc, node, blocks, order, change)?;
    abandon(blocks, p);
    Ok(takes)
}

// Whether a node can be changed so.
fn is_permitted(change: &Change, blocksize: u64) -> bool
    requires blocksize { IsBlockSize blocksize }
    ensures { IsTrue result ↔ IsChange blocksize change.now }
{
    let leaves = change.size.div_ceil(blocksize);
    leaves <= 16 * (blocksize / 4).pow(5)
        && range_fits(change, leaves)
        && also_fits(change, leaves)
        && gone_fits(change)
}

// Whether the range of leaves that are written lies below the new size.
fn range_fits(change: &Change, leaves: u64) -> bool
    ensures { IsTrue result ↔ ((i : ℕ) → change.now.first ≤ i → i < change.now.first + change.now.count
        → i < leaves) }
{
    change.count == 0 || change.first < leaves && change.count <= leaves - change.first
}

// Whether the other leaf that is written lies below the new size, and outside the range.
fn also_fits(change: &Change, leaves: u64) -> bool
    ensures { IsTrue result ↔ ((i : ℕ) → is_named change.now.also i ≡ true
        → (i < leaves) × ((nat_le change.now.first i && nat_lt i (change.now.first + change.now.count)) ≡ false)) }
{
    match change.also {
        Some(leaf) => leaf < leaves && !is_in_range(change, leaf),
        None => true,
    }
}

// Whether the leaf that is taken out isn't written.
fn gone_fits(change: &Change) -> bool
    ensures { IsTrue result ↔ ((i : ℕ) → is_named change.now.gone i ≡ true
        → is_written change.now i ≡ false) }
{
    match change.gone {
        Some(leaf) => !is_in_range(change, leaf) && change.also != Some(leaf),
        None => true,
    }
}

// Whether a leaf is one of the range that is written.
fn is_in_range(change: &Change, leaf: u64) -> bool
    ensures { result ≡ (nat_le change.now.first leaf && nat_lt leaf (change.now.first + change.now.count)) }
{
    change.first <= leaf && leaf - change.first < change.count
}

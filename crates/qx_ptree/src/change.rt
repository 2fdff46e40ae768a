//! A change of a node, and what becomes of each leaf.
ghost use Rattle.std.specs.Prelude.{◌≡◌, ℕ, ◌+◌, ◌^◌, ◌<◌, ◌≤◌, IfSome, IsTrue, false};
ghost use Rattle.qx_geom.specs.Positions.{is_named};
ghost use Rattle.qx_ptree.specs.Fates.{fate_of};

/// A node's new size, the leaves that are to be written, and at most one leaf that is to be taken out.
#[derive(Clone, Copy, Debug, PartialEq, Eq)]
pub struct Change {
    /// The new size in bytes, which 5 levels reach. Leaves past it go.
    pub size: u64,
    /// The first leaf of the range that is written.
    pub first: u64,
    /// How many leaves the range has. They lie below the new size.
    pub count: u64,
    /// One more leaf that is written, below the new size and outside the range.
    pub also: Option<u64>,
    /// A leaf that is taken out. It isn't written.
    pub gone: Option<u64>,
}

// What becomes of a leaf.
#[derive(Clone, Copy, Debug, PartialEq, Eq)]
pub(crate) enum Fate {
    // Nothing.
    Stays,
    // It is there afterwards, in a block that the working tree alone holds.
    Written,
    // It isn't there afterwards.
    Goes,
}

// What becomes of a leaf, where so many lie below the new size.
pub(crate) fn leaf_fate(change: &Change, leaves: u64, index: u64) -> Fate
    ensures { result ≡ fate_of leaves change.now index }
{
    let within = change.first <= index && index - change.first < change.count;
    if within || change.also == Some(index) {
        Fate::Written
    } else if leaves <= index || change.gone == Some(index) {
        Fate::Goes
    } else {
        Fate::Stays
    }
}

// What becomes of each of `count` leaves from `from` on, where it is seen to be the same for all.
pub(crate) fn common_fate(change: &Change, leaves: u64, from: u64, count: u64) -> Option<Fate>
    requires { from + count < 2 ^ 64 }
    ensures { IfSome result (λ fate. (i : ℕ) → from ≤ i → i < from + count
        → fate_of leaves change.now i ≡ fate) }
{
    let to = from + count;
    if change.first <= from && to - change.first <= change.count {
        return Some(Fate::Written);
    }
    let before = to <= change.first || change.count == 0;
    let after = change.first <= from && change.count <= from - change.first;
    if !(before || after) || !lies_outside(change.also, from, to) {
        None
    } else if leaves <= from {
        Some(Fate::Goes)
    } else if to <= leaves && lies_outside(change.gone, from, to) {
        Some(Fate::Stays)
    } else {
        None
    }
}

// The leaf, if there is one, isn't among those from `from` on, before `to`.
fn lies_outside(leaf: Option<u64>, from: u64, to: u64) -> bool
    ensures { IsTrue result → (i : ℕ) → from ≤ i → i < to → is_named leaf i ≡ false }
{
    match leaf {
        Some(leaf) => leaf < from || to <= leaf,
        None => true,
    }
}

//! Leaves of a node that stand side by side on the device.
ghost use Rattle.std.specs.Prelude.{◌≡◌, ◌<◌, ◌≤◌, ◌+◌, ◌-◌, false, length};
ghost use Rattle.qx_tables.specs.Tables.{IsRun, is_behind, leaf_in};

use qx_pointers::LeafPlace;

/// How many leaves from a place on stand side by side, up to so many.
pub(crate) fn run_length(leaves: &[LeafPlace], from: usize, most: usize) -> usize
    requires from { from < length leaves.now }
    requires most { 0 < most }
    ensures run { IsRun leaves.now from result }
    ensures few { result ≤ most }
    ensures longest { result < most → from + result < length leaves.now
        → is_behind (leaf_in leaves.now (from + result - 1)) (leaf_in leaves.now (from + result)) ≡ false }
{
    let most = most.min(leaves.len() - from);
    for count in 1..most {
        if !stands_behind(leaves[from + count - 1], leaves[from + count]) {
            return count;
        }
    }
    most
}

/// Whether a leaf stands right behind another, in its node and on the device.
fn stands_behind(leaf: LeafPlace, next: LeafPlace) -> bool
    ensures { result ≡ is_behind leaf next }
{
    leaf.index.checked_add(1) == Some(next.index) && leaf.block.checked_add(1) == Some(next.block)
}

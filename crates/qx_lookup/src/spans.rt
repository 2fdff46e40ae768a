//! Which records a leaf of a directory has.
ghost use Rattle.std.specs.Prelude.{◌≡◌, ◌≤◌, ◌<◌, ◌/◌, ◌*◌, ◌-◌};
ghost use Rattle.qx_geom.specs.Pointer.{ceil_div};
ghost use Rattle.qx_blocks.specs.BlockState.{IsConsistent};
ghost use Rattle.qx_lookup.specs.Rows.{records_end};

use qx_blocks::Blocks;
use qx_geom::Root;

/// Records of a directory, which lie in one leaf: from one on, before another.
#[derive(Clone, Copy)]
pub struct Span {
    pub first: u64,
    pub end: u64,
}

impl Span {
    /// Those of a leaf that lie below the directory's size.
    pub fn of<B: Blocks>(blocks: &B, node: &Root, index: u64) -> Span
        requires below { index < ceil_div node.now.size (B.state blocks.now).holdings.size }
        ensures first { result.first ≡ index * ((B.state blocks.now).holdings.size / 32) }
        ensures end { result.end ≡ records_end (B.state blocks.now).holdings.size node.now.size index }
        ensures some { result.first ≤ result.end }
        ensures few { 32 * (result.end - result.first) ≤ (B.state blocks.now).holdings.size }
        ensures within { result.end ≤ node.now.size / 32 }
        ensures consistent { IsConsistent (B.state blocks.now) }
    {
        let size = node.size;
        let records = blocks.size() as u64 / 32;
        Span {
            first: index * records,
            end: ((index + 1) * records).min(size / 32),
        }
    }

    /// How many they are.
    pub fn count(self) -> usize
        requires { self.first ≤ self.end }
        ensures { result ≡ self.end - self.first }
    {
        (self.end - self.first) as usize
    }
}

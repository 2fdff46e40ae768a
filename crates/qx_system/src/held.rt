//! Which blocks are held, asked one by one, eight at once or many at once.
ghost use Rattle.std.specs.Prelude.{◌≡◌, ◌<◌, ◌≤◌, ◌+◌, ◌*◌, ◌^◌, ◌==◌, ℕ, Bool, get_or, length};
ghost use Rattle.std.specs.Int.{bit_at};

use qx_blockset::BlockSet;

/// Blocks that are held, by number.
pub trait Held {
    /// Whether a block is held.
    ghost held: { Self → ℕ → Bool };

    /// The number below which a block may be asked for.
    ghost limit: { Self → ℕ };

    /// Whether a block is held.
    fn has(&self, b: u32) -> bool
        requires { b < limit self.now }
        ensures { result ≡ held self.now b };

    /// The eight blocks from `place * 8` on, a bit each.
    fn byte(&self, place: u32) -> u8
        requires { place * 8 < limit self.now }
        ensures { (k : ℕ) → k < 8 → (bit_at result k == 1) ≡ held self.now (place * 8 + k) };

    /// Fills bytes with the blocks from `place * 8` on, a bit each.
    fn fill(&self, place: u32, into: &mut [u8])
        requires place { place + length into.old < 2 ^ 32 }
        requires blocks { (place + length into.old) * 8 ≤ limit self.now }
        ensures { (i k : ℕ) → i < length into.old → k < 8
            → (bit_at (get_or into.new i 0) k == 1) ≡ held self.now ((place + i) * 8 + k) };
}

impl Held for BlockSet {
    ghost use Rattle.qx_blockset.specs.Members.{has, limit_of};

    ghost held = { has };

    ghost limit = { limit_of };

    fn has(&self, b: u32) -> bool {
        BlockSet::has(self, b)
    }

    fn byte(&self, place: u32) -> u8 {
        BlockSet::byte(self, place)
    }

    fn fill(&self, place: u32, into: &mut [u8]) {
        for (index, byte) in into.iter_mut().enumerate() {
            *byte = BlockSet::byte(self, place + index as u32);
        }
    }
}

/// One block alone.
#[derive(Clone, Copy)]
pub struct OneBlock {
    pub number: u32,
}

impl Held for OneBlock {
    ghost use Rattle.qx_system.specs.SystemBytes.{is_one};

    ghost held = { is_one };

    ghost limit = { λ _. 2 ^ 32 };

    fn has(&self, b: u32) -> bool {
        self.number == b
    }

    fn byte(&self, place: u32) -> u8 {
        if place != self.number / 8 {
            return 0;
        }
        1 << (self.number % 8)
    }

    fn fill(&self, place: u32, into: &mut [u8]) {
        into.fill(0);
        let own = self.number / 8;
        if place <= own && ((own - place) as usize) < into.len() {
            into[(own - place) as usize] = 1 << (self.number % 8);
        }
    }
}

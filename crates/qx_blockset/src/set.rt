//! A set of block numbers, in words of 64 bits.
ghost use Rattle.std.specs.Prelude.{◌≡◌, ◌==◌, ◌<◌, ◌≤◌, ◌+◌, ◌*◌, ◌/◌, ◌^◌, ℕ, false, true, IfOk, IfSome, IfNone, bit_or, count_ones, length, replicate, slice_index, slice_set, sum_by};
ghost use Rattle.std.specs.Int.{bit_at};
ghost use Rattle.qx_blockset.specs.LowBits.{IsBelow};
ghost use Rattle.qx_blockset.specs.Members.{has, HasAll, limit_of, count_of, union_of};

use std::alloc::{AllocError, Global};
use std::marker::Model;

/// A set of numbers below a limit.
#[derive(Drop)]
pub struct BlockSet {
    limit: u32,
    count: u32,
    // Number b has bit b % 64 of word b / 64.
    words: Vec<u64>,
}

impl Model for BlockSet {
    ghost use Rattle.qx_blockset.specs.Members.{Members};

    ghost Value = { Members };

    ghost use Rattle.qx_blockset.specs.Words.{members_in, IsCounted};

    ghost view = { members_in };

    ghost invariant = { IsCounted };
}

impl BlockSet {
    /// The empty set of numbers below `limit`.
    pub fn new(alloc: Global, limit: u32) -> Result<BlockSet, AllocError>
        ensures { IfOk result (λ set. set ≡ replicate limit false) }
    {
        let words = vec![in alloc; 0; limit.div_ceil(64) as usize]?;
        Ok(BlockSet {
            limit,
            count: 0,
            words,
        })
    }

    /// The number below which the members lie.
    pub fn limit(&self) -> u32
        ensures { result ≡ limit_of self.now }
    {
        self.limit
    }

    /// How many numbers are in the set.
    pub fn count(&self) -> u32
        ensures { result ≡ count_of self.now }
    {
        self.count
    }

    /// Whether the number is in the set.
    pub fn has(&self, b: u32) -> bool
        requires { b < limit_of self.now }
        ensures { result ≡ has self.now b }
    {
        self.words[b as usize / 64] >> (b % 64) & 1 == 1
    }

    /// The eight numbers from `place * 8` on, a bit each; those from the limit on aren't in the set.
    pub fn byte(&self, place: u32) -> u8
        requires { place * 8 < limit_of self.now }
        ensures { (k : ℕ) → k < 8 → (bit_at result k == 1) ≡ has self.now (place * 8 + k) }
    {
        (self.words[place as usize / 8] >> (place % 8 * 8) & 0xFF) as u8
    }

    /// Puts the number into the set.
    pub fn insert(&mut self, b: u32)
        requires { b < limit_of self.old }
        ensures { self.new ≡ slice_set self.old b true }
    {
        if !self.has(b) {
            self.words[b as usize / 64] |= 1 << (b % 64);
            self.count += 1;
        }
    }

    /// Takes the number out of the set.
    pub fn remove(&mut self, b: u32)
        requires { b < limit_of self.old }
        ensures { self.new ≡ slice_set self.old b false }
    {
        if self.has(b) {
            self.words[b as usize / 64] &= !(1 << (b % 64));
            self.count -= 1;
        }
    }

    /// Takes the numbers of a set with the same limit.
    pub fn copy_from(&mut self, other: &BlockSet)
        requires { limit_of other.now ≡ limit_of self.old }
        ensures { self.new ≡ other.now }
    {
        self.words.copy_from_slice(&other.words);
        self.count = other.count;
    }

    /// Puts all numbers of a set with the same limit into this one.
    pub fn add_all(&mut self, other: &BlockSet)
        requires { limit_of other.now ≡ limit_of self.old }
        ensures { self.new ≡ union_of self.old other.now }
    {
        self.count = unite(&mut self.words, &other.words) as u32;
    }

    /// The least number from `from` on that is not in the set.
    pub fn first_absent(&self, from: u32) -> Option<u32>
        ensures absent { IfSome result (λ b. (from ≤ b) × (b < limit_of self.now)
            × (has self.now b ≡ false)) }
        ensures least { IfSome result (λ b. HasAll self.now from b) }
        ensures none { IfNone result (HasAll self.now from (limit_of self.now)) }
    {
        let limit = self.limit as usize;
        for place in from as usize / 64..self.words.len() {
            let word = self.words[place] | bits_below(from, place);
            if word != u64::MAX {
                let b = place * 64 + word.trailing_ones() as usize;
                return if b < limit { Some(b as u32) } else { None };
            }
        }
        None
    }
}

// The bits of word `place` that stand for numbers below `from`, which lies in it or before it.
fn bits_below(from: u32, place: usize) -> u64
    requires { from / 64 ≤ place }
    ensures { IsBelow from place result }
{
    if place == from as usize / 64 {
        (1 << (from % 64)) - 1
    } else {
        0
    }
}

// Sets in each word the bits of the other, and counts all ones.
fn unite(words: &mut [u64], others: &[u64]) -> u64
    requires long { length others.now ≡ length words.old }
    requires few { length words.old ≤ 2 ^ 26 }
    ensures words { (k : ℕ) → k < length words.old
        → slice_index words.new k ≡ bit_or (slice_index words.old k) (slice_index others.now k) }
    ensures fit { (k : ℕ) → slice_index words.new k < 2 ^ 64 }
    ensures ones { result ≡ sum_by count_ones words.new }
{
    let mut ones = 0;
    for place in 0..words.len() {
        let word = words[place] | others[place];
        words[place] = word;
        ones += u64::from(word.count_ones());
    }
    ones
}

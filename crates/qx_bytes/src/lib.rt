//! Bytes that are put at a place of a list: what stands there afterwards, and what stays.
//!
//! Stands on nothing; numbers in slices, the bytes of a device and of changed blocks stand on it.
//! Its contract: the laws below, about `put_at` of `specs/Ranges.antt`, and the one word of `specs/SameLengths.antt`.
//! It keeps no state, takes no memory and has no code that runs.
#![tactic(auto)]

ghost use Rattle.std.specs.Prelude.{◌≡◌, ℕ, ◌+◌, ◌-◌, ◌<◌, ◌≤◌, ◌⊎◌, List, length, slice_range, slice_index};
ghost use Rattle.qx_bytes.specs.Ranges.{put_at};

/// Bytes that are put at a place stand there.
pub fn what_is_put_stands_there()
    ensures range { (bytes others : List ℕ) (at : ℕ) → at ≤ length bytes
        → slice_range (put_at bytes at others) at (at + length others) ≡ others }
    ensures byte { (bytes others : List ℕ) (at k : ℕ) → at ≤ length bytes → at ≤ k → k < at + length others
        → slice_index (put_at bytes at others) k ≡ slice_index others (k - at) }
{}

/// A range or a byte that lies before or behind the place stays.
pub fn what_lies_apart_stays()
    ensures range { (bytes others : List ℕ) (at k n : ℕ) → at ≤ length bytes
        → (k + n ≤ at) ⊎ (at + length others ≤ k)
        → slice_range (put_at bytes at others) k (k + n) ≡ slice_range bytes k (k + n) }
    ensures byte { (bytes others : List ℕ) (at k : ℕ) → at ≤ length bytes
        → (k < at) ⊎ (at + length others ≤ k)
        → slice_index (put_at bytes at others) k ≡ slice_index bytes k }
{}

/// Bytes that are put within the list leave its length.
pub fn the_length_stays()
    ensures { (bytes others : List ℕ) (at : ℕ) → at + length others ≤ length bytes
        → length (put_at bytes at others) ≡ length bytes }
{}

/// A range of a range is a range of the whole.
pub fn a_range_of_a_range()
    ensures { (bytes : List ℕ) (from to i j : ℕ) → j ≤ to - from
        → slice_range (slice_range bytes from to) i j ≡ slice_range bytes (from + i) (from + j) }
{}

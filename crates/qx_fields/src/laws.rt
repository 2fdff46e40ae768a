//! What callers need to know of numbers that are put.
ghost use Rattle.std.specs.Prelude.{◌≡◌, ℕ, ◌+◌, ◌-◌, ◌*◌, ◌^◌, ◌<◌, ◌≤◌, ◌⊎◌, List, length, slice_range, slice_index, All};
ghost use Rattle.qx_fields.specs.Number.{digits, all_digits, field, fields, put_field, put_fields};
ghost use Rattle.qx_fields.specs.declared.order.Order.{Order};

/// A number that fits its bytes is read back from where it was put.
pub fn a_number_that_is_put_is_read_back()
    ensures { (order : Order) (n x : ℕ) (bytes : List ℕ) (at : ℕ) → x < 256 ^ n → at ≤ length bytes
        → field order n (put_field order n bytes at x) at ≡ x }
{}

/// So are several, where each fits its bytes.
pub fn numbers_that_are_put_are_read_back()
    ensures { (order : Order) (n : ℕ) (xs bytes : List ℕ) (at : ℕ) → All (λ x. x < 256 ^ n) xs → at + n * length xs ≤ length bytes
        → fields order n (length xs) (put_fields order n bytes at xs) at ≡ xs }
{}

/// Where the digits of numbers stand, these numbers are read.
pub fn what_is_spelled_is_read()
    ensures field { (order : Order) (n x : ℕ) (bytes : List ℕ) (at : ℕ) → x < 256 ^ n
        → slice_range bytes at (at + n) ≡ digits order n x
        → field order n bytes at ≡ x }
    ensures fields { (order : Order) (n : ℕ) (xs bytes : List ℕ) (at : ℕ) → All (λ x. x < 256 ^ n) xs → at + n * length xs ≤ length bytes
        → slice_range bytes at (at + n * length xs) ≡ all_digits order n xs
        → fields order n (length xs) bytes at ≡ xs }
{}

/// A field or a byte that lies before or behind stays, and so does the length.
pub fn what_lies_apart_stays()
    ensures field { (order : Order) (w x : ℕ) (bytes : List ℕ) (at n k : ℕ) → (k + n ≤ at) ⊎ (at + w ≤ k) → at ≤ length bytes
        → field order n (put_field order w bytes at x) k ≡ field order n bytes k }
    ensures byte { (order : Order) (w x : ℕ) (bytes : List ℕ) (at k : ℕ) → (k < at) ⊎ (at + w ≤ k) → at ≤ length bytes
        → slice_index (put_field order w bytes at x) k ≡ slice_index bytes k }
    ensures long { (order : Order) (w x : ℕ) (bytes : List ℕ) (at : ℕ) → at + w ≤ length bytes
        → length (put_field order w bytes at x) ≡ length bytes }
{}

/// A field of a range of bytes is one of the bytes.
pub fn a_field_of_a_range()
    ensures { (order : Order) (n : ℕ) (bytes : List ℕ) (from to at : ℕ) → at + n ≤ to - from
        → field order n (slice_range bytes from to) at ≡ field order n bytes (from + at) }
{}

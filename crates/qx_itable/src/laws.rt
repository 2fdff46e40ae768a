//! What a table's steps mean number by number.
ghost use Rattle.std.specs.Prelude.{◌≡◌, ◌≢◌, ℕ, ◌+◌, ◌<◌, ◌≤◌, true, length, Some, None, is_some, ◌↔◌};
ghost use Rattle.qx_records.specs.declared.inode.Inode.{Inode};
ghost use Rattle.qx_itable.specs.TableState.{TableState, first_free_in, if_live, inode_of, live_in, one_if_live, with_inode, without_inode};

/// A number has the inode that it was given, if that is live, and every other number keeps its own.
pub fn a_number_has_what_it_was_given()
    ensures set { (t : TableState) (n : ℕ) (inode : Inode) → 1 ≤ n → n ≤ length t.inodes
        → inode_of (with_inode t n inode) n ≡ if_live inode }
    ensures cleared { (t : TableState) (n : ℕ) → 1 ≤ n → n ≤ length t.inodes
        → inode_of (without_inode t n) n ≡ None }

    // Another number.
    ensures set_apart { (t : TableState) (n other : ℕ) (inode : Inode) → 1 ≤ n → 1 ≤ other → other ≢ n
        → inode_of (with_inode t n inode) other ≡ inode_of t other }
    ensures cleared_apart { (t : TableState) (n other : ℕ) → 1 ≤ n → 1 ≤ other → other ≢ n
        → inode_of (without_inode t n) other ≡ inode_of t other }
{}

/// The first free number is one without a live inode, and all below it have one; there is none exactly where all are live.
pub fn the_first_free_number()
    ensures number { (t : TableState) (n : ℕ) → first_free_in t ≡ Some n → (1 ≤ n) × (n ≤ length t.inodes) }
    ensures free { (t : TableState) (n : ℕ) → first_free_in t ≡ Some n → inode_of t n ≡ None }
    ensures least { (t : TableState) (n m : ℕ) → first_free_in t ≡ Some n → 1 ≤ m → m < n → is_some (inode_of t m) ≡ true }
    ensures none { (t : TableState) → (first_free_in t ≡ None) ↔ (live_in t ≡ length t.inodes) }
{}

/// An inode that is set counts where it is live, and the one before it no longer does.
pub fn the_number_of_live_inodes()
    ensures set { (t : TableState) (n : ℕ) (inode : Inode) → 1 ≤ n → n ≤ length t.inodes
        → live_in (with_inode t n inode) + one_if_live (inode_of t n) ≡ live_in t + one_if_live (if_live inode) }
    ensures cleared { (t : TableState) (n : ℕ) → 1 ≤ n → n ≤ length t.inodes
        → live_in (without_inode t n) + one_if_live (inode_of t n) ≡ live_in t }
{}

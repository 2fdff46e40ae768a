//! Laws of what a name is found as.
ghost use Rattle.std.specs.Prelude.{◌≡◌, ◌↔◌, ◌<◌, ◌≤◌, ℕ, List, true};
ghost use Rattle.qx_fields.specs.declared.order.Order.{Order};
ghost use Rattle.qx_records.specs.NameRecord as raws;
ghost use Rattle.qx_records.specs.NameSum.{sum_fits};
ghost use Rattle.qx_records.specs.Slots.{record_at};
ghost use Rattle.qx_dir.specs.declared.block.Found.TheVariants as founds;
ghost use Rattle.qx_dir.specs.Rows.{NoneMayHave, found_from};

/// Nothing is found exactly where no record between the two places may have the name. A row is found exactly where it is the first among them
/// that may: a short one has the name, and a long one has a checksum that is one of the name's two.
pub fn what_is_found()
    ensures none { (order : Order) (block name : List ℕ) (from to : ℕ)
        → found_from order block from to name ≡ founds.None ↔ NoneMayHave order block from to name }
    ensures name { (order : Order) (block name : List ℕ) (from to place inode : ℕ)
        → found_from order block from to name ≡ founds.Name place inode
        ↔ ((from ≤ place) × (place < to) × ((record_at order block place).raw ≡ raws.Short inode name)
        × NoneMayHave order block from place name) }
    ensures maybe { (order : Order) (block name : List ℕ) (from to place inode number : ℕ)
        → found_from order block from to name ≡ founds.Maybe place inode number
        ↔ ((from ≤ place) × (place < to)
        × ((sum : ℕ) × ((record_at order block place).raw ≡ raws.Long inode number sum) × (sum_fits sum name ≡ true))
        × NoneMayHave order block from place name) }
{}

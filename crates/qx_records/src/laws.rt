//! What the format works out of long names' checksums, and that what is written is read back.
ghost use Rattle.std.specs.Prelude.{◌≡◌, ◌≢◌, ℕ, ◌+◌, ◌*◌, ◌/◌, ◌^◌, ◌<◌, ◌≤◌, List, [], ◌∷◌, length, replicate, slice_get, Some};
ghost use Rattle.qx_bytes.specs.Ranges.{put_at};
ghost use Rattle.qx_fields.specs.declared.order.Order.{Order};
ghost use Rattle.qx_records.specs.declared.inode.Inode.{Inode};
ghost use Rattle.qx_records.specs.InodeRecord.{inode_in};
ghost use Rattle.qx_records.specs.NameRecord.{Long, Short, Unused, raw_in, long_name_in};
ghost use Rattle.qx_records.specs.NameSum.{name_sum_of, name_sum_signed_of};
ghost use Rattle.qx_records.specs.Slots.{record_at, records_in};
ghost use Rattle.qx_records.specs.WrittenInode.{inode_bytes, FitsInode};
ghost use Rattle.qx_records.specs.WrittenNames.{short_bytes, long_bytes, long_name_bytes};

/// The checksum of the name `abc`, whose bytes are below 128 and so read alike either way.
pub fn the_sum_of_a_name()
    ensures unsigned { name_sum_of (97 ∷ 98 ∷ 99 ∷ []) ≡ 0x400000AC }
    ensures signed { name_sum_signed_of (97 ∷ 98 ∷ 99 ∷ []) ≡ 0x400000AC }
{}

/// An inode whose numbers fit their bytes is written as 128 bytes that are the same inode.
pub fn an_inode_is_read_back()
    ensures long { (order : Order) (inode : Inode) → FitsInode inode → length (inode_bytes order inode) ≡ 128 }
    ensures inode { (order : Order) (inode : Inode) → FitsInode inode → inode_in order (inode_bytes order inode) ≡ inode }
{}

/// A row is written as 32 bytes that are the same row, and 32 bytes 0 are none.
pub fn a_row_is_read_back()
    ensures short { (order : Order) (inode : ℕ) (name : List ℕ) → 0 < inode → inode < 2 ^ 32 → 0 < length name → length name ≤ 27
        → raw_in order (short_bytes order inode name) ≡ Short inode name }
    ensures short_length { (order : Order) (inode : ℕ) (name : List ℕ) → length name ≤ 27
        → length (short_bytes order inode name) ≡ 32 }
    ensures long { (order : Order) (inode number sum : ℕ) → 0 < inode → inode < 2 ^ 32 → number < 2 ^ 32 → sum < 2 ^ 32
        → raw_in order (long_bytes order inode number sum) ≡ Long inode number sum }
    ensures long_length { (order : Order) (inode number sum : ℕ) → length (long_bytes order inode number sum) ≡ 32 }
    ensures unused { (order : Order) → raw_in order (replicate 32 0) ≡ Unused }
{}

/// A long name is written as a whole leaf that has the same name.
pub fn a_long_name_is_read_back()
    ensures name { (order : Order) (size : ℕ) (name : List ℕ) → 0 < length name → length name ≤ 510
        → long_name_in order (long_name_bytes order size name) ≡ Some name }
    ensures long { (order : Order) (size : ℕ) (name : List ℕ) → 2 + length name ≤ size
        → length (long_name_bytes order size name) ≡ size }
{}

/// A block has a record for each 32 of its bytes, in their order.
pub fn the_records_of_a_block()
    ensures count { (order : Order) (block : List ℕ) → length (records_in order block) ≡ length block / 32 }
    ensures each { (order : Order) (block : List ℕ) (place : ℕ) → place < length block / 32
        → slice_get (records_in order block) place ≡ Some (record_at order block place) }
{}

/// A record that is put at its place stands there, and every other stays.
pub fn a_record_that_is_put_changes_no_other()
    ensures itself { (order : Order) (block bytes : List ℕ) (place : ℕ) → length bytes ≡ 32 → place * 32 + 32 ≤ length block
        → record_at order (put_at block (place * 32) bytes) place ≡ record { place = place; raw = raw_in order bytes } }
    ensures others { (order : Order) (block bytes : List ℕ) (place other : ℕ) → length bytes ≡ 32 → place * 32 + 32 ≤ length block → other ≢ place
        → record_at order (put_at block (place * 32) bytes) other ≡ record_at order block other }
{}

//! The writers of directory records.
ghost use Rattle.std.specs.Prelude.{◌≡◌, ◌<◌, ◌≤◌, length, replicate};
ghost use Rattle.qx_records.specs.NameRecord.{Long, Short, Unused, raw_in};
ghost use Rattle.qx_records.specs.WrittenNames.{short_bytes, long_bytes};

use qx_fields::{Order, put32};

/// Fills 32 bytes with a row and its name. The bytes behind the name become 0.
pub fn write_short(into: &mut [u8], order: Order, inode: u32, name: &[u8])
    requires record { length into.old ≡ 32 }
    requires used { 0 < inode }
    requires named { 0 < length name.now }
    requires short { length name.now ≤ 27 }
    ensures bytes { into.new ≡ short_bytes order inode name.now }
    ensures read_back { raw_in order into.new ≡ Short inode name.now }
{
    into.fill(0);
    put32(order, into, 0, inode);
    into[4] = name.len() as u8;
    into[5..5 + name.len()].copy_from_slice(name);
}

/// Fills 32 bytes with a row whose name is a long one, with its number and its checksum. The other bytes become 0.
pub fn write_long(into: &mut [u8], order: Order, inode: u32, number: u32, sum: u32)
    requires record { length into.old ≡ 32 }
    requires used { 0 < inode }
    ensures bytes { into.new ≡ long_bytes order inode number sum }
    ensures read_back { raw_in order into.new ≡ Long inode number sum }
{
    into.fill(0);
    put32(order, into, 0, inode);
    into[4] = 255;
    put32(order, into, 8, number);
    put32(order, into, 12, sum);
}

/// Fills 32 bytes with an unused record: all 0.
pub fn write_unused(into: &mut [u8])
    requires { length into.old ≡ 32 }
    ensures bytes { into.new ≡ replicate 32 0 }
    ensures read_back { (order : Order) → raw_in order into.new ≡ Unused }
{
    into.fill(0);
}

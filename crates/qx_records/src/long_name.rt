//! A long name, read and written.
ghost use Rattle.std.specs.Prelude.{◌≡◌, ◌<◌, ◌≤◌, length, Some, IfSome};
ghost use Rattle.std.specs.Option.{option_copied};
ghost use Rattle.qx_records.specs.Lent.{IsLentFrom};
ghost use Rattle.qx_records.specs.NameRecord.{long_name_in};
ghost use Rattle.qx_records.specs.WrittenNames.{long_name_bytes};

use qx_fields::{Order, get16, put16};

/// The reader of the long names that stand in leaves of the Longfile.
#[derive(Drop)]
pub struct LongView;

impl LongView {
    /// The long name that a leaf has, or none where its length is 0 or above 510.
    #[tactic(auto, unfolding(crate::specs::NameRecord::long_name_in))]
    pub fn read<'a>(leaf: &'a [u8], order: Order) -> Option<&'a [u8]>
        requires { 512 ≤ length leaf.now }
        ensures name { option_copied result ≡ long_name_in order leaf.now }
        ensures lends { IfSome result (IsLentFrom leaf.entry 2) }
    {
        let length = usize::from(get16(order, leaf, 0));
        if length == 0 || length > 510 {
            return None;
        }
        Some(&leaf[2..2 + length])
    }
}

/// Fills a leaf with a long name. The bytes behind it become 0.
pub fn write_long_name(into: &mut [u8], order: Order, name: &[u8])
    requires leaf { 512 ≤ length into.old }
    requires named { 0 < length name.now }
    requires short { length name.now ≤ 510 }
    ensures bytes { into.new ≡ long_name_bytes order (length into.old) name.now }
    ensures read_back { long_name_in order into.new ≡ Some name.now }
{
    into.fill(0);
    put16(order, into, 0, name.len() as u16);
    into[2..2 + name.len()].copy_from_slice(name);
}

//! Sizes as words, and the numbers of a volume that is asked for.
ghost use Rattle.std.specs.Prelude.{◌≡◌, ◌<◌};
ghost use Rattle.qx_top.specs.Sizes.{inodes_of, options_by_size, options_of, size_of, units_of};

use qx_fields::Order;
use qx_make::MakeOptions;

/// Bytes of a block, where no size is asked for.
const BLOCKSIZE: u32 = 512;

/// The bounds on the inodes of a volume, where none are asked for.
const MIN_INODES: u64 = 16;

const MAX_INODES: u64 = 1 << 20;

/// The bytes that a word says: decimal digits, with `K`, `M` or `G` behind them for 2^10, 2^20 or 2^30 bytes.
#[tactic(auto, unfolding(crate::specs::Sizes::size_of))]
pub fn size_of_word(word: &str) -> Option<u64>
    ensures { result ≡ size_of word.now }
{
    if let Some(digits) = word.strip_suffix('K') {
        return units(digits, 1 << 10);
    }
    if let Some(digits) = word.strip_suffix('M') {
        return units(digits, 1 << 20);
    }
    if let Some(digits) = word.strip_suffix('G') {
        return units(digits, 1 << 30);
    }
    units(word, 1)
}

/// So many units as the digits say.
fn units(digits: &str, unit: u64) -> Option<u64>
    requires { 0 < unit }
    ensures { result ≡ units_of unit digits.now }
{
    // A number has no sign, and `parse` reads one.
    if digits.starts_with('+') {
        return None;
    }
    let number: u64 = digits.parse().ok()?;
    number.checked_mul(unit)
}

/// The inodes of a volume of so many bytes: one for each whole 4096 bytes, within the bounds.
fn inodes_for(size: u64) -> u32
    ensures { result ≡ inodes_of size }
{
    (size / 4096).max(MIN_INODES).min(MAX_INODES) as u32
}

/// The numbers of a volume that is asked for, whenever it is made.
#[derive(Clone, Copy, Debug, PartialEq, Eq)]
pub struct VolumeOptions {
    /// The image's length in bytes, which is set.
    pub size: u64,
    /// Bytes of a block.
    pub blocksize: u32,
    pub inodes: u32,
    /// The order of all numbers.
    pub order: Order,
}

impl VolumeOptions {
    /// What a size alone asks for.
    pub fn of_size(size: u64) -> VolumeOptions
        ensures { result ≡ options_by_size size }
    {
        VolumeOptions {
            size,
            blocksize: BLOCKSIZE,
            inodes: inodes_for(size),
            order: Order::Little,
        }
    }

    /// What the maker is asked for at a moment.
    pub fn at(&self, moment: u32) -> MakeOptions
        ensures { result ≡ options_of self.now moment }
    {
        MakeOptions {
            size: self.size,
            blocksize: self.blocksize,
            inodes: self.inodes,
            order: self.order,
            moment,
        }
    }
}

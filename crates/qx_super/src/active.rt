//! Which of the two areas is active.
ghost use Rattle.std.specs.Prelude.{◌≡◌, length, option_and_then};
ghost use Rattle.std.specs.Option.{option_copied};
ghost use Rattle.std.specs.Result.{result_ok};
ghost use Rattle.qx_super.specs.Superblock.{superblock_of};
ghost use Rattle.qx_super.specs.Active.{is_same_volume, later_of, pick_of, searched_place, only_at, first_read};

use crate::{Pick, SuperView};
use qx_geom::Which;

fn is_same_volume_as(a: &SuperView<'_>, b: &SuperView<'_>) -> bool
    ensures { result ≡ is_same_volume a.now b.now }
{
    a.order() == b.order()
        && a.blocksize() == b.blocksize()
        && a.num_blocks() == b.num_blocks()
        && a.num_inodes() == b.num_inodes()
}

/// Which of two superblocks counts, where they are of one volume.
#[derive(Clone, Copy)]
pub(crate) enum Later {
    First,
    Second,
    /// They aren't of one volume.
    Neither,
}

/// Of two superblocks of one volume the one with the greater serial, the first at equal serials (this project's own rule).
pub(crate) fn later_of(first: &SuperView<'_>, second: &SuperView<'_>) -> Later
    ensures { result ≡ later_of first.now second.now }
{
    if !is_same_volume_as(first, second) {
        Later::Neither
    } else if first.serial() < second.serial() {
        Later::Second
    } else {
        Later::First
    }
}

/// Picks the area that counts: the only valid one, or of two the later.
pub fn pick(first: Option<&SuperView<'_>>, second: Option<&SuperView<'_>>) -> Pick
    ensures { result ≡ pick_of (option_copied first.entry) (option_copied second.entry) }
{
    match (first, second) {
        (None, None) => Pick::None,
        (Some(_), None) => Pick::Active(Which::First),
        (None, Some(_)) => Pick::Active(Which::Second),
        (Some(first), Some(second)) => match later_of(first, second) {
            Later::First => Pick::Active(Which::First),
            Later::Second => Pick::Active(Which::Second),
            Later::Neither => Pick::Disagree,
        },
    }
}

/// Where the second area is looked for, if the device is long enough to have such a place.
pub fn place_to_search(first: Option<&SuperView<'_>>, len: u64) -> Option<u64>
    ensures { result ≡ searched_place len (option_copied first.entry) }
{
    match first {
        Some(view) => Some(view.second_place()),
        None => (len / 4096 * 4096).checked_sub(0x1000),
    }
}

/// The valid superblock of the bytes of the first area, on a device of `len` bytes.
pub fn first_in<'a>(first: &'a [u8], len: u64) -> Option<SuperView<'a>>
    requires { length first.now ≡ 512 }
    ensures { result ≡ first_read first.now len }
{
    SuperView::read(first, len).ok()
}

/// The valid superblock of the bytes of the second area, if it says that it stands where it was looked for.
pub fn second_in<'a>(second: &'a [u8], len: u64, place: Option<u64>) -> Option<SuperView<'a>>
    requires { length second.now ≡ 512 }
    ensures { result ≡ option_and_then (λ at. only_at at (result_ok (superblock_of second.now len))) place }
{
    let place = place?;
    match SuperView::read(second, len) {
        Ok(view) if view.second_place() == place => Some(view),
        _ => None,
    }
}

//! Both areas of an image, read from a device.
ghost use Rattle.std.specs.Prelude.{◌≡◌, ◌+◌, ◌≤◌, length, IfSome, IfOk, OnOk, IsTrue, option_and_then};
ghost use Rattle.qx_super.specs.Active.{IsOfImage, IsReadFrom, area_at, buffer_of};
ghost use Rattle.qx_outside.specs.Causes.{HasCause, StaysWhereTold};
ghost use Rattle.qx_outside.specs.Calls.{Idles, LeavesConsole, ReadsAtMost};
ghost use Rattle.qx_outside.specs.Trail.{bytes_of};

use crate::Areas;
use crate::active::{first_in, place_to_search, second_in};
use qx_geom::FIRST_PLACE;
use qx_outside::{Dev, Failed};

/// Fills the buffer with the 512 bytes at a place, or with 0 where the device lacks them.
fn read_area<D: Dev>(
    host: &mut D,
    len: u64,
    place: Option<u64>,
    into: &mut [u8],
) -> Result<(), Failed>
    requires len { IfSome (D.outside host.old).extent (λ n. n ≡ len) }
    requires into { length into.old ≡ 512 }
    ensures bytes { OnOk result (IsTrue (D.outside host.new).tells
        → into.new ≡ buffer_of (option_and_then (λ at. area_at (bytes_of (D.outside host.new).history) at) place)) }
    ensures long { length into.new ≡ 512 }
    ensures step { Idles (D.outside host.old) (D.outside host.new) }
    ensures extent { StaysWhereTold (D.outside host.old).extent (D.outside host.new).extent }
    ensures reads { ReadsAtMost 1 (D.outside host.old) (D.outside host.new) }
    ensures others { LeavesConsole (D.outside host.old) (D.outside host.new) }
    ensures cause { HasCause (D.outside host.old).dev_faults (D.outside host.new).dev_faults result }
{
    match place {
        Some(at) if len >= 512 && at <= len - 512 => host.read_at(at, into),
        _ => {
            into.fill(0);
            Ok(())
        }
    }
}

/// Reads both areas into buffers of 512 bytes, and lends their superblocks. A buffer has 0 where the device lacks its area.
/// `len` is the device's length in bytes.
pub fn areas<'a, D: Dev>(
    host: &mut D,
    len: u64,
    first: &'a mut [u8],
    second: &'a mut [u8],
) -> Result<Areas<'a>, Failed>
    requires len { IfSome (D.outside host.old).extent (λ n. n ≡ len) }
    requires first { length first.old ≡ 512 }
    requires second { length second.old ≡ 512 }

    // What was read decides, whatever the device tells.
    ensures read { IfOk result (IsReadFrom len) }

    // Where the device tells, that is what its bytes decide.
    ensures told { IfOk result (λ areas. IsTrue (D.outside host.new).tells
        → IsOfImage (bytes_of (D.outside host.new).history) areas) }

    ensures step { Idles (D.outside host.old) (D.outside host.new) }
    ensures extent { StaysWhereTold (D.outside host.old).extent (D.outside host.new).extent }
    ensures reads { ReadsAtMost 2 (D.outside host.old) (D.outside host.new) }
    ensures others { LeavesConsole (D.outside host.old) (D.outside host.new) }
    ensures cause { HasCause (D.outside host.old).dev_faults (D.outside host.new).dev_faults result }
{
    read_area(host, len, Some(FIRST_PLACE), first)?;
    let first_super = first_in(first, len);
    let place = place_to_search(first_super.as_ref(), len);
    read_area(host, len, place, second)?;
    let second_super = second_in(second, len, place);
    Ok(Areas {
        first: first_super,
        second: second_super,
    })
}

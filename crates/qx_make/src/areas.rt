//! Superblock areas: zeroed, so that nothing is found there, or filled.
ghost use Rattle.std.specs.Prelude.{◌≡◌, ℕ, ◌-◌, ◌≤◌, List, length, min, replicate, IfSome};
ghost use Rattle.qx_geom.specs.Layout.{IsGeometry};
ghost use Rattle.qx_make.specs.Stages.{JustWrites, Performs, areas_stage, zero_stage};

use qx_geom::{Geometry, Which};
use qx_outside::{Dev, Failed};

/// The bytes of an area, all 0.
pub static ZEROS: [u8; 4096] = [0; 4096];

/// So many of an area's bytes as a device of `len` bytes has from byte `place` on, all 0.
fn zeros_within(len: u64, place: u64) -> &'static [u8]
    ensures { result.now ≡ replicate (min 4096 (len - place)) 0 }
{
    let within = len.saturating_sub(place).min(4096);
    &ZEROS[..within as usize]
}

/// Zeroes the area at a place, as far as the device of `len` bytes has it, and has that kept.
pub fn zero_area<D: Dev>(host: &mut D, len: u64, place: u64) -> Result<(), Failed>
    requires len { IfSome (D.outside host.old).extent (λ n. n ≡ len) }
    ensures stage { (bytes : List ℕ) → length bytes ≡ len
        → Performs (zero_stage bytes place) result (D.outside host.old) (D.outside host.new) }
    ensures others { JustWrites (D.outside host.old) (D.outside host.new) result }
{
    let zeros = zeros_within(len, place);
    if zeros.is_empty() {
        host.sync()?;
        return Ok(());
    }
    host.write_at(place, zeros)?;
    host.sync()?;
    Ok(())
}

/// Puts bytes at the beginning of both areas of a volume, and has them kept.
pub fn put_into_areas<D: Dev>(
    host: &mut D,
    geometry: &Geometry,
    first: &[u8],
    second: &[u8],
) -> Result<(), Failed>
    requires geometry { IsGeometry geometry.now }
    requires len { IfSome (D.outside host.old).extent (λ n. geometry.now.len4 ≤ n) }
    requires first { length first.now ≤ 4096 }
    requires second { length second.now ≤ 4096 }
    ensures stage { (bytes : List ℕ) → geometry.now.len4 ≤ length bytes
        → Performs (areas_stage geometry.now first.now second.now bytes) result (D.outside host.old) (D.outside host.new) }
    ensures others { JustWrites (D.outside host.old) (D.outside host.new) result }
{
    host.write_at(geometry.area(Which::First), first)?;
    host.write_at(geometry.area(Which::Second), second)?;
    host.sync()?;
    Ok(())
}

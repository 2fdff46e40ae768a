//! Both halves and the root directory, written in large pieces.
ghost use Rattle.std.specs.Prelude.{◌≡◌, ◌*◌, ◌≤◌, ◌+◌, ℕ, List, length, IfSome, OnOk, replicate, true};
ghost use Rattle.qx_geom.specs.Layout.{IsGeometry, block_place};
ghost use Rattle.qx_outside.specs.Calls.{Did, LeavesRest, Writes};
ghost use Rattle.qx_outside.specs.Causes.{HasCause};
ghost use Rattle.qx_outside.specs.Trail.{wrote};
ghost use Rattle.qx_make.specs.Blocks.{blocks_bytes, top_block};
ghost use Rattle.qx_make.specs.Stages.{JustWrites, Performs, PutsAll, blocks_stage};

use crate::blocks::{NewVolume, are_blank, fill_blocks};
use qx_outside::{Dev, Failed};

/// Bytes of a piece, which has whole blocks of each size.
const PIECE: usize = 65536;

/// The bytes of a piece, all 0.
static ZEROS: [u8; PIECE] = [0; PIECE];

/// So many of them.
fn zeros(len: usize) -> &'static [u8]
    requires { len ≤ 65536 }
    ensures { result.now ≡ replicate len 0 }
{
    &ZEROS[..len]
}

/// Writes so many blocks from one on: zeros where they are blank, else what the buffer is filled with.
fn write_piece<D: Dev>(
    host: &mut D,
    volume: &NewVolume,
    first: u32,
    count: u32,
    buffer: &mut [u8],
) -> Result<(), Failed>
    requires geometry { IsGeometry volume.now.geometry }
    requires blocks { first + count ≤ top_block volume.now.geometry + 1 }
    requires len { IfSome (D.outside host.old).extent (λ n. volume.now.geometry.len4 ≤ n) }
    requires buffer { length buffer.old ≡ count * volume.now.geometry.blocksize }
    requires few { length buffer.old ≤ 65536 }
    ensures ok { OnOk result (Did (wrote (block_place volume.now.geometry first)
        (blocks_bytes volume.now.geometry volume.now.order volume.now.moment first count)
        (blocks_bytes volume.now.geometry volume.now.order volume.now.moment first count) true) (D.outside host.old) (D.outside host.new)) }
    ensures step { Writes (block_place volume.now.geometry first)
        (blocks_bytes volume.now.geometry volume.now.order volume.now.moment first count) (D.outside host.old) (D.outside host.new) }
    ensures others { LeavesRest (D.outside host.old) (D.outside host.new) }
    ensures cause { HasCause (D.outside host.old).dev_faults (D.outside host.new).dev_faults result }
{
    let at = volume.geometry.place(first);
    if are_blank(volume, first, count) {
        return host.write_at(at, zeros(buffer.len()));
    }
    fill_blocks(volume, first, count, buffer);
    host.write_at(at, buffer)
}

/// Writes all blocks of both halves and the root directory's block.
fn write_pieces<D: Dev>(host: &mut D, volume: &NewVolume) -> Result<(), Failed>
    requires geometry { IsGeometry volume.now.geometry }
    requires len { IfSome (D.outside host.old).extent (λ n. volume.now.geometry.len4 ≤ n) }
    ensures stage { (bytes : List ℕ) → volume.now.geometry.len4 ≤ length bytes
        → PutsAll (blocks_stage volume.now.geometry volume.now.order volume.now.moment bytes) result (D.outside host.old) (D.outside host.new) }
    ensures others { JustWrites (D.outside host.old) (D.outside host.new) result }
{
    let blocks = 2 * volume.geometry.half + 1;
    let size = volume.geometry.blocksize as usize;
    let mut buffer = [0; PIECE];
    let mut first = 0;
    while first < blocks {
        let count = (blocks - first).min((PIECE / size) as u32);
        write_piece(
            host,
            volume,
            first,
            count,
            &mut buffer[..count as usize * size],
        )?;
        first += count;
    }
    Ok(())
}

/// Writes all blocks of both halves and the root directory's block, and has them kept.
pub fn write_blocks<D: Dev>(host: &mut D, volume: &NewVolume) -> Result<(), Failed>
    requires geometry { IsGeometry volume.now.geometry }
    requires len { IfSome (D.outside host.old).extent (λ n. volume.now.geometry.len4 ≤ n) }
    ensures stage { (bytes : List ℕ) → volume.now.geometry.len4 ≤ length bytes
        → Performs (blocks_stage volume.now.geometry volume.now.order volume.now.moment bytes) result (D.outside host.old) (D.outside host.new) }
    ensures others { JustWrites (D.outside host.old) (D.outside host.new) result }
{
    write_pieces(host, volume)?;
    host.sync()?;
    Ok(())
}

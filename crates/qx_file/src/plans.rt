//! Which leaves a write or a new size writes.
ghost use Rattle.std.specs.Prelude.{◌≡◌, ◌<◌, ◌≤◌, ◌+◌, None, Ok, IsErr, IsTrue};
ghost use Rattle.qx_geom.specs.Layout.{is_block_size};
ghost use Rattle.qx_geom.specs.Room.{greatest_end};
ghost use Rattle.qx_file.specs.FilePlans.{size_change, write_change};

use qx_geom::Root;
use qx_ptree::Change;
use thiserror::Error;

// The greatest end of a file, in bytes.
const GREATEST_END: u64 = 1 << 48;

/// The file would end past 2^48 bytes (this project's own bound).
#[derive(Clone, Copy, Debug, PartialEq, Eq, Error)]
#[error("a file has at most 2^48 bytes")]
pub struct TooBig;

/// The change of a node for a write of `count` bytes, not 0, from byte `at` on. The file grows where they pass its end.
pub fn plan_write(node: &Root, at: u64, count: u64, blocksize: u32) -> Result<Change, TooBig>
    requires some { 0 < count }
    requires blocksize { IsTrue (is_block_size blocksize) }
    ensures fits { at + count ≤ greatest_end → result ≡ Ok (write_change node.now at count blocksize) }
    ensures too_big { greatest_end < at + count → IsErr result }
{
    let size = u64::from(blocksize);
    match at.checked_add(count) {
        Some(end) if end <= GREATEST_END => {
            let first = at / size;
            Ok(range(node.size.max(end), first, (end - 1) / size + 1 - first))
        }
        _ => Err(TooBig),
    }
}

/// The change of a node to a new size. Where the file is cut within a leaf, the caller puts 0 past the end of that leaf; `last_present` says whether leaf `size / blocksize` of the node lies below its size and is present.
pub fn plan_size(
    node: &Root,
    size: u64,
    last_present: bool,
    blocksize: u32,
) -> Result<Change, TooBig>
    requires blocksize { IsTrue (is_block_size blocksize) }
    ensures fits { size ≤ greatest_end → result ≡ Ok (size_change node.now size last_present blocksize) }
    ensures too_big { greatest_end < size → IsErr result }
{
    if size > GREATEST_END {
        return Err(TooBig);
    }
    let block = u64::from(blocksize);
    let cut = last_present && size < node.size && size % block != 0;
    Ok(range(size, size / block, u64::from(cut)))
}

// A change to this size that writes some leaves.
fn range(size: u64, first: u64, count: u64) -> Change
    ensures { result ≡ record { size = size; first = first; count = count; also = None; gone = None } }
{
    Change {
        size,
        first,
        count,
        also: None,
        gone: None,
    }
}

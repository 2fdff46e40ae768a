//! Bytes that are a path, or their refusal.
ghost use Rattle.std.specs.Prelude.{◌≡◌, IfOk};
ghost use Rattle.qx_path.specs.PathParts.{parts_of};
ghost use Rattle.qx_model.specs.Paths.{parsed, path_refusal};

use qx_model::Refusal;
use qx_path::{Path, PathFault};

/// The path that the bytes are, or how an act answers that they are none.
pub fn parse(bytes: &[u8]) -> Result<Path<'_>, Refusal>
    ensures parsed { result ≡ parsed bytes.now }
    ensures parts { IfOk result (λ path. path ≡ parts_of bytes.now) }
{
    match Path::parse(bytes) {
        Ok(path) => Ok(path),
        Err(fault) => Err(refusal_for(fault)),
    }
}

// How an act answers bytes that are no path.
fn refusal_for(fault: PathFault) -> Refusal
    ensures { result ≡ path_refusal fault }
{
    match fault {
        PathFault::Empty | PathFault::TooLong | PathFault::ZeroByte => Refusal::BadPath,
        PathFault::NameTooLong => Refusal::NameTooLong,
    }
}

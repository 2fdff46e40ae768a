//! Why bytes are no path.
use thiserror::Error;

/// Why bytes are no path. The tests come in the order empty, too long, byte 0, name too long.
#[derive(Clone, Copy, Debug, PartialEq, Eq, Error)]
pub enum PathFault {
    /// There are no bytes.
    #[error("the path is empty")]
    Empty,
    /// There are more than 1,023 bytes.
    #[error("the path has more than 1023 bytes")]
    TooLong,
    /// A name has more than 510 bytes.
    #[error("a name has more than 510 bytes")]
    NameTooLong,
    /// There is a byte 0.
    #[error("the path has a byte 0")]
    ZeroByte,
}

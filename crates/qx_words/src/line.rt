//! A line of a script.
use qx_model::Act;

/// The bytes of the longest line, without its newline (this project's own).
pub const LINE_LIMIT: usize = 8192;

/// What a line asks for.
#[derive(Drop)]
pub struct Line {
    /// Whose act it is.
    pub session: u64,
    pub act: Act,
    /// The script is over with this line, whose act is the end.
    pub quit: bool,
}

/// Why bytes aren't read as a line.
#[derive(Clone, Copy, Debug, PartialEq, Eq)]
pub enum LineFault {
    /// They have no reading; so many of them begin some line that has one. Of more than 8,192 bytes 8,192 is said.
    BadLine { at: u32 },
    /// Memory is wanting.
    NoMemory,
}

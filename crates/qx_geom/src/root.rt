//! What a node is on disk.

/// The pointer that points at no block, as the format writes it (`qnx6_fs.h`).
pub const ABSENT: u32 = 0xFFFF_FFFF;

/// A node on disk: where its bytes stand (`struct qnx6_root_node` of `qnx6_fs.h`).
#[derive(Clone, Copy, Debug, PartialEq, Eq)]
pub struct Root {
    /// The node's size in bytes.
    pub size: u64,
    /// Block numbers, or [`ABSENT`]: of leaves at 0 levels, else of the topmost pointer blocks.
    pub pointers: [u32; 16],
    /// How many levels of pointer blocks stand above the leaves, 0 to 5.
    pub levels: u8,
}

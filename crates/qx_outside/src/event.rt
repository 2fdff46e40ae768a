//! What happens outside.

use crate::ByteList;

/// The answer of an outside call that failed.
#[derive(Clone, Copy, Debug, PartialEq, Eq)]
pub struct Failed;

/// What one outside call did, as a trail keeps it.
#[derive(Drop)]
pub enum Event {
    /// Input bytes were taken; none at the end of the input.
    Took(ByteList),
    /// Bytes were put to the output.
    Gave(ByteList),
    /// The device was written from byte `at` on. `left` is what stands there since, also after a failure.
    Wrote { at: u64, left: ByteList, ok: bool },
    /// The device was asked to keep what was written.
    Synced { ok: bool },
    /// The device was asked to have this length in bytes.
    Sized { len: u64, ok: bool },
    /// The clock told this moment, in seconds since 1970.
    Now(u32),
}

/// An image that was asked for as the device, whether it could be had or not.
#[derive(Drop)]
pub struct Attachment {
    pub path: ByteList,
    /// Whether a missing image was to be made.
    pub create: bool,
}

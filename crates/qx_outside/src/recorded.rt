//! How much a device has recorded.
ghost use Rattle.std.specs.Prelude.{◌≡◌, length, IsTrue};

use crate::Dev;

/// A device that says how much it has recorded. Code over any `Dev` or `Host` can't ask, and so does the same on a device that tells its history as on a real one, which doesn't.
pub trait Recorded: Dev {
    /// How many events the trail has, where it is told. This is no outside call.
    fn events(&self) -> u64
        ensures { IsTrue (Self.outside self.now).tells
            → result ≡ length (Self.outside self.now).history.deeds };
}

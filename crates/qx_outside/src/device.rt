//! The device: an image of so many bytes, read, written and made to keep what was written.
ghost use Rattle.std.specs.Prelude.{◌≡◌, ◌+◌, ◌≤◌, ◌<◌, ◌∷◌, Option, length, OnOk, OnErr, IfOk, IfSome, IsTrue, true, false, slice_range};
ghost use Rattle.std.specs.Option.{option_map};
ghost use Rattle.qx_outside.specs.Causes.{Becomes, HasCause, StaysWhereTold};
ghost use Rattle.qx_outside.specs.Outside.{Outside};
ghost use Rattle.qx_outside.specs.Trail.{Deed.{wrote, synced, sized}, bytes_of};
ghost use Rattle.qx_outside.specs.Calls.{Did, MayDo, Idles, Writes, FailsToWrite, Syncs, Sizes, LeavesConsole, LeavesRest};

use crate::Failed;

/// A device. Each call is an outside call: it may fail, and then the count of device faults rose.
pub trait Dev {
    /// What the object tells of the outside, and what it counts. A real file tells nothing, and counts its faults alone.
    ghost outside: { Self → Outside };

    /// Takes the image at the path as the device. With `create` a missing one is made empty.
    fn attach(&mut self, path: &str, create: bool) -> Result<(), Failed>
        ensures step { Idles (outside self.old) (outside self.new) }
        ensures attached { Becomes (outside self.old).attached (outside self.new).attached (λ old new. new ≡ record { path = path.now; create = create } ∷ old) }
        ensures reads { (outside self.new).dev_reads ≡ (outside self.old).dev_reads }
        ensures console { (outside self.new).con_faults ≡ (outside self.old).con_faults }
        ensures cause { HasCause (outside self.old).dev_faults (outside self.new).dev_faults result };

    /// The device's length in bytes.
    fn len(&mut self) -> Result<u64, Failed>
        ensures value { IfOk result (λ n. IfSome (outside self.new).extent (λ len. n ≡ len)) }
        ensures step { Idles (outside self.old) (outside self.new) }
        ensures others { LeavesRest (outside self.old) (outside self.new) }
        ensures cause { HasCause (outside self.old).dev_faults (outside self.new).dev_faults result };

    /// Sets the length, at once in every image. Added bytes are 0.
    fn set_len(&mut self, len: u64) -> Result<(), Failed>
        ensures ok { OnOk result (Did (sized len true) (outside self.old) (outside self.new)) }
        ensures err { OnErr result (MayDo (sized len false) (outside self.old) (outside self.new)) }
        ensures step { Sizes len (outside self.old) (outside self.new) }
        ensures extent { OnOk result (Becomes (outside self.old).extent (outside self.new).extent (λ old new. new ≡ len)) }
        ensures extent_err { OnErr result (StaysWhereTold (outside self.old).extent (outside self.new).extent) }
        ensures reads { (outside self.new).dev_reads ≡ (outside self.old).dev_reads }
        ensures others { LeavesConsole (outside self.old) (outside self.new) }
        ensures cause { HasCause (outside self.old).dev_faults (outside self.new).dev_faults result };

    /// Fills the slice with the device's bytes from byte `at` on.
    fn read_at(&mut self, at: u64, into: &mut [u8]) -> Result<(), Failed>
        requires { IfSome (outside self.old).extent (λ len. at + length into.old ≤ len) }
        ensures bytes { OnOk result (IsTrue (outside self.new).tells
            → into.new ≡ slice_range (bytes_of (outside self.old).history) at (at + length into.old)) }
        ensures step { Idles (outside self.old) (outside self.new) }
        ensures extent { StaysWhereTold (outside self.old).extent (outside self.new).extent }
        ensures reads { OnOk result ((outside self.new).dev_reads
            ≡ option_map (λ n. n + 1) (outside self.old).dev_reads) }
        ensures reads_err { OnErr result ((outside self.new).dev_reads ≡ (outside self.old).dev_reads) }
        ensures others { LeavesConsole (outside self.old) (outside self.new) }
        ensures cause { HasCause (outside self.old).dev_faults (outside self.new).dev_faults result };

    /// Writes the bytes from byte `at` on. After a failure anything may stand in their place.
    fn write_at(&mut self, at: u64, bytes: &[u8]) -> Result<(), Failed>
        requires { IfSome (outside self.old).extent (λ len. at + length bytes.now ≤ len) }
        ensures ok { OnOk result (Did (wrote at bytes.now bytes.now true) (outside self.old) (outside self.new)) }
        ensures err { OnErr result (FailsToWrite at bytes.now (outside self.old) (outside self.new)) }
        ensures step { Writes at bytes.now (outside self.old) (outside self.new) }
        ensures others { LeavesRest (outside self.old) (outside self.new) }
        ensures cause { HasCause (outside self.old).dev_faults (outside self.new).dev_faults result };

    /// After an Ok a loss of power leaves what reads give, until later writes.
    fn sync(&mut self) -> Result<(), Failed>
        ensures ok { OnOk result (Did (synced true) (outside self.old) (outside self.new)) }
        ensures err { OnErr result (MayDo (synced false) (outside self.old) (outside self.new)) }
        ensures step { Syncs (outside self.old) (outside self.new) }
        ensures others { LeavesRest (outside self.old) (outside self.new) }
        ensures cause { HasCause (outside self.old).dev_faults (outside self.new).dev_faults result };

    /// Where the history is told, the length is told too, and is that of the bytes.
    ghost extent_is: { (s : Self) → IsTrue (outside s).tells → (outside s).extent ≡ Option.Some (length (bytes_of (outside s).history)) };
}

//! The console and the clock, beside a device.
ghost use Rattle.std.specs.Prelude.{◌≡◌, ◌<◌, ◌≤◌, length, OnOk, OnErr, IfOk, take};
ghost use Rattle.qx_outside.specs.Causes.{HasCause};
ghost use Rattle.qx_outside.specs.Trail.{Deed.{took, gave, told_moment}};
ghost use Rattle.qx_outside.specs.Calls.{Did, Idles, FailsToGive, Converses, LeavesDevice};

use crate::{Dev, Failed};

/// A device with a console and a clock. A call here that fails raises the count of console faults.
pub trait Host: Dev {
    /// Puts input bytes at the front of the slice, and answers how many. 0 is the end of the input.
    fn take(&mut self, into: &mut [u8]) -> Result<usize, Failed>
        requires { 0 < length into.old }
        ensures count { IfOk result (λ n. n ≤ length into.new) }
        ensures ok { IfOk result (λ n. Did (took (take n into.new)) (Self.outside self.old) (Self.outside self.new)) }
        ensures err { OnErr result (Idles (Self.outside self.old) (Self.outside self.new)) }
        ensures step { Converses (Self.outside self.old) (Self.outside self.new) }
        ensures others { LeavesDevice (Self.outside self.old) (Self.outside self.new) }
        ensures cause { HasCause (Self.outside self.old).con_faults (Self.outside self.new).con_faults result };

    /// Writes all bytes to the output. After a failure a prefix of them was written.
    fn put(&mut self, bytes: &[u8]) -> Result<(), Failed>
        ensures ok { OnOk result (Did (gave bytes.now) (Self.outside self.old) (Self.outside self.new)) }
        ensures err { OnErr result (FailsToGive bytes.now (Self.outside self.old) (Self.outside self.new)) }
        ensures step { Converses (Self.outside self.old) (Self.outside self.new) }
        ensures others { LeavesDevice (Self.outside self.old) (Self.outside self.new) }
        ensures cause { HasCause (Self.outside self.old).con_faults (Self.outside self.new).con_faults result };

    /// The moment, in seconds since 1970.
    fn now(&mut self) -> Result<u32, Failed>
        ensures ok { IfOk result (λ moment. Did (told_moment moment) (Self.outside self.old) (Self.outside self.new)) }
        ensures err { OnErr result (Idles (Self.outside self.old) (Self.outside self.new)) }
        ensures step { Converses (Self.outside self.old) (Self.outside self.new) }
        ensures others { LeavesDevice (Self.outside self.old) (Self.outside self.new) }
        ensures cause { HasCause (Self.outside self.old).con_faults (Self.outside self.new).con_faults result };
}

//! The console and the clock of the host under a cache.
ghost use Rattle.std.specs.Prelude.{◌≡◌, ◌≤◌, ◌<◌, length, take, IfOk, OnOk, OnErr};
ghost use Rattle.qx_outside.specs.Trail.{Deed.{gave, told_moment, took}};
ghost use Rattle.qx_outside.specs.Calls.{Converses, Did, FailsToGive, Idles, LeavesDevice};
ghost use Rattle.qx_cache.specs.Calls.{HasConsoleCause, OnlyAsks};

use crate::Cache;
use qx_outside::{Failed, Host};

impl<H: Host> Cache<H> {
    /// Puts input bytes at the front of the slice, and answers how many. 0 is the end of the input.
    pub fn take(&mut self, into: &mut [u8]) -> Result<usize, Failed>
        requires { 0 < length into.old }

        ensures long { length into.new ≡ length into.old }
        ensures count { IfOk result (λ n. n ≤ length into.new) }
        ensures ok { IfOk result (λ n.
            Did (took (take n into.new)) (H.outside self.old.host) (H.outside self.new.host)) }
        ensures err { OnErr result (Idles (H.outside self.old.host) (H.outside self.new.host)) }
        ensures step { Converses (H.outside self.old.host) (H.outside self.new.host) }
        ensures cause { HasConsoleCause H.outside self.old self.new result }

        ensures rest { OnlyAsks H.outside self.old self.new }
        ensures others { LeavesDevice (H.outside self.old.host) (H.outside self.new.host) }
    {
        self.host.take(into)
    }

    /// Writes all bytes to the output. After a failure a prefix of them was written.
    pub fn put(&mut self, bytes: &[u8]) -> Result<(), Failed>
        ensures ok { OnOk result (Did (gave bytes.now) (H.outside self.old.host) (H.outside self.new.host)) }
        ensures err { OnErr result
            (FailsToGive bytes.now (H.outside self.old.host) (H.outside self.new.host)) }
        ensures step { Converses (H.outside self.old.host) (H.outside self.new.host) }
        ensures cause { HasConsoleCause H.outside self.old self.new result }

        ensures rest { OnlyAsks H.outside self.old self.new }
        ensures others { LeavesDevice (H.outside self.old.host) (H.outside self.new.host) }
    {
        self.host.put(bytes)
    }

    /// The moment, in seconds since 1970.
    pub fn now(&mut self) -> Result<u32, Failed>
        ensures ok { IfOk result (λ moment.
            Did (told_moment moment) (H.outside self.old.host) (H.outside self.new.host)) }
        ensures err { OnErr result (Idles (H.outside self.old.host) (H.outside self.new.host)) }
        ensures step { Converses (H.outside self.old.host) (H.outside self.new.host) }
        ensures cause { HasConsoleCause H.outside self.old self.new result }

        ensures rest { OnlyAsks H.outside self.old self.new }
        ensures others { LeavesDevice (H.outside self.old.host) (H.outside self.new.host) }
    {
        self.host.now()
    }
}

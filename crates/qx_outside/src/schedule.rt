//! Which calls of a host in memory fail.
ghost use Rattle.std.specs.Prelude.{◌≡◌, ◌+◌, ◌-◌, ◌<◌, ◌≤◌, ◌^◌, min, true, IsErr};
ghost use Rattle.qx_outside.specs.Causes.{HasCause};

use crate::Failed;

/// What becomes of a call: it goes on, it fails with an event, or it fails and leaves all as it was.
#[derive(Clone, Copy, PartialEq, Eq, Debug)]
pub enum Fate {
    Good,
    Bad,
    NoRoom,
}

#[derive(Drop)]
pub struct Schedule {
    pub failing: Vec<u64>,
    pub calls: u64,
    pub reads: u64,
    ghost reads_bound: { reads ≤ calls },
}

impl Schedule {
    ghost use Rattle.qx_outside.specs.Schedule.{fate_of};

    /// Before the first call.
    pub fn new(failing: Vec<u64>) -> Schedule
        ensures failing { result.failing ≡ failing }
        ensures calls { result.calls ≡ 0 }
        ensures reads { result.reads ≡ 0 }
    {
        Schedule {
            failing,
            calls: 0,
            reads: 0,
        }
    }

    /// Counts a call, and answers its fate.
    pub fn next(&mut self, full: bool) -> Fate
        ensures fate { result ≡ fate_of self.old.failing.items self.old.calls full }
        ensures calls { self.new.calls ≡ min (self.old.calls + 1) (2 ^ 64 - 1) }
        ensures failing { self.new.failing ≡ self.old.failing }
        ensures reads { self.new.reads ≡ self.old.reads }
        ensures good { result ≡ Fate.Good → self.new.reads < self.new.calls }
    {
        let number = self.calls;
        self.calls = number.saturating_add(1);
        if full {
            Fate::NoRoom
        } else if number == u64::MAX || self.failing.contains(&number) {
            Fate::Bad
        } else {
            Fate::Good
        }
    }

    /// Counts a device read that was Ok.
    pub fn count_read(&mut self)
        requires { self.old.reads < self.old.calls }
        ensures reads { self.new.reads ≡ self.old.reads + 1 }
        ensures calls { self.new.calls ≡ self.old.calls }
        ensures failing { self.new.failing ≡ self.old.failing }
    {
        self.reads += 1;
    }
}

/// Raises a count of faults.
pub fn fault<T>(count: &mut u64) -> Result<T, Failed>
    ensures result { IsErr result }
    ensures cause { HasCause count.old count.new result }
{
    *count = count.saturating_add(1);
    Err(Failed)
}

/// Raises a count of faults for want of memory, and notes that.
pub fn lack<T>(lacked: &mut bool, count: &mut u64) -> Result<T, Failed>
    ensures result { IsErr result }
    ensures lacked { lacked.new ≡ true }
    ensures cause { HasCause count.old count.new result }
{
    *lacked = true;
    fault(count)
}

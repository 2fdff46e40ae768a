//! The console and the clock of a host in memory.
ghost use Rattle.std.specs.Prelude.{◌≡◌, ◌+◌, ◌<◌, ◌≤◌, ◌/◌, ◌++◌, length, min, take, drop, false, Some, None, IfOk, OnOk, OnErr, is_ok};
ghost use Rattle.qx_outside.specs.Causes.{HasCause};
ghost use Rattle.qx_outside.specs.Trail.{took, gave, told_moment};
ghost use Rattle.qx_outside.specs.Calls.{Did, Idles, FailsToGive, Converses, LeavesDevice};

use super::MemHost;
use crate::log::copy_of;
use crate::schedule::{Fate, fault, lack};
use crate::{Event, Failed, Host};

impl Host for MemHost {
    ghost use Rattle.qx_outside.specs.Memory.{outside_of, setup_of, counted, taken_off, asked_again, moment_at, KeepsRule};

    fn take(&mut self, into: &mut [u8]) -> Result<usize, Failed>
        requires { 0 < length into.old }
        ensures count { IfOk result (λ n. n ≤ length into.new) }
        ensures ok { IfOk result (λ n. Did (took (take n into.new)) (outside_of self.old) (outside_of self.new)) }
        ensures err { OnErr result (Idles (outside_of self.old) (outside_of self.new)) }
        ensures step { Converses (outside_of self.old) (outside_of self.new) }
        ensures others { LeavesDevice (outside_of self.old) (outside_of self.new) }
        ensures cause { HasCause (outside_of self.old).con_faults (outside_of self.new).con_faults result }
        ensures most { IfOk result (λ n. n ≡ min (length (setup_of self.old).input) (length into.old)) }
        ensures bytes { IfOk result (λ n. into.new ≡ take n (setup_of self.old).input ++ drop n into.old) }
        ensures rule { KeepsRule (Some (took (take (min (length (setup_of self.old).input) (length into.old)) (setup_of self.old).input))) None
            (is_ok result) self.old self.new }
        ensures setup { IfOk result (λ n. setup_of self.new ≡ taken_off n (setup_of self.old)) }
        ensures setup_err { OnErr result (setup_of self.new ≡ counted (setup_of self.old)) }
    {
        let full = self.is_full();
        match self.schedule.next(full) {
            Fate::Good => {
                let rest = &self.input[self.taken..];
                let count = rest.len().min(into.len());
                let Ok(taken) = copy_of(self.alloc, &rest[..count]) else {
                    return lack(&mut self.lacked, &mut self.con_faults);
                };
                if self.log.add(Event::Took(taken)).is_err() {
                    return lack(&mut self.lacked, &mut self.con_faults);
                }
                into[..count].copy_from_slice(&self.input[self.taken..self.taken + count]);
                self.taken += count;
                Ok(count)
            }
            _ => fault(&mut self.con_faults),
        }
    }

    fn put(&mut self, bytes: &[u8]) -> Result<(), Failed>
        ensures ok { OnOk result (Did (gave bytes.now) (outside_of self.old) (outside_of self.new)) }
        ensures err { OnErr result (FailsToGive bytes.now (outside_of self.old) (outside_of self.new)) }
        ensures step { Converses (outside_of self.old) (outside_of self.new) }
        ensures others { LeavesDevice (outside_of self.old) (outside_of self.new) }
        ensures cause { HasCause (outside_of self.old).con_faults (outside_of self.new).con_faults result }
        ensures rule { KeepsRule (Some (gave bytes.now)) (Some (gave (take (length bytes.now / 2) bytes.now))) (is_ok result) self.old self.new }
        ensures setup { setup_of self.new ≡ counted (setup_of self.old) }
    {
        let full = self.is_full();
        let (ok, kept) = match self.schedule.next(full) {
            Fate::NoRoom => return fault(&mut self.con_faults),
            Fate::Bad => (false, bytes.len() / 2),
            Fate::Good => (true, bytes.len()),
        };
        let Ok(given) = copy_of(self.alloc, &bytes[..kept]) else {
            return lack(&mut self.lacked, &mut self.con_faults);
        };
        if self.log.add(Event::Gave(given)).is_err() {
            return lack(&mut self.lacked, &mut self.con_faults);
        }
        if ok {
            Ok(())
        } else {
            fault(&mut self.con_faults)
        }
    }

    fn now(&mut self) -> Result<u32, Failed>
        ensures ok { IfOk result (λ moment. Did (told_moment moment) (outside_of self.old) (outside_of self.new)) }
        ensures err { OnErr result (Idles (outside_of self.old) (outside_of self.new)) }
        ensures step { Converses (outside_of self.old) (outside_of self.new) }
        ensures others { LeavesDevice (outside_of self.old) (outside_of self.new) }
        ensures cause { HasCause (outside_of self.old).con_faults (outside_of self.new).con_faults result }
        ensures rule { KeepsRule (Some (told_moment (moment_at (setup_of self.old)))) None (is_ok result) self.old self.new }
        ensures setup { OnOk result (setup_of self.new ≡ asked_again (setup_of self.old)) }
        ensures setup_err { OnErr result (setup_of self.new ≡ counted (setup_of self.old)) }
    {
        let full = self.is_full();
        match self.schedule.next(full) {
            Fate::Good => {
                let moment = match self.moments.get(self.moments_told) {
                    Some(moment) => *moment,
                    None => self.moments.last().copied().unwrap_or(0),
                };
                if self.log.add(Event::Now(moment)).is_err() {
                    return lack(&mut self.lacked, &mut self.con_faults);
                }
                self.moments_told = self.moments_told.saturating_add(1);
                Ok(moment)
            }
            _ => fault(&mut self.con_faults),
        }
    }
}

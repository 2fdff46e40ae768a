//! The device of a host in memory.
ghost use Rattle.std.specs.Prelude.{◌≡◌, ◌+◌, ◌≤◌, ◌<◌, ◌∷◌, ◌^◌, ◌⊎◌, true, false, length, reverse, Some, None, IfOk, IfSome, OnOk, OnErr, IsOk, IsTrue, is_ok, slice_range};
ghost use Rattle.std.proofs.Common.{ap};
ghost use Rattle.std.specs.Option.{option_map};
ghost use Rattle.qx_outside.specs.Causes.{Becomes, HasCause, StaysWhereTold};
ghost use Rattle.qx_outside.specs.Trail.{wrote, synced, sized, bytes_of};
ghost use Rattle.qx_outside.specs.Calls.{Did, MayDo, Idles, Writes, FailsToWrite, Syncs, Sizes, LeavesConsole, LeavesRest};

use super::MemHost;
use crate::log::{copy_of, joined, read_from};
use crate::schedule::{Fate, fault, lack};
use crate::{Dev, Event, Failed, Recorded};

impl Dev for MemHost {
    ghost use Rattle.qx_outside.specs.Memory.{outside_of, setup_of, lacked_of, next_fate, counted, KeepsRule, half_left};

    ghost outside = { outside_of };

    fn attach(&mut self, path: &str, create: bool) -> Result<(), Failed>
        ensures step { Idles (outside_of self.old) (outside_of self.new) }
        ensures attached { Becomes (outside_of self.old).attached (outside_of self.new).attached (λ old new. new ≡ record { path = path.now; create = create } ∷ old) }
        ensures kept { lacked_of self.new ≡ false
            → (outside_of self.new).attached
            ≡ option_map (λ old. record { path = path.now; create = create } ∷ old) (outside_of self.old).attached }
        ensures reads { (outside_of self.new).dev_reads ≡ (outside_of self.old).dev_reads }
        ensures console { (outside_of self.new).con_faults ≡ (outside_of self.old).con_faults }
        ensures cause { HasCause (outside_of self.old).dev_faults (outside_of self.new).dev_faults result }
        ensures rule { KeepsRule None None (is_ok result) self.old self.new }
        ensures setup { setup_of self.new ≡ counted (setup_of self.old) }
    {
        let kept = match &mut self.attached {
            Some(paths) => paths.add(self.alloc, path.as_bytes(), create).is_ok(),
            None => true,
        };
        let full = self.is_full();
        let fate = self.schedule.next(full);
        if !kept {
            self.attached = None;
            return lack(&mut self.lacked, &mut self.dev_faults);
        }
        match fate {
            Fate::Good => Ok(()),
            _ => fault(&mut self.dev_faults),
        }
    }

    fn len(&mut self) -> Result<u64, Failed>
        ensures value { IfOk result (λ n. IfSome (outside_of self.new).extent (λ len. n ≡ len)) }
        ensures step { Idles (outside_of self.old) (outside_of self.new) }
        ensures others { LeavesRest (outside_of self.old) (outside_of self.new) }
        ensures cause { HasCause (outside_of self.old).dev_faults (outside_of self.new).dev_faults result }
        ensures rule { KeepsRule None None (is_ok result) self.old self.new }
        ensures good { next_fate self.old ≡ Fate.Good → IsOk result }
        ensures setup { setup_of self.new ≡ counted (setup_of self.old) }
    {
        let full = self.is_full();
        match self.schedule.next(full) {
            Fate::Good => Ok(self.bytes.len() as u64),
            _ => fault(&mut self.dev_faults),
        }
    }

    fn set_len(&mut self, len: u64) -> Result<(), Failed>
        ensures ok { OnOk result (Did (sized len true) (outside_of self.old) (outside_of self.new)) }
        ensures err { OnErr result (MayDo (sized len false) (outside_of self.old) (outside_of self.new)) }
        ensures step { Sizes len (outside_of self.old) (outside_of self.new) }
        ensures extent { OnOk result (Becomes (outside_of self.old).extent (outside_of self.new).extent (λ old new. new ≡ len)) }
        ensures extent_err { OnErr result (StaysWhereTold (outside_of self.old).extent (outside_of self.new).extent) }
        ensures reads { (outside_of self.new).dev_reads ≡ (outside_of self.old).dev_reads }
        ensures others { LeavesConsole (outside_of self.old) (outside_of self.new) }
        ensures cause { HasCause (outside_of self.old).dev_faults (outside_of self.new).dev_faults result }
        ensures rule { KeepsRule (Some (sized len true)) (Some (sized len false))
            (is_ok result) self.old self.new }
        ensures setup { setup_of self.new ≡ counted (setup_of self.old) }
    {
        let full = self.is_full();
        match self.schedule.next(full) {
            Fate::NoRoom => fault(&mut self.dev_faults),
            Fate::Bad => match self.log.add(Event::Sized { len, ok: false }) {
                Ok(()) => fault(&mut self.dev_faults),
                Err(_) => lack(&mut self.lacked, &mut self.dev_faults),
            },
            Fate::Good => {
                let wanted = len as usize;
                let now = self.bytes.len();
                if wanted > now && self.bytes.reserve_exact(wanted - now).is_err() {
                    return lack(&mut self.lacked, &mut self.dev_faults);
                }
                if self.log.add(Event::Sized { len, ok: true }).is_err() {
                    return lack(&mut self.lacked, &mut self.dev_faults);
                }
                let _ = self.bytes.resize(wanted, 0);
                Ok(())
            }
        }
    }

    fn read_at(&mut self, at: u64, into: &mut [u8]) -> Result<(), Failed>
        requires { IfSome (outside_of self.old).extent (λ len. at + length into.old ≤ len) }
        ensures bytes { OnOk result (IsTrue (outside_of self.new).tells
            → into.new ≡ slice_range (bytes_of (outside_of self.old).history) at (at + length into.old)) }
        ensures step { Idles (outside_of self.old) (outside_of self.new) }
        ensures extent { StaysWhereTold (outside_of self.old).extent (outside_of self.new).extent }
        ensures reads { OnOk result ((outside_of self.new).dev_reads
            ≡ option_map (λ n. n + 1) (outside_of self.old).dev_reads) }
        ensures reads_err { OnErr result ((outside_of self.new).dev_reads ≡ (outside_of self.old).dev_reads) }
        ensures others { LeavesConsole (outside_of self.old) (outside_of self.new) }
        ensures cause { HasCause (outside_of self.old).dev_faults (outside_of self.new).dev_faults result }
        ensures rule { KeepsRule None None (is_ok result) self.old self.new }
        ensures good { next_fate self.old ≡ Fate.Good → IsOk result }
        ensures setup { setup_of self.new ≡ counted (setup_of self.old) }
    {
        let full = self.is_full();
        match self.schedule.next(full) {
            Fate::Good => {
                read_from(&self.bytes, at as usize, into);
                self.schedule.count_read();
                Ok(())
            }
            _ => fault(&mut self.dev_faults),
        }
    }

    fn write_at(&mut self, at: u64, bytes: &[u8]) -> Result<(), Failed>
        requires { IfSome (outside_of self.old).extent (λ len. at + length bytes.now ≤ len) }
        ensures ok { OnOk result (Did (wrote at bytes.now bytes.now true) (outside_of self.old) (outside_of self.new)) }
        ensures err { OnErr result (FailsToWrite at bytes.now (outside_of self.old) (outside_of self.new)) }
        ensures step { Writes at bytes.now (outside_of self.old) (outside_of self.new) }
        ensures others { LeavesRest (outside_of self.old) (outside_of self.new) }
        ensures cause { HasCause (outside_of self.old).dev_faults (outside_of self.new).dev_faults result }
        ensures rule { KeepsRule (Some (wrote at bytes.now bytes.now true))
            (Some (wrote at bytes.now (half_left (bytes_of (outside_of self.old).history) at bytes.now) false))
            (is_ok result) self.old self.new }
        ensures setup { setup_of self.new ≡ counted (setup_of self.old) }
    {
        let full = self.is_full();
        let (ok, kept) = match self.schedule.next(full) {
            Fate::NoRoom => return fault(&mut self.dev_faults),
            Fate::Bad => (false, bytes.len() / 2),
            Fate::Good => (true, bytes.len()),
        };
        let at = at as usize;
        let Ok(left) = joined(self.alloc, bytes, &self.bytes[at..], kept) else {
            return lack(&mut self.lacked, &mut self.dev_faults);
        };
        let Ok(asked) = copy_of(self.alloc, bytes) else {
            return lack(&mut self.lacked, &mut self.dev_faults);
        };
        if self
            .log
            .write(&mut self.bytes, at, left, ok, asked)
            .is_err()
        {
            return lack(&mut self.lacked, &mut self.dev_faults);
        }
        if ok {
            Ok(())
        } else {
            fault(&mut self.dev_faults)
        }
    }

    fn sync(&mut self) -> Result<(), Failed>
        ensures ok { OnOk result (Did (synced true) (outside_of self.old) (outside_of self.new)) }
        ensures err { OnErr result (MayDo (synced false) (outside_of self.old) (outside_of self.new)) }
        ensures step { Syncs (outside_of self.old) (outside_of self.new) }
        ensures others { LeavesRest (outside_of self.old) (outside_of self.new) }
        ensures cause { HasCause (outside_of self.old).dev_faults (outside_of self.new).dev_faults result }
        ensures rule { KeepsRule (Some (synced true)) (Some (synced false))
            (is_ok result) self.old self.new }
        ensures setup { setup_of self.new ≡ counted (setup_of self.old) }
    {
        let full = self.is_full();
        match self.schedule.next(full) {
            Fate::NoRoom => fault(&mut self.dev_faults),
            Fate::Bad => match self.log.add(Event::Synced { ok: false }) {
                Ok(()) => fault(&mut self.dev_faults),
                Err(_) => lack(&mut self.lacked, &mut self.dev_faults),
            },
            Fate::Good => match self.log.add(Event::Synced { ok: true }) {
                Ok(()) => Ok(()),
                Err(_) => lack(&mut self.lacked, &mut self.dev_faults),
            },
        }
    }

    ghost extent_is = { λ s _. ap (λ xs. Some (length xs)) s.in_step };
}

impl Recorded for MemHost {
    fn events(&self) -> u64 {
        self.log.trail.len() as u64
    }
}

//! A host in memory, for tests: it fails where it is told to, and tells everything.
ghost use Rattle.std.specs.Prelude.{◌≡◌, ◌≤◌, [], length, reverse, nat_le, false, Some, IfOk, IfSome};
ghost use Rattle.qx_outside.specs.Trail.{device_bytes, deeds_of, bytes_of, trail_of, output};

mod console;
mod device;

use crate::Event;
use crate::log::{Log, Paths};
use crate::schedule::Schedule;
use std::alloc::{AllocError, Global};

/// A host in memory. Its calls are numbered from 0 over all methods of both traits.
/// A call fails where its number is on the list, where its number is 2^64 - 1, where the trail has as many events as it has room for, or where its own copy finds no memory.
/// For want of room or of memory it fails with no event and changes no byte; else a failed write or put leaves the first half of its bytes, rounded down.
/// That it found no memory is noted (`lacked`), so that a test can rule it out.
#[derive(Drop)]
pub struct MemHost {
    alloc: Global,
    start: Vec<u8>,
    bytes: Vec<u8>,
    log: Log,
    attached: Option<Paths>,
    input: Vec<u8>,
    taken: usize,
    moments: Vec<u32>,
    moments_told: usize,
    schedule: Schedule,
    room: usize,
    dev_faults: u64,
    con_faults: u64,
    // Whether a copy of its own found no memory.
    lacked: bool,
    ghost in_step: { bytes.items ≡ device_bytes start.items (deeds_of (reverse log.trail.items) (reverse log.asked.items)) },
    ghost taken_bound: { taken ≤ length input.items },
}

impl MemHost {
    ghost use Rattle.qx_outside.specs.Memory.{outside_of, setup_of, lacked_of};

    /// A host over a device of these bytes, with this input. The k-th asking of the clock gives the k-th moment, then the last one again, or 0 where there is none.
    /// `failing` has the numbers of calls that fail, and `room` is how many events the trail can have.
    pub fn new(
        alloc: Global,
        bytes: Vec<u8>,
        input: Vec<u8>,
        moments: Vec<u32>,
        failing: Vec<u64>,
        room: usize,
    ) -> Result<MemHost, AllocError>
        ensures history { IfOk result (λ h. (outside_of h).history
            ≡ record { starting = bytes.items; deeds = [] }) }
        ensures setup { IfOk result (λ h. setup_of h
            ≡ record { failing = failing.items; calls = 0; room = room; input = input.items; moments = moments.items; moments_told = 0 }) }
        ensures length { IfOk result (λ h. (outside_of h).extent ≡ Some (length bytes.items)) }
        ensures attached { IfOk result (λ h. (outside_of h).attached ≡ Some []) }
        ensures reads { IfOk result (λ h. (outside_of h).dev_reads ≡ Some 0) }
        ensures faults { IfOk result (λ h. ((outside_of h).dev_faults ≡ 0)
            × ((outside_of h).con_faults ≡ 0)) }
        ensures memory { IfOk result (λ h. lacked_of h ≡ false) }
    {
        let start = bytes.as_slice().to_vec(alloc)?;
        Ok(MemHost {
            alloc,
            start,
            bytes,
            log: Log::new(alloc),
            attached: Some(Paths::new(alloc)),
            input,
            taken: 0,
            moments,
            moments_told: 0,
            schedule: Schedule::new(failing),
            room,
            dev_faults: 0,
            con_faults: 0,
            lacked: false,
        })
    }

    fn is_full(&self) -> bool
        ensures { result ≡ nat_le self.now.room (length self.now.log.trail.items) }
    {
        self.log.trail.len() >= self.room
    }

    /// The device's bytes.
    pub fn bytes(&self) -> &[u8]
        ensures { result.now ≡ bytes_of (outside_of self.now).history }
    {
        let _whole = &self.log;
        &self.bytes
    }

    /// The events in real order.
    #[tactic(auto, using(crate::proofs::Events::trail_of_events))]
    pub fn trail(&self) -> &[Event]
        ensures { result.now ≡ trail_of (outside_of self.now).history }
    {
        &self.log.trail
    }

    /// How many device reads were Ok.
    pub fn reads(&self) -> u64
        ensures { (outside_of self.now).dev_reads ≡ Some result }
    {
        self.schedule.reads
    }

    /// Whether a copy of its own found no memory. Once it did, what a call leaves is no longer what the list of failing calls says.
    pub fn lacked(&self) -> bool
        ensures { result ≡ lacked_of self.now }
    {
        self.lacked
    }

    /// All bytes that were put.
    pub fn output(&self) -> Result<Vec<u8>, AllocError>
        ensures { IfOk result (λ all. all.items ≡ output (outside_of self.now).history) }
    {
        let mut all = Vec::new(self.alloc);
        for event in &self.log.trail {
            if let Event::Gave(bytes) = event {
                all.extend_from_slice(bytes.bytes())?;
            }
        }
        Ok(all)
    }
}

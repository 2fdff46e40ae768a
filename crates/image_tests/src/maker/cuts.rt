//! What the maker leaves where a call fails or the power is cut. Counts of calls and events are by hand, from the order in which the maker works.

use super::{asked, device_of, host_over, made_on, made_over, part, put};
use qx_fields::Order::{Big, Little};
use qx_geom::Which;
use qx_make::MakeFault;
use qx_outside::{Dev, Event, Failed, Recorded};
use qx_super::{Pick, areas};
use std::alloc::Global;
use std::test::Fail;

/// What a device gives: no volume, the old one, the new one, or something else.
#[derive(Clone, Copy, Debug, PartialEq, Eq)]
enum Left {
    Nothing,
    Old,
    New,
    Other,
}

/// The active superblock, if there is one. Areas that disagree are a fault.
fn active_on<D: Dev>(host: &mut D) -> Result<Option<[u8; 512]>, Failed> {
    let len = host.len()?;
    let mut first = [0; 512];
    let mut second = [0; 512];
    let pick = areas(host, len, &mut first, &mut second)?.pick();
    match pick {
        Pick::Active(Which::First) => Ok(Some(first)),
        Pick::Active(Which::Second) => Ok(Some(second)),
        Pick::None => Ok(None),
        Pick::Disagree => Err(Failed),
    }
}

/// Whether two devices have the same bytes from block 0 up to an end.
fn agree_up_to(one: &[u8], other: &[u8], end: usize) -> bool {
    let len = end.saturating_sub(0x3000);
    part(one, 0x3000, len) == part(other, 0x3000, len)
}

/// A device before the maker and what the maker makes of it. Its old volume's blocks end at a byte, and so do those that are written.
#[derive(Drop)]
struct Course<'a> {
    alloc: Global,
    old: &'a [u8],
    old_end: usize,
    new: &'a [u8],
    new_end: usize,
}

impl Course<'_> {
    fn left_on(&self, device: &[u8]) -> Result<Left, Fail> {
        let Some(active) = active_on(&mut host_over(self.alloc, device, &[])?)? else {
            return Ok(Left::Nothing);
        };
        let before = active_on(&mut host_over(self.alloc, self.old, &[])?)?;
        let first = part(self.new, 0x2000, 512);
        let second = part(self.new, self.new.len().saturating_sub(4096), 512);
        let is_new = first == active.as_slice() || second == active.as_slice();
        if before == Some(active) && agree_up_to(device, self.old, self.old_end) {
            Ok(Left::Old)
        } else if is_new && agree_up_to(device, self.new, self.new_end) {
            Ok(Left::New)
        } else {
            Ok(Left::Other)
        }
    }
}

/// What stands where the first calls or events leave the old volume, and the next ones nothing.
fn wanted(count: u64, old: u64, nothing: u64) -> Left {
    if count < old {
        Left::Old
    } else if count < nothing {
        Left::Nothing
    } else {
        Left::New
    }
}

/// The device's bytes after an event.
fn follow(device: &mut Vec<u8>, event: &Event) -> Result<(), Fail> {
    match event {
        Event::Wrote { at, left, .. } => put(device, *at as usize, left.bytes()),
        Event::Sized { len, ok: true } => device.resize(*len as usize, 0)?,
        _ => {}
    }
    Ok(())
}

/// Old devices, by name: their bytes, and where their blocks end.
fn old_devices(alloc: Global) -> Result<[(&'static str, Vec<u8>, usize); 5], Fail> {
    let short = asked(40960, 1024, 16, Big);
    let long = asked(102_400, 4096, 16, Big);
    let (_, short_volume) = made_over(alloc, &[], &short)?;
    let (_, long_volume) = made_over(alloc, &[], &long)?;
    let mut one_area = short_volume.as_slice().to_vec(alloc)?;
    put(&mut one_area, 36864, &[0; 512]);
    Ok([
        ("empty", Vec::new(alloc), 0),
        ("no volume", device_of(alloc, 65536, 0xA5)?, 0),
        ("a shorter volume", short_volume, 36864),
        ("a longer volume", long_volume, 98304),
        ("a volume of its first area alone", one_area, 36864),
    ])
}

#[test]
fn a_failed_call_is_a_device_fault_and_leaves_no_volume_or_a_whole_one(
    rt: HostRuntime,
) -> Result<(), Fail> {
    let alloc = rt.alloc();
    let options = asked(65536, 512, 16, Little);
    // How many calls leave the old volume where they fail, up to which there is nothing, and how many there are.
    let volume = (5, 14, 16);
    let counts = [(0, 9, 11), (0, 12, 14), volume, volume, volume];
    for ((name, old, old_end), (to_old, to_nothing, calls)) in old_devices(alloc)?
        .into_iter()
        .zip(counts)
    {
        let (_, new) = made_over(alloc, &old, &options)?;
        let course = Course {
            alloc,
            old: &old,
            old_end,
            new: &new,
            new_end: 0x4600,
        };
        for call in 0..calls {
            let mut host = host_over(alloc, &old, &[call])?;
            let answer = made_on(&mut host, &options);
            let lacked = host.lacked();
            assert_eq!(rt;
                (answer, lacked),
                (Err(MakeFault::Device), false),
                "{name}: {call}"
            );
            let left = course.left_on(host.bytes())?;
            assert_eq!(rt; left, wanted(call, to_old, to_nothing), "{name}: {call}");
        }
        let mut host = host_over(alloc, &old, &[calls])?;
        assert!(rt; made_on(&mut host, &options).is_ok(), "{name}");
    }
    Ok(())
}

#[test]
fn a_cut_after_any_event_leaves_no_volume_or_a_whole_one(rt: HostRuntime) -> Result<(), Fail> {
    let alloc = rt.alloc();
    let options = asked(65536, 512, 16, Little);
    // How many events leave the old volume, up to which there is nothing, and how many there are.
    let volume = (3, 11, 13);
    let counts = [(0, 8, 10), (0, 9, 11), volume, volume, volume];
    for ((name, old, old_end), (to_old, to_nothing, events)) in old_devices(alloc)?
        .into_iter()
        .zip(counts)
    {
        let mut host = host_over(alloc, &old, &[])?;
        made_on(&mut host, &options)?;
        assert_eq!(rt; (host.events(), host.lacked()), (events, false), "{name}");
        let course = Course {
            alloc,
            old: &old,
            old_end,
            new: host.bytes(),
            new_end: 0x4600,
        };
        let mut device = old.as_slice().to_vec(alloc)?;
        for (count, event) in host.trail().iter().enumerate() {
            let left = course.left_on(&device)?;
            let want = wanted(count as u64, to_old, to_nothing);
            assert_eq!(rt; left, want, "{name}: {count}");
            follow(&mut device, event)?;
        }
        assert_eq!(rt; course.left_on(&device)?, Left::New, "{name}");
    }
    Ok(())
}

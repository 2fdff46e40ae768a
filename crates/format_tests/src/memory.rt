//! A host in memory, called through its traits.
ghost use Rattle.std.specs.Prelude.{◌≡◌, ◌≤◌, Some, IfOk, IfSome};
ghost use Rattle.qx_outside.specs.Memory.{outside_of};

use qx_outside::{ByteList, Dev, Event, Failed, Host, MemHost, Recorded};
use std::alloc::Global;
use std::test::Fail;

fn host_of(alloc: Global, failing: &[u64], room: usize) -> Result<MemHost, Fail>
    ensures { IfOk result (λ host. (outside_of host).extent ≡ Some 6) }
{
    let bytes = [1, 2, 3, 4, 5, 6].to_vec(alloc)?;
    let input = b"abc".to_vec(alloc)?;
    let moments = [10, 20].to_vec(alloc)?;
    Ok(MemHost::new(alloc, bytes, input, moments, failing.to_vec(alloc)?, room)?)
}

/// Seven calls of both traits, through the bound alone.
fn each_call<H: Host>(host: &mut H, text: &mut [u8; 2]) -> Result<(u64, usize, u32), Failed> {
    host.attach("image", true)?;
    let len = host.len()?;
    host.set_len(8)?;
    let Ok(()) = host.put(b"hello") else {
        return Err(Failed);
    };
    let count = host.take(text)?;
    let moment = host.now()?;
    host.sync()?;
    Ok((len, count, moment))
}

/// Whether these are the events of `each_call`.
fn is_of_each_call(trail: &[Event]) -> bool {
    matches!(
        trail,
        [
            Event::Sized { len: 8, ok: true },
            Event::Gave(_),
            Event::Took(_),
            Event::Now(10),
            Event::Synced { ok: true }
        ]
    )
}

/// Whether each of two writes was good, and the bytes that then stand there.
fn two_writes<D: Dev>(device: &mut D) -> Result<(bool, bool, [u8; 4]), Failed>
    requires { IfSome (D.outside device.old).extent (λ len. 4 ≤ len) }
{
    let first = device.write_at(0, &[7, 7]).is_ok();
    let second = device.write_at(1, &[8, 8, 8]).is_ok();
    let mut into = [0; 4];
    device.read_at(0, &mut into)?;
    Ok((first, second, into))
}

/// What the clock answers.
type Moment = Result<u32, Failed>;

/// What four calls answer, and the events that there are then.
fn four_calls<H: Host + Recorded>(
    host: &mut H,
) -> (Moment, Moment, Result<(), Failed>, Result<u64, Failed>, u64) {
    let moments = (host.now(), host.now());
    let synced = host.sync();
    let len = host.len();
    (moments.0, moments.1, synced, len, host.events())
}

/// What the clock answers four times, with a sync before the last; what the sync answers, and the events that there are then.
fn five_calls<H: Host + Recorded>(
    host: &mut H,
) -> (Moment, Moment, Moment, Moment, Result<(), Failed>, u64) {
    let moments = (host.now(), host.now(), host.now());
    let synced = host.sync();
    let last = host.now();
    (moments.0, moments.1, moments.2, last, synced, host.events())
}

#[test]
fn calls_succeed_with_memory_and_room(rt: HostRuntime) -> Result<(), Fail> {
    let mut host = host_of(rt.alloc(), &[], 100)?;
    let mut text = [0; 2];
    let seen = each_call(&mut host, &mut text);
    assert_eq!(rt; seen, Ok((6, 2, 10)));
    assert_eq!(rt; text, *b"ab");
    assert_eq!(rt; host.output()?.as_slice(), b"hello".as_slice());
    assert_eq!(rt; host.bytes(), [1, 2, 3, 4, 5, 6, 0, 0].as_slice());
    assert_eq!(rt; host.events(), 5);
    assert!(rt; is_of_each_call(host.trail()));
    assert!(rt; !host.lacked());
    Ok(())
}

#[test]
fn a_failed_write_leaves_the_first_half(rt: HostRuntime) -> Result<(), Fail> {
    let mut host = host_of(rt.alloc(), &[1], 100)?;
    assert_eq!(rt; two_writes(&mut host), Ok((true, false, [7, 8, 3, 4])));
    assert_eq!(rt; (host.reads(), host.lacked()), (1, false));
    Ok(())
}

#[test]
fn a_full_trail_and_a_listed_number_fail(rt: HostRuntime) -> Result<(), Fail> {
    let mut full = host_of(rt.alloc(), &[], 2)?;
    let want = (Ok(10), Ok(20), Err(Failed), Err(Failed), 2);
    assert_eq!(rt; four_calls(&mut full), want);
    let mut listed = host_of(rt.alloc(), &[1, 3], 100)?;
    let want = (Ok(10), Err(Failed), Ok(20), Ok(20), Err(Failed), 4);
    assert_eq!(rt; five_calls(&mut listed), want);
    Ok(())
}

#[test]
fn a_list_keeps_what_is_added(rt: HostRuntime) -> Result<(), Fail> {
    let mut list = ByteList::new(rt.alloc());
    list.push(1)?;
    list.add(&[2, 3])?;
    assert_eq!(rt; list.bytes(), [1, 2, 3].as_slice());
    Ok(())
}

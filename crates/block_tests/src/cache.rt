//! A cache over a device in memory: sixteen blocks of 512 bytes from byte 0x3000 on, the first four of them the system's.
ghost use Rattle.std.specs.Prelude.{◌≡◌, false, Some, IfOk, OnOk};
ghost use Rattle.std.specs.FinMap.{empty};
ghost use Rattle.qx_blockset.specs.Members.{limit_of};
ghost use Rattle.qx_cache.specs.Coherence.{HasRoom};
ghost use Rattle.qx_outside.specs.Memory.{outside_of};

use qx_alloc::Space;
use qx_blocks::{Blocks, Stop};
use qx_blockset::BlockSet;
use qx_cache::Cache;
use qx_outside::{Dev, Failed, Host, MemHost};
use std::alloc::{AllocError, Global};
use std::test::Fail;

// The set of these numbers below 16.
fn set_of(alloc: Global, members: &[u32]) -> Result<BlockSet, AllocError>
    ensures { IfOk result (λ set. limit_of set ≡ 16) }
{
    let mut set = BlockSet::new(alloc, 16)?;
    for b in members {
        if *b < set.limit() {
            set.insert(*b);
        }
    }
    Ok(set)
}

// A host with a device of `len` bytes 9. These calls fail.
fn host_in_memory(alloc: Global, len: usize, failing: &[u64]) -> Result<MemHost, AllocError>
    ensures { IfOk result (λ host. (outside_of host).extent ≡ Some len) }
{
    let bytes = vec![in alloc; 9; len]?;
    let input = b"ab".to_vec(alloc)?;
    let moments = [20].to_vec(alloc)?;
    MemHost::new(alloc, bytes, input, moments, failing.to_vec(alloc)?, 100)
}

// A cache over a host, where the trees hold blocks 4 and 5.
fn cache_over<H: Dev + Drop>(alloc: Global, host: H) -> Result<Cache<H>, Fail>
    requires { HasRoom (H.outside host).extent 512 16 }
    ensures { IfOk result (λ cache. cache.space.is_frozen ≡ false) }
{
    let held = set_of(alloc, &[2, 4, 5])?;
    let space = Space::new(alloc, 4, &held)?;
    match Cache::new(alloc, host, 512, space, 1) {
        Ok(cache) => Ok(cache),
        Err(_) => Err(Fail::new("no memory for a cache")),
    }
}

// Takes a block and fills it with this byte, where one is free.
fn filled<B: Blocks>(blocks: &mut B, byte: u8) -> Result<Option<u32>, Stop>
    ensures { B.beside blocks.new ≡ B.beside blocks.old }
{
    if blocks.free() == 0 {
        return Ok(None);
    }
    let b = blocks.fresh()?;
    blocks.edit(b).fill(byte);
    Ok(Some(b))
}

// The first byte of a block that the working tree holds.
fn first_byte<B: Blocks>(blocks: &mut B, b: u32) -> Result<Option<u8>, Stop> {
    if !blocks.works(b) {
        return Ok(None);
    }
    let lent = blocks.read(b)?;
    Ok(lent.first().copied())
}

// Reads blocks one after another.
fn read_each<B: Blocks>(blocks: &mut B, numbers: &[u32]) -> Result<(), Stop> {
    for b in numbers {
        first_byte(blocks, *b)?;
    }
    Ok(())
}

// Takes a block, reads blocks one after another, and then block 4, whose first byte it answers.
fn read_then_4<B: Blocks>(blocks: &mut B, numbers: &[u32]) -> Result<Option<u8>, Stop> {
    filled(blocks, 7)?;
    read_each(blocks, numbers)?;
    first_byte(blocks, 4)
}

// The same over a host.
fn read_over<H: Dev + Drop>(
    alloc: Global,
    host: H,
    numbers: &[u32],
) -> Result<(Option<u8>, H), Fail>
    requires { HasRoom (H.outside host).extent 512 16 }
{
    let mut cache = cache_over(alloc, host)?;
    let byte = read_then_4(&mut cache, numbers)?;
    Ok((byte, cache.into_host()))
}

// Gives a block up that the working tree holds.
fn given_up<B: Blocks>(blocks: &mut B, b: u32) {
    if blocks.works(b) {
        blocks.release(b);
    }
}

// What is seen of blocks, the first free one of which is 6.
#[derive(Clone, Copy, Debug, PartialEq, Eq)]
struct Seen {
    size: usize,
    // The block that is taken, and its first byte.
    taken: Option<u32>,
    byte: Option<u8>,
    // Whether blocks 6 and 4 are private.
    private: [bool; 2],
    // The first byte of block 6 once it is given up.
    gone: Option<u8>,
    // How many blocks are free before, with the one that is taken, and at the end.
    free: [u64; 3],
}

// Takes a block, and gives blocks 6 and 4 up.
fn taken_and_given_up<B: Blocks>(blocks: &mut B) -> Result<Seen, Stop> {
    let size = blocks.size();
    let before = blocks.free();
    let taken = filled(blocks, 7)?;
    let byte = first_byte(blocks, 6)?;
    let private = [blocks.is_private(6), blocks.is_private(4)];
    let with = blocks.free();
    given_up(blocks, 6);
    let gone = first_byte(blocks, 6)?;
    given_up(blocks, 4);
    Ok(Seen {
        size,
        taken,
        byte,
        private,
        gone,
        free: [before, with, blocks.free()],
    })
}

// The same over a host.
fn seen_over<H: Dev + Drop>(alloc: Global, host: H) -> Result<(Seen, H), Fail>
    requires { HasRoom (H.outside host).extent 512 16 }
{
    let mut cache = cache_over(alloc, host)?;
    let seen = taken_and_given_up(&mut cache)?;
    Ok((seen, cache.into_host()))
}

// The first bytes of blocks 4, 5 and 4 again.
fn first_bytes<B: Blocks>(blocks: &mut B) -> [Result<Option<u8>, Stop>; 3] {
    [
        first_byte(blocks, 4),
        first_byte(blocks, 5),
        first_byte(blocks, 4),
    ]
}

// The same over a host.
fn first_bytes_over<H: Dev + Drop>(
    alloc: Global,
    host: H,
) -> Result<([Result<Option<u8>, Stop>; 3], H), Fail>
    requires { HasRoom (H.outside host).extent 512 16 }
{
    let mut cache = cache_over(alloc, host)?;
    let bytes = first_bytes(&mut cache);
    Ok((bytes, cache.into_host()))
}

// The same as `filled`, which leaves what is frozen.
fn changed<H: Dev>(cache: &mut Cache<H>, byte: u8) -> Result<Option<u32>, Stop>
    ensures { cache.new.space.is_frozen ≡ cache.old.space.is_frozen }
{
    filled(cache, byte)
}

// Writes what is frozen, and answers how many blocks were written.
fn write_all<H: Dev>(cache: &mut Cache<H>) -> Result<u32, Failed>
    ensures frozen { cache.new.space.is_frozen ≡ cache.old.space.is_frozen }
    ensures written { OnOk result (cache.new.frozen_changes ≡ empty) }
{
    for count in 0..16 {
        if !cache.write_frozen()? {
            return Ok(count);
        }
    }
    Err(Failed)
}

// The same, and once more where it failed.
fn write_twice<H: Dev>(cache: &mut Cache<H>) -> Result<u32, Failed>
    ensures frozen { cache.new.space.is_frozen ≡ cache.old.space.is_frozen }
    ensures written { OnOk result (cache.new.frozen_changes ≡ empty) }
{
    if let Ok(count) = write_all(cache) {
        return Ok(count);
    }
    write_all(cache)
}

// Two blocks are changed and frozen, and then a third one; the two are written, and become durable. How many the last run of writes wrote.
fn snapshot<H: Dev>(cache: &mut Cache<H>) -> Result<u32, Stop>
    requires { cache.old.space.is_frozen ≡ false }
{
    changed(cache, 1)?;
    changed(cache, 2)?;
    cache.freeze();
    changed(cache, 3)?;
    let Ok(count) = write_twice(cache) else {
        return Err(Stop::Device);
    };
    cache.thaw();
    if cache.sync().is_err() {
        return Err(Stop::Device);
    }
    Ok(count)
}

// The same over a host.
fn snapshot_over<H: Dev + Drop>(alloc: Global, host: H) -> Result<(u32, H), Fail>
    requires { HasRoom (H.outside host).extent 512 16 }
{
    let mut cache = cache_over(alloc, host)?;
    let count = snapshot(&mut cache)?;
    Ok((count, cache.into_host()))
}

// Writes four bytes before the blocks, and uses the console and the clock.
fn system_calls<H: Host>(cache: &mut Cache<H>, into: &mut [u8; 2]) -> Result<(usize, u32), Failed> {
    if cache.frozen_bit(4) {
        return Err(Failed);
    }
    cache.write_system(0x2000, b"area")?;
    cache.put(b"text")?;
    let count = cache.take(into)?;
    Ok((count, cache.now()?))
}

// The same over a host.
fn system_calls_over<H: Host + Drop>(
    alloc: Global,
    host: H,
    into: &mut [u8; 2],
) -> Result<((usize, u32), H), Fail>
    requires { HasRoom (H.outside host).extent 512 16 }
{
    let mut cache = cache_over(alloc, host)?;
    let told = system_calls(&mut cache, into)?;
    Ok((told, cache.into_host()))
}

// A device of these blocks, with the second area behind them.
const LEN: usize = 0x5200;

#[test]
fn blocks_are_taken_changed_and_given_up_in_memory(rt: HostRuntime) -> Result<(), Fail> {
    let host = host_in_memory(rt.alloc(), LEN, &[0])?;
    let (seen, host) = seen_over(rt.alloc(), host)?;
    let want = Seen {
        size: 512,
        taken: Some(6),
        byte: Some(7),
        private: [true, false],
        gone: None,
        free: [10, 9, 10],
    };
    assert_eq!(rt; seen, want);
    assert_eq!(rt; host.reads(), 0);
    Ok(())
}

#[test]
fn a_kept_block_is_read_once(rt: HostRuntime) -> Result<(), Fail> {
    let cases: [(&[u32], u64); 4] = [(&[4], 1), (&[4, 4], 1), (&[4, 5, 4], 3), (&[4, 6, 4], 1)];
    for (numbers, reads) in cases {
        let host = host_in_memory(rt.alloc(), LEN, &[])?;
        let (byte, host) = read_over(rt.alloc(), host, numbers)?;
        assert_eq!(rt; byte, Some(9));
        assert_eq!(rt; host.reads(), reads);
    }
    Ok(())
}

#[test]
fn a_read_that_fails_leaves_the_kept_block(rt: HostRuntime) -> Result<(), Fail> {
    let host = host_in_memory(rt.alloc(), LEN, &[1])?;
    let (bytes, host) = first_bytes_over(rt.alloc(), host)?;
    assert_eq!(rt; bytes, [Ok(Some(9)), Err(Stop::Device), Ok(Some(9))]);
    assert_eq!(rt; host.reads(), 1);
    Ok(())
}

#[test]
fn a_snapshot_puts_what_was_frozen_on_the_device(rt: HostRuntime) -> Result<(), Fail> {
    let cases: [(&[u64], u32); 3] = [(&[], 2), (&[0], 2), (&[1], 1)];
    for (failing, count) in cases {
        let host = host_in_memory(rt.alloc(), LEN, failing)?;
        let (written, host) = snapshot_over(rt.alloc(), host)?;
        assert_eq!(rt; written, count);
        let bytes = host.bytes();
        for (at, want) in [
            (0x3BFF, 9),
            (0x3C00, 1),
            (0x3DFF, 1),
            (0x3E00, 2),
            (0x3FFF, 2),
            (0x4000, 9),
        ] {
            assert_eq!(rt; bytes.get(at).copied(), Some(want));
        }
    }
    Ok(())
}

#[test]
fn what_lies_beside_the_blocks_goes_to_the_host(rt: HostRuntime) -> Result<(), Fail> {
    let host = host_in_memory(rt.alloc(), LEN, &[])?;
    let mut text = [0; 2];
    let (told, host) = system_calls_over(rt.alloc(), host, &mut text)?;
    assert_eq!(rt; told, (2, 20));
    assert_eq!(rt; text, *b"ab");
    assert_eq!(rt; host.output()?.as_slice(), b"text".as_slice());
    assert!(rt; host.bytes().get(0x2000..0x2004) == Some(b"area".as_slice()));
    Ok(())
}

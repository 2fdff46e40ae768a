//! Whole runs over a host in memory.
ghost use Rattle.std.specs.Prelude.{◌≡◌, [], IfSome, IsTrue};

mod big;
mod cases;
mod checker;
mod little;
mod sizes;
mod small;
mod volumes;

use qx_fields::{Order, put16, put32, put64};
use qx_geom::{ABSENT, Which};
use qx_outside::{Event, Host, MemHost, Recorded};
use qx_super::{MAGIC, checksum};
use qx_top::run;
use std::alloc::{AllocError, Global};
use std::test::Fail;

const SUPERS: [&str; 3] = ["chkqnx6fs", "-s", "x"];

const AREA_1: &str = "area 1 serial 1 blocksize 512 blocks 96 inodes 16 order little\n";

const AREA_2: &str = "area 2 serial 2 blocksize 512 blocks 96 inodes 16 order little\n";

const USAGE_LINE: &str =
    "usage: mkqnx6fs [-b BLOCKSIZE] [-i INODES] [-e ORDER] IMAGE SIZE; chkqnx6fs [-s] IMAGE; shell [-r] [-g N] IMAGE\n";

/// The small volume: 65536 bytes, 96 blocks of 512 bytes, 16 inodes; the second area stands at 61440.
#[derive(Clone, Copy)]
struct Volume {
    order: Order,
    first_serial: u64,
    second_serial: u64,
    second_inodes: u32,
}

const SMALL: Volume = Volume {
    order: Order::Little,
    first_serial: 1,
    second_serial: 2,
    second_inodes: 16,
};

fn put_root(order: Order, bytes: &mut [u8; 512], at: usize, size: u64, pointers: &[u32]) {
    if at > 312 || pointers.len() > 16 {
        return;
    }
    put64(order, bytes, at, size);
    for i in 0..16usize {
        let pointer = pointers.get(i).copied().unwrap_or(ABSENT);
        put32(order, bytes, at + 8 + 4 * i, pointer);
    }
}

/// The superblock of an area of the small volume as its maker writes it.
fn superblock(order: Order, which: Which, serial: u64, inodes: u32) -> [u8; 512] {
    let half = match which {
        Which::First => 0,
        Which::Second => 5,
    };
    let mut bytes = [0; 512];
    put32(order, &mut bytes, 0, MAGIC);
    put64(order, &mut bytes, 8, serial);
    put32(order, &mut bytes, 16, 1000);
    put32(order, &mut bytes, 20, 1000);
    put16(order, &mut bytes, 28, 1);
    put32(order, &mut bytes, 48, 512);
    put32(order, &mut bytes, 52, inodes);
    put32(order, &mut bytes, 56, 15);
    put32(order, &mut bytes, 60, 96);
    put32(order, &mut bytes, 64, 85);
    let leaves = [half + 1, half + 2, half + 3, half + 4];
    put_root(order, &mut bytes, 72, 2048, &leaves);
    put_root(order, &mut bytes, 152, 12, &[half]);
    put_root(order, &mut bytes, 232, 0, &[]);
    put_root(order, &mut bytes, 312, 0, &[]);
    let sum = checksum(&bytes[8..]);
    put32(order, &mut bytes, 4, sum);
    bytes
}

impl Volume {
    fn device(&self, alloc: Global) -> Result<Vec<u8>, Fail> {
        let mut bytes = Vec::new(alloc);
        bytes.resize(0x2000, 0)?;
        let first = superblock(self.order, Which::First, self.first_serial, 16);
        bytes.extend_from_slice(&first)?;
        bytes.resize(61440, 0)?;
        let second = superblock(
            self.order,
            Which::Second,
            self.second_serial,
            self.second_inodes,
        );
        bytes.extend_from_slice(&second)?;
        bytes.resize(65536, 0)?;
        Ok(bytes)
    }
}

/// The words as texts.
fn texts(alloc: Global, words: &[&str]) -> Result<Vec<String>, Fail> {
    let mut texts = Vec::new(alloc);
    for word in words {
        texts.push(String::from_str(alloc, word)?)?;
    }
    Ok(texts)
}

/// Runs the words over any host on which nothing was done: the status, and the host afterwards.
fn ran_over<H: Host>(alloc: Global, words: &[String], host: H) -> (u8, H)
    requires trail { IsTrue (H.outside host).tells → (H.outside host).history.deeds ≡ [] }
    requires attached { IfSome (H.outside host).attached (λ paths. paths ≡ []) }
{
    let ended = run(alloc, words, host);
    (ended.status, ended.host)
}

/// What a run left behind.
#[derive(Drop)]
struct Left {
    status: u8,
    /// All that it gave to the console.
    output: Vec<u8>,
    /// The device's bytes.
    bytes: Vec<u8>,
    events: u64,
    reads: u64,
    /// Whether its one event gave a text.
    just_spoke: bool,
}

impl Left {
    /// Whether the run ended with this status, and gave this text.
    fn says(&self, status: u8, text: &str) -> bool {
        self.status == status && self.output.as_slice() == text.as_bytes()
    }
}

/// Runs the words over a device at the moment 1000, where these calls fail and there is room for so many events: the status, and the host afterwards.
fn ran_in_room(
    alloc: Global,
    words: &[&str],
    device: Vec<u8>,
    failing: &[u64],
    room: usize,
) -> Result<(u8, MemHost), Fail> {
    let words = texts(alloc, words)?;
    let failing = failing.to_vec(alloc)?;
    let mut moments = Vec::new(alloc);
    moments.push(1000)?;
    let host = MemHost::new(alloc, device, Vec::new(alloc), moments, failing, room)?;
    let (status, host) = ran_over(alloc, &words, host);
    // Else a call may have failed that isn't named.
    if host.lacked() {
        return Err(AllocError.into());
    }
    Ok((status, host))
}

/// The same with ample room, and what is left.
fn ran(alloc: Global, words: &[&str], device: Vec<u8>, failing: &[u64]) -> Result<Left, Fail> {
    let (status, host) = ran_in_room(alloc, words, device, failing, 100)?;
    Ok(Left {
        status,
        output: host.output()?,
        bytes: host.bytes().to_vec(alloc)?,
        events: host.events(),
        reads: host.reads(),
        just_spoke: matches!(host.trail(), [Event::Gave(_)]),
    })
}

/// The same bytes with some of them turned over.
fn changed(mut device: Vec<u8>, places: &[usize]) -> Vec<u8> {
    for place in places {
        if let Some(byte) = device.get_mut(*place) {
            *byte ^= 0xFF;
        }
    }
    device
}

#[test]
fn the_line_is_about_the_later_of_two_valid_areas(rt: HostRuntime) -> Result<(), Fail> {
    let alloc = rt.alloc();
    let big = Volume {
        order: Order::Big,
        ..SMALL
    };
    let equal = Volume {
        second_serial: 1,
        ..SMALL
    };
    let last = Volume {
        second_serial: u64::MAX,
        ..SMALL
    };
    let other = Volume {
        second_inodes: 32,
        ..SMALL
    };
    let of_last =
        "area 2 serial 18446744073709551615 blocksize 512 blocks 96 inodes 16 order little\n";
    let of_big = "area 2 serial 2 blocksize 512 blocks 96 inodes 16 order big\n";
    let cases: [(&str, &Volume, &[usize], &str, u8); 9] = [
        ("whole", &SMALL, &[], AREA_2, 0),
        ("second damaged", &SMALL, &[0xF010], AREA_1, 0),
        ("first damaged", &SMALL, &[0x2010], AREA_2, 0),
        ("both damaged", &SMALL, &[0x2010, 0xF010], "no volume\n", 2),
        ("equal serials", &equal, &[], AREA_1, 0),
        ("greatest serial", &last, &[], of_last, 0),
        ("other inodes", &other, &[], "disagree\n", 2),
        ("big order", &big, &[], of_big, 0),
        ("second in big order alone", &big, &[0x2000], of_big, 0),
    ];
    for (name, volume, places, text, status) in cases {
        let device = changed(volume.device(alloc)?, places);
        let left = ran(alloc, &SUPERS, device, &[])?;
        assert!(rt; left.says(status, text), "{name}");
        assert_eq!(rt; (left.just_spoke, left.reads), (true, 2), "{name}");
    }
    Ok(())
}

#[test]
fn a_device_of_any_length_is_no_reason_to_fail(rt: HostRuntime) -> Result<(), Fail> {
    let alloc = rt.alloc();
    let lengths = [
        0usize, 1, 511, 512, 513, 4095, 4096, 4097, 4607, 4608, 8191, 8192, 8703, 8704, 12287,
        12288, 12799, 12800, 13311, 13312, 61439, 61951,
    ];
    for len in lengths {
        let mut device = SMALL.device(alloc)?;
        device.truncate(len);
        let left = ran(alloc, &SUPERS, device, &[])?;
        assert!(rt; left.says(2, "no volume\n"), "{len}");
    }
    for fill in [0x68u8, 0x22, 0xFF] {
        let mut device = Vec::new(alloc);
        device.resize(65536, fill)?;
        let left = ran(alloc, &SUPERS, device, &[])?;
        assert!(rt; left.says(2, "no volume\n"), "{fill}");
    }
    Ok(())
}

#[test]
fn each_call_that_fails_has_its_line_and_status(rt: HostRuntime) -> Result<(), Fail> {
    let alloc = rt.alloc();
    let fault = "device fault\n";
    let half = "area 2 serial 2 blocksize 512 b";
    let cases: [(&str, &[u64], &str, u8); 8] = [
        ("none", &[], AREA_2, 0),
        ("the attach", &[0], fault, 3),
        ("the length", &[1], fault, 3),
        ("the first area", &[2], fault, 3),
        ("the second area", &[3], fault, 3),
        ("the line", &[4], half, 4),
        ("one that is not made", &[5], AREA_2, 0),
        ("the first area and the line", &[2, 3], "device", 4),
    ];
    for (name, failing, text, status) in cases {
        let device = SMALL.device(alloc)?;
        let left = ran(alloc, &SUPERS, device, failing)?;
        assert!(rt; left.says(status, text), "{name}");
    }
    Ok(())
}

#[test]
fn other_words_get_the_usage_line_and_no_device_call(rt: HostRuntime) -> Result<(), Fail> {
    let alloc = rt.alloc();
    let cases: [&[&str]; 8] = [
        &[],
        &["chkqnx6fs"],
        &["chkqnx6fsx", "x"],
        &["chkqnx6fs", "-s", "x", "y"],
        &["chkqnx6fs", "-S", "x"],
        &["mkqnx6fs", "x"],
        &["mkqnx6fs", "x", "65536", "y"],
        &["frob", "x"],
    ];
    for words in cases {
        let left = ran(alloc, words, SMALL.device(alloc)?, &[])?;
        assert!(rt; left.says(1, USAGE_LINE), "{words:?}");
        assert_eq!(rt; (left.events, left.reads), (1, 0), "{words:?}");
    }
    let left = ran(alloc, &["frob"], SMALL.device(alloc)?, &[0])?;
    assert_eq!(rt; (left.status, left.output.len()), (4, 56));
    let left = ran(alloc, &["chkqnx6fs", "-s", "-s"], SMALL.device(alloc)?, &[])?;
    assert_eq!(rt; left.status, 0, "-s is a fine name of an image");
    Ok(())
}

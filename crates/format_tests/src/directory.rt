//! The records of a block of a directory, as a caller goes over them.
ghost use Rattle.std.specs.Prelude.{◌≡◌, ◌%◌, length, count_by, find, not, option_map};
ghost use Rattle.qx_records.specs.Slots.{is_in_use, records_in};

use qx_fields::Order;
use qx_records::{Record, Records, Slot, slot_at};

/// How many records of a block are in use: what a caller's loop can say of the items.
fn used_records(block: &[u8], order: Order) -> usize
    requires { length block.now % 32 ≡ 0 }
    ensures { result ≡ count_by is_in_use (records_in order block.now) }
{
    let mut used = 0;
    for record in Records::new(block, order) {
        match record.slot {
            Slot::Unused => {}
            Slot::Short { .. } | Slot::Long { .. } | Slot::Bad { .. } => used += 1,
        }
    }
    used
}

/// The place of the first record of a block that is not in use: a loop that ends early.
fn first_unused(block: &[u8], order: Order) -> Option<usize>
    requires { length block.now % 32 ≡ 0 }
    ensures { result
        ≡ option_map (λ item. item.place) (find (λ item. not (is_in_use item)) (records_in order block.now)) }
{
    for record in Records::new(block, order) {
        if let Slot::Unused = record.slot {
            return Some(record.place);
        }
    }
    None
}

/// Bytes by the format's table of a directory record, packed by a script that has no part of qx_records: what the record is, its order,
/// its first bytes, the letters behind these, and what it says. The bytes behind the letters are 0.
const RECORDS: &str = "
no inode | little | 00.00.00.00.03 | abc | unused
no length | little | 04.03.02.01.00 | abc | unused
one letter | big | 01.02.03.04.01 | abc | short 01020304 a
the longest short name | little | 04.03.02.01.1B | abcdefghijklmnopqrstuvwxyza | short 01020304 abcdefghijklmnopqrstuvwxyza
a letter too many | little | 04.03.02.01.1C | abcdefghijklmnopqrstuvwxyza | bad 28
the last bad length | big | 01.02.03.04.FE | abcdefghijklmnopqrstuvwxyza | bad 254
a long name | little | 07.00.00.00.FF.00.00.00.08.07.06.05.AC.00.00.40 | | long 7 05060708 400000AC
a long name | big | 00.00.00.07.FF.00.00.00.05.06.07.08.40.00.00.AC | | long 7 05060708 400000AC
";

/// A record that begins with these bytes, two digits each between points, and has these letters from its sixth byte on.
fn record(bytes: &str, letters: &str) -> Option<[u8; 32]> {
    let mut record = [0; 32];
    for (there, letter) in record.iter_mut().skip(5).zip(letters.as_bytes()) {
        *there = *letter;
    }
    for (there, byte) in record.iter_mut().zip(bytes.split('.')) {
        *there = u8::from_str_radix(byte, 16).ok()?;
    }
    Some(record)
}

/// A number of hexadecimal digits.
fn number(digits: &str) -> Option<u32> {
    u32::from_str_radix(digits, 16).ok()
}

/// What a row says of its record: the kind, and the length, or the inode and what else the kind has. Numbers but the length are hexadecimal.
fn slot_of(said: &str) -> Option<Slot<'_>> {
    let mut words = said.split(' ');
    match words.next()? {
        "unused" => Some(Slot::Unused),
        "bad" => Some(Slot::Bad {
            length: words.next()?.parse::<u8>().ok()?,
        }),
        "short" => Some(Slot::Short {
            inode: number(words.next()?)?,
            name: words.next()?.as_bytes(),
        }),
        "long" => Some(Slot::Long {
            inode: number(words.next()?)?,
            number: number(words.next()?)?,
            sum: number(words.next()?)?,
        }),
        _ => None,
    }
}

/// Whether a row's record says what stands at the row's end.
fn holds(row: &str) -> Option<bool> {
    let mut parts = row.split('|');
    let _name = parts.next()?;
    let order = match parts.next()?.trim() {
        "little" => Order::Little,
        "big" => Order::Big,
        _ => return None,
    };
    let bytes = record(parts.next()?.trim(), parts.next()?.trim())?;
    let want = slot_of(parts.next()?.trim())?;
    Some(slot_at(&bytes, order, 0) == want)
}

/// The first row that doesn't hold, if there is one.
fn first_wrong(rows: &str) -> Option<&str> {
    for row in rows.lines() {
        if !row.is_empty() && holds(row) != Some(true) {
            return Some(row);
        }
    }
    None
}

#[test]
fn a_record_says_what_its_32_bytes_are(rt: HostRuntime) {
    assert_eq!(rt; first_wrong(RECORDS), None);
}

#[test]
fn the_records_of_a_block_come_in_their_order(rt: HostRuntime) {
    let block = b"\0\0\0\x01\x01.\0\0\0\0\0\0\0\0\0\0\0\0\0\0\0\0\0\0\0\0\0\0\0\0\0\0\
        \0\0\0\0\0\0\0\0\0\0\0\0\0\0\0\0\0\0\0\0\0\0\0\0\0\0\0\0\0\0\0\0\
        \0\0\0\x01\x02..\0\0\0\0\0\0\0\0\0\0\0\0\0\0\0\0\0\0\0\0\0\0\0\0\0";
    let wanted = [
        Record {
            place: 0,
            slot: Slot::Short {
                inode: 1,
                name: b".",
            },
        },
        Record {
            place: 1,
            slot: Slot::Unused,
        },
        Record {
            place: 2,
            slot: Slot::Short {
                inode: 1,
                name: b"..",
            },
        },
    ];
    let mut records = Records::new(block, Order::Big);
    for want in wanted {
        assert_eq!(rt; records.next(), Some(want));
    }
    assert_eq!(rt; records.next(), None);
    assert_eq!(rt; used_records(block, Order::Big), 2);
    assert_eq!(rt; first_unused(block, Order::Big), Some(1));
    assert_eq!(rt; Records::new(&[], Order::Little).next(), None);
}

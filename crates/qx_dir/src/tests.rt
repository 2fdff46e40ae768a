//! Blocks with rows of every kind, in both orders of bytes.
ghost use Rattle.std.specs.Prelude.{◌≡◌, ◌%◌, ◌<◌, ◌≤◌, length};

use crate::{Entries, Entry, EntryName, Found, clear, find, first_unused, put, rows};
use qx_fields::Order;
use std::test::Fail;

// Rows by the format's table, packed by a script that has no part of this crate: no inode; a bad length; `a` of inode 5;
// long names 7 and 8 of inodes 6 and 7, with the sums of unsigned and of signed bytes of the bytes 255 to 228 in falling order; `a` of inode 8;
// no length; 27 letters of inode 9.
const LITTLE: [u8; 256] = *b"\
    \0\0\0\0\x01a\0\0\0\0\0\0\0\0\0\0\0\0\0\0\0\0\0\0\0\0\0\0\0\0\0\0\
    \x05\0\0\0\x1Cabcdefghijklmnopqrstuvwxyza\
    \x05\0\0\0\x01a\0\0\0\0\0\0\0\0\0\0\0\0\0\0\0\0\0\0\0\0\0\0\0\0\0\0\
    \x06\0\0\0\xFF\0\0\0\x07\0\0\0\xA9\xE1\xFF\xFF\0\0\0\0\0\0\0\0\0\0\0\0\0\0\0\0\
    \x07\0\0\0\xFF\0\0\0\x08\0\0\0\xC9\xFF\xFF\xFF\0\0\0\0\0\0\0\0\0\0\0\0\0\0\0\0\
    \x08\0\0\0\x01a\0\0\0\0\0\0\0\0\0\0\0\0\0\0\0\0\0\0\0\0\0\0\0\0\0\0\
    \x05\0\0\0\0a\0\0\0\0\0\0\0\0\0\0\0\0\0\0\0\0\0\0\0\0\0\0\0\0\0\0\
    \x09\0\0\0\x1Babcdefghijklmnopqrstuvwxyza";

const BIG: [u8; 256] = *b"\
    \0\0\0\0\x01a\0\0\0\0\0\0\0\0\0\0\0\0\0\0\0\0\0\0\0\0\0\0\0\0\0\0\
    \0\0\0\x05\x1Cabcdefghijklmnopqrstuvwxyza\
    \0\0\0\x05\x01a\0\0\0\0\0\0\0\0\0\0\0\0\0\0\0\0\0\0\0\0\0\0\0\0\0\0\
    \0\0\0\x06\xFF\0\0\0\0\0\0\x07\xFF\xFF\xE1\xA9\0\0\0\0\0\0\0\0\0\0\0\0\0\0\0\0\
    \0\0\0\x07\xFF\0\0\0\0\0\0\x08\xFF\xFF\xFF\xC9\0\0\0\0\0\0\0\0\0\0\0\0\0\0\0\0\
    \0\0\0\x08\x01a\0\0\0\0\0\0\0\0\0\0\0\0\0\0\0\0\0\0\0\0\0\0\0\0\0\0\
    \0\0\0\x05\0a\0\0\0\0\0\0\0\0\0\0\0\0\0\0\0\0\0\0\0\0\0\0\0\0\0\0\
    \0\0\0\x09\x1Babcdefghijklmnopqrstuvwxyza";

// The bytes 255 to 228 in falling order.
const FALLING: &[u8] =
    b"\xFF\xFE\xFD\xFC\xFB\xFA\xF9\xF8\xF7\xF6\xF5\xF4\xF3\xF2\xF1\xF0\xEF\xEE\xED\xEC\xEB\xEA\xE9\xE8\xE7\xE6\xE5\xE4";

#[test]
fn the_first_row_that_may_have_a_name_is_found(rt: HostRuntime) {
    let letters: &[u8] = b"abcdefghijklmnopqrstuvwxyzab";
    let first = Found::Name { place: 2, inode: 5 };
    let second = Found::Name { place: 5, inode: 8 };
    let unsigned = Found::Maybe {
        place: 3,
        inode: 6,
        number: 7,
    };
    let signed = Found::Maybe {
        place: 4,
        inode: 7,
        number: 8,
    };
    let longest = Found::Name { place: 7, inode: 9 };
    let cases: [(&str, &[u8], usize, Found); 16] = [
        ("a name", b"a", 0, first),
        ("from its own place", b"a", 2, first),
        ("from behind it", b"a", 3, second),
        ("from behind both", b"a", 6, Found::None),
        ("from past the end", b"a", 8, Found::None),
        ("from far past the end", b"a", usize::MAX, Found::None),
        ("a long name", FALLING, 0, unsigned),
        ("its sum of signed bytes", FALLING, 4, signed),
        ("behind both sums", FALLING, 5, Found::None),
        ("the longest short name", &letters[..27], 0, longest),
        ("a letter less", &letters[..26], 0, Found::None),
        ("a letter more", letters, 0, Found::None),
        ("another name", b"b", 0, Found::None),
        ("a name that goes on", b"aa", 0, Found::None),
        ("no name", b"", 0, Found::None),
        ("most of a long name", &FALLING[..27], 0, Found::None),
    ];
    for (what, name, from, want) in cases {
        assert_eq!(rt; find(&LITTLE, Order::Little, from, name), want, "{what}");
        assert_eq!(rt; find(&BIG, Order::Big, from, name), want, "{what}");
    }
}

#[test]
fn rows_of_every_kind_are_listed(rt: HostRuntime) -> Result<(), Fail> {
    for (order, block) in [(Order::Little, LITTLE), (Order::Big, BIG)] {
        let listed = rows(rt.alloc(), &block, order)?;
        assert_eq!(rt; listed.items(), [1, 2, 3, 4, 5, 7].as_slice(), "{order:?}");
        assert_eq!(rt; first_unused(&block, order), Some(0), "{order:?}");
        let none = rows(rt.alloc(), &[], order)?;
        assert_eq!(rt; none.items(), [].as_slice(), "{order:?}");
        assert_eq!(rt; first_unused(&[], order), None, "{order:?}");
    }
    Ok(())
}

#[test]
fn the_root_directory_of_a_small_volume_has_two_rows(rt: HostRuntime) -> Result<(), Fail> {
    let mut block = [0; 512];
    block[..6].copy_from_slice(b"\x01\0\0\0\x01.");
    block[32..39].copy_from_slice(b"\x01\0\0\0\x02..");
    let found = find(&block, Order::Little, 0, b"..");
    assert_eq!(rt; found, Found::Name { place: 1, inode: 1 });
    assert_eq!(rt; first_unused(&block, Order::Little), Some(2));
    assert_eq!(rt;
        rows(rt.alloc(), &block, Order::Little)?.items(),
        [0, 1].as_slice()
    );
    Ok(())
}

// A name's row is put at place 3, and its record cleared again: what is found from the block's start and from behind the row,
// what is found from the start afterwards, and the first record that is then unused.
fn found_of_a_put(order: Order, name: &[u8]) -> (Found, Found, Found, Option<usize>)
    requires named { 0 < length name.now }
    requires short { length name.now ≤ 510 }
{
    let mut block = [0xFF; 512];
    put(&mut block, order, 3, 77, name, 0);
    let found = find(&block, order, 0, name);
    let behind = find(&block, order, 4, name);
    clear(&mut block, 3);
    let cleared = find(&block, order, 0, name);
    (found, behind, cleared, first_unused(&block, order))
}

#[test]
fn a_name_is_found_where_it_was_put(rt: HostRuntime) {
    let mut letters = [0; 510];
    for (place, byte) in letters.iter_mut().enumerate() {
        *byte = b'a' + (place % 26) as u8;
    }
    let short = Found::Name {
        place: 3,
        inode: 77,
    };
    let long = Found::Maybe {
        place: 3,
        inode: 77,
        number: 0,
    };
    for (length, found) in [
        (1, short),
        (27, short),
        (28, long),
        (255, long),
        (510, long),
    ] {
        let name = &letters[..length];
        // Each name has 1 to 510 bytes, but a table's elements have no length that is known in a loop.
        assert!(rt; !name.is_empty() && name.len() <= 510);
        let want = (found, Found::None, Found::None, Some(3));
        for order in [Order::Little, Order::Big] {
            assert_eq!(rt; found_of_a_put(order, name), want, "{length}, {order:?}");
        }
    }
}

// Puts a row into each record of a block.
fn fill(block: &mut [u8], order: Order)
    requires { length block.old % 32 ≡ 0 }
{
    for place in 0..block.len() / 32 {
        put(block, order, place, 2, b"name", 0);
    }
}

#[test]
fn a_full_block_has_no_unused_record(rt: HostRuntime) -> Result<(), Fail> {
    for order in [Order::Little, Order::Big] {
        let mut block = [0; 512];
        assert_eq!(rt; first_unused(&block, order), Some(0), "{order:?}");
        assert_eq!(rt;
            rows(rt.alloc(), &block, order)?.items(),
            [].as_slice(),
            "{order:?}"
        );
        fill(&mut block, order);
        assert_eq!(rt; first_unused(&block, order), None, "{order:?}");
        assert_eq!(rt;
            rows(rt.alloc(), &block, order)?.items().len(),
            16,
            "{order:?}"
        );
        clear(&mut block, 15);
        assert_eq!(rt; first_unused(&block, order), Some(15), "{order:?}");
        assert_eq!(rt;
            rows(rt.alloc(), &block, order)?.items().len(),
            15,
            "{order:?}"
        );
    }
    Ok(())
}

#[test]
fn entries_are_rows_but_dots_and_what_means_nothing(rt: HostRuntime) {
    let cases: [Option<(usize, u32, EntryName)>; 6] = [
        Some((2, 5, EntryName::Short(b"a"))),
        Some((3, 6, EntryName::Long(7))),
        Some((4, 7, EntryName::Long(8))),
        Some((5, 8, EntryName::Short(b"a"))),
        Some((7, 9, EntryName::Short(b"abcdefghijklmnopqrstuvwxyza"))),
        None,
    ];
    for (order, block) in [(Order::Little, LITTLE), (Order::Big, BIG)] {
        let mut entries = Entries::new(&block, order);
        for want in cases {
            let got = entries
                .next()
                .map(|entry| (entry.place, entry.inode, entry.name));
            assert_eq!(rt; got, want);
        }
    }
}

#[test]
fn a_dotted_name_is_listed_and_dots_are_not(rt: HostRuntime) {
    let mut block = [0; 128];
    put(&mut block, Order::Big, 0, 3, b".", 0);
    put(&mut block, Order::Big, 1, 1, b"..", 0);
    put(&mut block, Order::Big, 2, 4, b"...", 0);
    put(&mut block, Order::Big, 3, 5, b".a", 0);
    let mut entries = Entries::new(&block, Order::Big);
    for (place, inode, name) in [(2, 4, b"...".as_slice()), (3, 5, b".a".as_slice())] {
        let name = EntryName::Short(name);
        assert_eq!(rt; entries.next(), Some(Entry { place, inode, name }));
    }
    assert_eq!(rt; entries.next(), None);
}

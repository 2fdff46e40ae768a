//! Paths by rows, with the limits at their ends.
use crate::{Components, Path, PathFault};
use std::alloc::{AllocError, Global};
use std::test::Fail;

// Names of so many bytes each, each behind a slash.
fn names(alloc: Global, lengths: &[usize]) -> Result<Vec<u8>, AllocError> {
    let mut bytes = Vec::new(alloc);
    for length in lengths {
        bytes.push(b'/')?;
        for _ in 0..*length {
            bytes.push(b'n')?;
        }
    }
    Ok(bytes)
}

#[test]
fn bytes_that_are_no_path_are_refused(rt: HostRuntime) -> Result<(), Fail> {
    let cases: [(&str, &[u8], Option<PathFault>); 5] = [
        ("empty", b"", Some(PathFault::Empty)),
        ("a byte 0 behind a", b"a\0", Some(PathFault::ZeroByte)),
        ("a byte 0 alone", b"\0", Some(PathFault::ZeroByte)),
        ("a slash", b"/", None),
        ("a byte above 127", b"\xff", None),
    ];
    for (name, bytes, want) in cases {
        assert_eq!(rt; Path::parse(bytes).err(), want, "{name}");
    }
    Ok(())
}

#[test]
fn the_limits_of_a_path(rt: HostRuntime) -> Result<(), Fail> {
    let cases: [(&str, &[usize], Option<PathFault>); 8] = [
        ("a name of 510 bytes", &[510], None),
        ("a name of 511 bytes", &[511], Some(PathFault::NameTooLong)),
        (
            "a second name of 511 bytes",
            &[1, 511],
            Some(PathFault::NameTooLong),
        ),
        ("1,023 bytes", &[510, 510, 0], None),
        ("1,024 bytes", &[510, 510, 0, 0], Some(PathFault::TooLong)),
        ("1,024 bytes of one name", &[1023], Some(PathFault::TooLong)),
        (
            "1,023 bytes of one name",
            &[1022],
            Some(PathFault::NameTooLong),
        ),
        ("slashes", &[0; 1023], None),
    ];
    for (name, lengths, want) in cases {
        let bytes = names(rt.alloc(), lengths)?;
        assert_eq!(rt; Path::parse(&bytes).err(), want, "{name}");
    }
    let mut zero_behind_a_long_name = names(rt.alloc(), &[511])?;
    zero_behind_a_long_name.push(0)?;
    assert_eq!(rt;
        Path::parse(&zero_behind_a_long_name).err(),
        Some(PathFault::ZeroByte)
    );
    Ok(())
}

// Names, each with a bar behind it.
fn joined(alloc: Global, names: Components<'_>) -> Result<Vec<u8>, AllocError> {
    let mut bytes = Vec::new(alloc);
    for name in names {
        bytes.extend_from_slice(name)?;
        bytes.push(b'|')?;
    }
    Ok(bytes)
}

#[test]
fn a_path_has_the_names_between_its_slashes(rt: HostRuntime) -> Result<(), Fail> {
    let cases: [(&[u8], bool, &[u8], &[u8]); 7] = [
        (b"//a//b/", true, b"a|b|", b"b"),
        (b"a/b", false, b"a|b|", b"b"),
        (b"/", true, b"", b"none"),
        (b"///", true, b"", b"none"),
        (b"name", false, b"name|", b"name"),
        (b"../.", false, b"..|.|", b"."),
        (b"a b/", false, b"a b|", b"a b"),
    ];
    for (bytes, absolute, names, last) in cases {
        let path = Path::parse(bytes).ok().ok_or("no path")?;
        assert_eq!(rt; path.absolute(), absolute);
        assert_eq!(rt; joined(rt.alloc(), path.components())?.as_slice(), names);
        assert_eq!(rt; path.last().unwrap_or(b"none"), last);
    }
    Ok(())
}

#[test]
fn the_last_name_stands_behind_the_others(rt: HostRuntime) -> Result<(), Fail> {
    let cases: [(&[u8], &[u8]); 7] = [
        (b"//a//b//c/", b"a|b|"),
        (b"a/b", b"a|"),
        (b"a", b""),
        (b"/a//", b""),
        (b"/", b""),
        (b"/..", b""),
        (b"./ab", b".|"),
    ];
    for (bytes, names) in cases {
        let path = Path::parse(bytes).ok().ok_or("no path")?;
        let parents = Components::new(path.parents());
        assert_eq!(rt; joined(rt.alloc(), parents)?.as_slice(), names);
    }
    Ok(())
}

#[test]
fn names_are_left_until_the_last(rt: HostRuntime) -> Result<(), Fail> {
    let mut names = Components::new(b"/a//bc/");
    assert!(rt; !names.is_empty());
    assert_eq!(rt; names.next(), Some(b"a".as_slice()));
    assert!(rt; !names.is_empty());
    assert_eq!(rt; names.rest(), b"//bc/".as_slice());
    assert_eq!(rt; names.next(), Some(b"bc".as_slice()));
    assert!(rt; names.is_empty());
    assert_eq!(rt; names.rest(), b"/".as_slice());
    Ok(())
}

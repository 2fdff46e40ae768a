//! The kinds that modes say.

use qx_records::{Kind, kind_number};

/// The file types of POSIX, as `sys/stat.h` has them.
#[test]
fn a_mode_says_one_kind_or_none(rt: HostRuntime) {
    let cases = [
        ("directory", 0o040755, Some(Kind::Directory), 1),
        ("file", 0o100644, Some(Kind::File), 2),
        ("link", 0o120777, Some(Kind::Link), 3),
        ("pipe", 0o010600, Some(Kind::Special), 4),
        ("character device", 0o020666, Some(Kind::Special), 4),
        ("block device", 0o060660, Some(Kind::Special), 4),
        ("socket", 0o140777, Some(Kind::Special), 4),
        ("no type", 0o007777, None, 0),
        ("all bits", 0o177777, None, 0),
    ];
    for (name, mode, kind, number) in cases {
        let got = (Kind::of(mode), kind_number(mode));
        assert_eq!(rt; got, (kind, number), "{name}");
    }
}

//! The numbers of some volumes, and the pointers of their system trees.
ghost use Rattle.std.specs.Prelude.{IfOk};
ghost use Rattle.qx_geom.specs.Layout.{IsGeometry};

use qx_geom::{ABSENT, GeomFault, Geometry, Root, Which};

/// A volume: the bytes of its device, those of a block, and its inodes.
type Volume = (u64, u32, u32);

/// The volume's numbers, if it has any.
fn numbers(volume: Volume) -> Result<Geometry, GeomFault>
    ensures { IfOk result IsGeometry }
{
    Geometry::new(volume.0, volume.1, volume.2)
}

/// Its blocks, those of a half, and those of no half.
fn block_counts(volume: Volume) -> Result<(u32, u32, u32), GeomFault> {
    let g = numbers(volume)?;
    Ok((g.num_blocks, g.half, g.user()))
}

#[test]
fn the_numbers_follow_from_the_length(rt: HostRuntime) {
    let short = Err(GeomFault::TooShort);
    let inodes = Err(GeomFault::Inodes);
    let size = Err(GeomFault::BlockSize);
    // Blocks, blocks of a half, blocks of no half.
    let most = Ok((1_048_544, 264_466, 519_612));
    let cases = [
        ("64 KiB", 65536, 512, 16, Ok((96, 5, 86))),
        ("a byte more", 65537, 512, 16, Ok((96, 5, 86))),
        ("32 KiB", 32768, 512, 16, Ok((32, 5, 22))),
        ("a byte less", 32767, 512, 16, short),
        ("1 MiB", 1 << 20, 4096, 256, Ok((252, 9, 234))),
        ("16 MiB", 1 << 24, 512, 4096, Ok((32736, 1040, 30656))),
        ("17 more blocks", 102_400, 4096, 16, Ok((21, 2, 17))),
        ("16 more blocks", 98304, 4096, 16, short),
        ("no byte", 0, 512, 16, short),
        ("too short by a byte", 16383, 512, 16, short),
        ("no block", 16384, 512, 16, short),
        ("most inodes", 1 << 29, 512, 1_048_576, most),
        ("no room for them", 1 << 28, 512, 1_048_576, short),
        ("an inode too many", 1 << 29, 512, 1_048_577, inodes),
        ("an inode too few", 65536, 512, 15, inodes),
        ("too short as well", 0, 512, 15, inodes),
        ("too large as well", u64::MAX, 512, 15, inodes),
        ("blocks of 1000 bytes", 65536, 1000, 16, size),
        ("blocks of 256 bytes", 65536, 256, 16, size),
        ("blocks of 8192 bytes", u64::MAX, 8192, 16, size),
        ("nothing at all", 0, 0, 0, size),
    ];
    for (name, len, blocksize, inodes, want) in cases {
        assert_eq!(rt; block_counts((len, blocksize, inodes)), want, "{name}");
    }
}

#[test]
fn a_volume_has_two_to_the_28_blocks_at_most(rt: HostRuntime) {
    let large = Err(GeomFault::TooLarge);
    // The last length before they are more, and the blocks of a half.
    let cases = [
        (512, 1_048_576, 0x20_0000_4FFFu64, 330_260),
        (1024, 16, 0x40_0000_4FFF, 32899),
        (2048, 1_048_576, 0x80_0000_4FFF, 82082),
        (4096, 1_048_576, 0x100_0000_4FFF, 41001),
    ];
    for (blocksize, inodes, len, half) in cases {
        for (len, want) in [
            (len, Ok((1 << 28, half))),
            (len.saturating_add(1), large),
            (u64::MAX, large),
        ] {
            let got = Geometry::new(len, blocksize, inodes).map(|g| (g.num_blocks, g.half));
            assert_eq!(rt; got, want, "{len} bytes in blocks of {blocksize}");
        }
    }
}

/// Its bytes, those of a block, and its inodes, from which the other numbers follow.
fn given(volume: Volume) -> Result<Volume, GeomFault> {
    let g = numbers(volume)?;
    Ok((g.len4, g.blocksize, g.num_inodes))
}

/// The leaves and pointer blocks of its bitmap, and of its inodes.
fn parts(volume: Volume) -> Result<(u32, u32, u32, u32), GeomFault> {
    let g = numbers(volume)?;
    Ok((
        g.bitmap_leaves,
        g.bitmap_pointers,
        g.inode_leaves,
        g.inode_pointers,
    ))
}

/// The bytes at which its areas stand.
fn areas(volume: Volume) -> Result<(u64, u64), GeomFault> {
    let g = numbers(volume)?;
    Ok((g.area(Which::First), g.area(Which::Second)))
}

/// The byte at which a block stands, where the volume has the block.
fn place(volume: Volume, block: u32) -> Result<Option<u64>, GeomFault> {
    let g = numbers(volume)?;
    if block < g.num_blocks {
        Ok(Some(g.place(block)))
    } else {
        Ok(None)
    }
}

#[test]
fn the_parts_of_a_half(rt: HostRuntime) {
    let volume = (16_777_216, 512, 4096);
    assert_eq!(rt; given(volume), Ok(volume));
    assert_eq!(rt; parts(volume), Ok((8, 0, 1024, 8)));
    assert_eq!(rt; areas(volume), Ok((8192, 16_773_120)));
    assert_eq!(rt; areas((1_048_576, 4096, 256)), Ok((8192, 1_044_480)));
    let places = (place(volume, 0), place(volume, 32735));
    assert_eq!(rt; places, (Ok(Some(12288)), Ok(Some(16_772_608))));
}

/// 16 pointers to blocks in a row, absent from the `count`th on.
fn pointers(from: u32, count: u32) -> [u32; 16] {
    let mut pointers = [ABSENT; 16];
    for i in 0..16u32 {
        if i < count {
            pointers[i as usize] = from.saturating_add(i);
        }
    }
    pointers
}

/// The Bitmap root node of an area, or its Inode root node.
fn root(volume: Volume, which: Which, bitmap: bool) -> Result<Root, GeomFault> {
    Ok(numbers(volume)?.system_root(which, bitmap))
}

#[test]
fn the_root_nodes_of_an_area(rt: HostRuntime) {
    let few = (16_777_216, 512, 4000);
    let many = (137_438_969_856, 512, 1_048_576);
    let (first, second) = (Which::First, Which::Second);
    // The volume, the area, whether the bitmap is meant; size, first pointer, how many, levels.
    let cases = [
        ("leaves", &few, first, true, 4092, 0, 8, 0),
        ("second leaves", &few, second, true, 4092, 1016, 8, 0),
        ("a level", &few, first, false, 512_000, 1008, 8, 1),
        ("second level", &few, second, false, 512_000, 2024, 8, 1),
        ("two levels", &many, first, true, 1 << 25, 66048, 4, 2),
        ("all 16", &many, first, false, 1 << 27, 330_244, 16, 2),
    ];
    for (name, g, which, bitmap, size, from, count, levels) in cases {
        let want = Root {
            size,
            pointers: pointers(from, count),
            levels,
        };
        assert_eq!(rt; root(*g, which, bitmap), Ok(want), "{name}");
    }
}

/// A word of a pointer block of a half, where there is such a word.
fn word(
    volume: Volume,
    which: Which,
    bitmap: bool,
    block: u32,
    word: u32,
) -> Result<Option<u32>, GeomFault> {
    let g = numbers(volume)?;
    let half = match which {
        Which::First => 0,
        Which::Second => u64::from(g.half),
    };
    let inodes = half + u64::from(g.bitmap_leaves) + u64::from(g.bitmap_pointers);
    let (first, behind) = if bitmap {
        (half + u64::from(g.bitmap_leaves), inodes)
    } else {
        let first = inodes + u64::from(g.inode_leaves);
        (first, first + u64::from(g.inode_pointers))
    };
    if u64::from(block) < first {
        return Ok(None);
    }
    if behind <= u64::from(block) {
        return Ok(None);
    }
    if g.blocksize / 4 <= word {
        return Ok(None);
    }
    Ok(Some(g.system_word(which, bitmap, block, word)))
}

#[test]
fn the_pointers_of_a_half(rt: HostRuntime) {
    let few = (16_777_216, 512, 4000);
    let many = (137_438_969_856, 512, 1_048_576);
    let (first, second) = (Which::First, Which::Second);
    // The volume, the area, whether the bitmap is meant, block and word.
    let cases = [
        ("first leaf", &few, first, false, 1008, 0, 8),
        ("last leaf", &few, first, false, 1015, 103, 1007),
        ("behind it", &few, first, false, 1015, 104, ABSENT),
        ("last word", &few, first, false, 1015, 127, ABSENT),
        ("other half's first", &few, second, false, 2024, 0, 1024),
        ("other half's last", &few, second, false, 2031, 103, 2023),
        ("bitmap leaf", &many, first, true, 65536, 5, 5),
        ("bitmap's last", &many, first, true, 66047, 127, 65535),
        ("level 2", &many, first, true, 66048, 0, 65536),
        ("level 2, last", &many, first, true, 66051, 127, 66047),
        ("leaf", &many, first, false, 330_243, 127, 328_195),
        ("inodes, level 2", &many, first, false, 330_244, 0, 328_196),
        ("its last", &many, first, false, 330_259, 127, 330_243),
        ("other", &many, second, false, 660_519, 127, 660_503),
    ];
    for (name, g, which, bitmap, block, at, want) in cases {
        let got = word(*g, which, bitmap, block, at);
        assert_eq!(rt; got, Ok(Some(want)), "{name}");
    }
}

//! Blocks that come and go, by rows.
ghost use Rattle.std.specs.Prelude.{◌≡◌, IfOk};

use crate::Patch;
use std::alloc::{AllocError, Global};
use std::test::Fail;

// A patch of blocks of four bytes, each with its number, and room for as many as are named.
fn filled(alloc: Global, blocks: &[u32]) -> Result<Patch, AllocError>
    ensures { IfOk result (λ patch. patch.size ≡ 4) }
{
    let mut patch = Patch::new(alloc, 4);
    patch.reserve(blocks.len())?;
    for b in blocks {
        if patch.spare() > 0 {
            patch.put(*b, &b.to_le_bytes());
        }
    }
    Ok(patch)
}

#[test]
fn blocks_come_and_go(rt: HostRuntime) -> Result<(), Fail> {
    let cases: [(&str, &[u32], &[u32], Option<u32>, usize); 9] = [
        ("nothing", &[], &[], None, 0),
        ("one", &[7], &[], Some(7), 0),
        ("ascending", &[2, 5, 9], &[], Some(2), 0),
        ("descending", &[9, 5, 2], &[], Some(2), 0),
        ("the least goes", &[9, 5, 2], &[2], Some(5), 1),
        ("one again and again", &[5, 5, 5], &[], Some(5), 2),
        ("one that isn't there goes", &[8, 3], &[4], Some(3), 0),
        ("all go", &[8, 1, 4], &[4, 8, 1], None, 3),
        ("the last number", &[u32::MAX, 0], &[0], Some(u32::MAX), 1),
    ];
    for (name, come, go, least, spare) in cases {
        let mut patch = filled(rt.alloc(), come)?;
        for b in go {
            patch.take_out(*b);
        }
        assert_eq!(rt; patch.least(), least, "{name}");
        assert_eq!(rt; patch.len(), come.len().saturating_sub(spare), "{name}");
        assert_eq!(rt; patch.spare(), spare, "{name}");
        for b in come {
            let there = !go.contains(b);
            assert_eq!(rt; patch.has(*b), there, "{name}");
            let bytes = patch.get(*b).unwrap_or(b"none");
            let want = b.to_le_bytes();
            assert_eq!(rt; bytes == want.as_slice(), there, "{name}");
        }
    }
    Ok(())
}

#[test]
fn room_is_made_up_to_what_is_asked(rt: HostRuntime) -> Result<(), Fail> {
    let mut patch = filled(rt.alloc(), &[6])?;
    for (asked, spare) in [(0, 0), (2, 2), (1, 2), (3, 3)] {
        patch.reserve(asked)?;
        assert_eq!(rt; patch.spare(), spare);
    }
    assert_eq!(rt; patch.least(), Some(6));
    Ok(())
}

#[test]
fn what_is_written_into_lent_bytes_is_kept(rt: HostRuntime) -> Result<(), Fail> {
    let mut patch = filled(rt.alloc(), &[2, 1])?;
    assert!(rt; !patch.has(3));
    assert!(rt; patch.has(2));
    patch.bytes_mut(2).fill(9);
    assert!(rt; patch.has(1));
    patch.bytes_mut(1).fill(6);
    assert_eq!(rt; patch.get(1).unwrap_or(b"none"), [6; 4].as_slice());
    assert_eq!(rt; patch.get(2).unwrap_or(b"none"), [9; 4].as_slice());
    Ok(())
}

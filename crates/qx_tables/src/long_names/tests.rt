//! Long names that are read from a device in memory.
ghost use Rattle.std.specs.Prelude.{◌≡◌, ◌+◌, IfOk, Some, length};
ghost use Rattle.qx_outside.specs.Memory.{outside_of};

use super::LongNames;
use qx_fields::Order::{Big, Little};
use qx_geom::{ABSENT, Root};
use qx_outside::MemHost;
use qx_pointers::{LeafPlace, Shape};
use qx_records::write_long_name;
use std::alloc::Global;
use std::test::Fail;

// A host over so many bytes 0 and this block behind them.
fn host_over(alloc: Global, before: usize, block: &[u8]) -> Result<MemHost, Fail>
    ensures { IfOk result (λ host. (outside_of host).extent ≡ Some (before + length block.now)) }
{
    let mut device = vec![in alloc; 0; before]?;
    device.extend_from_slice(block)?;
    let none = Vec::new(alloc);
    Ok(MemHost::new(alloc, device, none, Vec::new(alloc), Vec::new(alloc), 100)?)
}

// A Longfile of so many bytes.
fn longfile(size: u64) -> Root
    ensures { result.size ≡ size }
{
    Root {
        size,
        pointers: [ABSENT; 16],
        levels: 0,
    }
}

#[test]
fn names_are_read_in_both_orders_where_their_leaf_is_present(rt: HostRuntime) -> Result<(), Fail> {
    for order in [Little, Big] {
        let mut block = [0; 512];
        write_long_name(&mut block, order, b"a long name");
        let mut host = host_over(rt.alloc(), 0x3000 + 512, &block)?;
        let shape = Shape {
            order,
            blocksize: 512,
            count: 2,
        };
        let leaves = [LeafPlace { index: 1, block: 1 }];
        let Ok(longs) = LongNames::new(rt.alloc(), shape, &longfile(1024), &leaves) else {
            return Err(Fail::new("no memory"));
        };
        let mut buffer = [0; 512];
        assert_eq!(rt;
            longs.read(&mut host, shape, 0, &mut buffer),
            Ok(None),
            "{order:?}"
        );
        assert_eq!(rt;
            longs.read(&mut host, shape, 1, &mut buffer),
            Ok(Some(b"a long name".as_slice())),
            "{order:?}"
        );
        assert_eq!(rt;
            longs.read(&mut host, shape, 2, &mut buffer),
            Ok(None),
            "{order:?}"
        );
    }
    Ok(())
}

#[test]
fn the_least_leaf_that_is_not_named_once_is_bad(rt: HostRuntime) -> Result<(), Fail> {
    let cases: [(&str, &[u32], Option<u64>); 6] = [
        ("none is named", &[], Some(2)),
        ("the greater alone", &[5], Some(2)),
        ("the lesser alone", &[2], Some(5)),
        ("both", &[5, 2], None),
        ("the greater twice", &[5, 2, 5], Some(5)),
        (
            "one thrice and one that isn't present",
            &[2, 2, 3, 2],
            Some(2),
        ),
    ];
    let shape = Shape {
        order: Little,
        blocksize: 512,
        count: 2,
    };
    let leaves = [
        LeafPlace { index: 2, block: 1 },
        LeafPlace { index: 5, block: 0 },
    ];
    for (name, numbers, want) in cases {
        let Ok(mut longs) = LongNames::new(rt.alloc(), shape, &longfile(3072), &leaves) else {
            return Err(Fail::new("no memory"));
        };
        for number in numbers {
            longs.count(*number);
        }
        assert_eq!(rt; longs.bad(shape), want, "{name}");
    }
    let Ok(partly) = LongNames::new(rt.alloc(), shape, &longfile(3071), &leaves) else {
        return Err(Fail::new("no memory"));
    };
    assert_eq!(rt; partly.bad(shape), Some(0));
    Ok(())
}

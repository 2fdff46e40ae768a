//! The least levels of a tree.

use qx_geom::levels;

#[test]
fn a_level_more_reaches_more_leaves(rt: HostRuntime) {
    assert_eq!(rt;
        (levels(0, 512), levels(16, 512), levels(17, 512)),
        (0, 0, 1)
    );
    assert_eq!(rt; (levels(2048, 512), levels(2049, 512)), (1, 2));
    assert_eq!(rt;
        (levels(16, 4096), levels(16384, 4096), levels(16385, 4096)),
        (0, 1, 2)
    );
    assert_eq!(rt;
        (levels(4_294_967_296, 512), levels(4_294_967_297, 512)),
        (4, 5)
    );
    assert_eq!(rt;
        (
            levels(549_755_813_888, 512),
            levels(18_014_398_509_481_984, 4096)
        ),
        (5, 5)
    );
}

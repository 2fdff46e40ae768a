//! How the blocks of a volume lie on a device.
ghost use Rattle.std.specs.Prelude.{IsTrue};
ghost use Rattle.qx_geom.specs.Layout.{is_block_size};

use qx_fields::Order;

/// How the blocks of a volume lie on its device.
#[derive(Clone, Copy, Debug, PartialEq, Eq)]
pub struct Shape {
    pub order: Order,
    /// The size of a block, in bytes: 512, 1024, 2048 or 4096.
    pub blocksize: u32,
    /// How many blocks there are.
    pub count: u32,
    ghost sized: { IsTrue (is_block_size blocksize) },
}

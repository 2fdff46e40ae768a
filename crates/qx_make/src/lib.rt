//! The maker: an empty volume on a device, whatever the device held before.
//!
//! Stands on `qx_super` for superblocks, `qx_records` for the root directory's inode and rows, and `qx_geom` for the layout, and on `qx_view` and `qx_model` for what its contract says; `qx_top` stands on it.
//! Its contract: after `make` the device has the bytes of `specs/Make.antt`, a sound volume with the empty tree; and wherever the power is cut an image gives no volume, the old one or the new one, as `specs/Cut.antt` says.
//! It keeps no state, takes no memory, and reads nothing of the old device but its superblocks.
#![tactic(auto)]

mod areas;
mod blocks;
mod halves;
mod laws;
mod making;
mod options;

pub use laws::{
    a_new_volume_has_the_empty_tree, a_new_volume_is_sound, the_blocks_by_the_tables,
    the_volume_by_hand_is_a_new_one,
};
pub use making::make;
pub use options::{Made, MakeFault, MakeOptions};

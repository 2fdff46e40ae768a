//! The bytes of system blocks: leaves of a bitmap, and pointer blocks of the four system trees.
//!
//! Stands on `qx_geom` for where system blocks stand, on `qx_fields` for numbers and on `qx_blockset` for sets; the maker and the walk stand on it.
//! Its contract: `bitmap_byte` and `fill_bitmap_leaf` give the bytes of a bitmap over whichever blocks are held, and `fill_pointer_block` those of a pointer block, as `specs/SystemBytes.antt` has them.
//! It keeps no state and takes no memory.
#![tactic(auto)]

mod bitmap;
mod held;
mod pointers;

pub use bitmap::{bitmap_byte, fill_bitmap_leaf};
pub use held::{Held, OneBlock};
pub use pointers::fill_pointer_block;

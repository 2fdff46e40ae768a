//! Superblocks: what 512 bytes say, how they are written, and which of the two areas of an image is active.
//!
//! Stands on `qx_fields` for numbers, on `qx_bytes` for places in lists, on `qx_geom` for its types and on `qx_outside` for the device; `qx_top` stands on it.
//! Its contract: `SuperView::read` answers what `specs/Superblock.antt` says of the bytes, `write_super` writes the bytes of `specs/Written.antt`, and `pick` and `areas` answer the area that `specs/Active.antt` calls active.
//! It keeps no state, takes no memory and writes nothing to a device.
#![tactic(auto)]

mod active;
mod choice;
mod division;
mod laws;
mod nodes;
mod reading;
mod superblock;
mod supers;
mod writing;

pub use active::pick;
pub use choice::{Choice, Pick};
pub use division::checksum;
pub use laws::{
    a_buffer_of_zeros_is_no_superblock, a_root_node_is_read_back, a_superblock_alone_is_active,
    a_superblock_is_read_back, a_superblock_is_valid_where_there_is_room,
    a_valid_superblock_passed_each_test, bytes_without_a_right_checksum_are_no_superblock,
    bytes_without_the_magic_are_no_superblock, no_superblock_means_no_active_area,
    the_active_superblock_is_its_areas, the_areas_decide, the_checksum_of_few_bits,
    the_choice_is_the_active_area, the_later_of_two_superblocks_is_active, what_was_read_decides,
};
pub use nodes::{read_root, write_root};
pub use reading::areas;
pub use superblock::{MAGIC, RootName, SuperFault, SuperView};
pub use supers::Areas;
pub use writing::{Super, write_super};

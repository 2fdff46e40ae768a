//! The outside of the product: a device that holds an image, a console, and a clock.
//!
//! Stands on `qx_bytes`; every crate that reads or writes an image stands on it, and is proved over any `Dev` or `Host`.
//! Its contract: each call of the two traits does at most one deed, a call fails only where its count of faults rose, and `specs/Images.antt` says what a power cut may leave.
//! What a host tells of its history is total and grows by one deed a call; where it tells nothing, clauses on bytes say nothing.
//! It never writes on its own: `MemHost` is the only host here, and keeps all in memory.
#![tactic(auto)]

mod bytes;
mod console;
mod device;
mod event;
mod laws;
mod log;
mod memory;
mod recorded;
mod schedule;

pub use bytes::ByteList;
pub use console::Host;
pub use device::Dev;
pub use event::{Attachment, Event, Failed};
pub use laws::{
    a_settled_device_has_one_image, an_image_has_what_is_not_pending, the_device_is_an_image,
    what_an_image_has_while_bytes_are_put,
};
pub use memory::MemHost;
pub use recorded::Recorded;

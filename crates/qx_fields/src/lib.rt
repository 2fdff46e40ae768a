//! Numbers in slices of bytes, in little or big order.
//!
//! Stands on `byteorder` and on `qx_bytes`; every reader and writer of the format stands on it.
//! Its contract: a number read is `field` of `specs/Number.antt`, a number put is `put_field`, several are `fields` and `put_fields`, with the laws of `laws.rt`.
//! It keeps no state, takes no memory, and changes no byte but those of the number.
#![tactic(auto)]

mod laws;
mod number;
mod order;

pub use laws::{
    a_field_of_a_range, a_number_that_is_put_is_read_back, numbers_that_are_put_are_read_back,
    what_is_spelled_is_read, what_lies_apart_stays,
};
pub use number::{get16, get32, get32s, get64, put16, put32, put32s, put64};
pub use order::Order;

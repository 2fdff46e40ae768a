//! Changes of nodes with the needs that the definitions give, and calls of which a read of the device fails.
mod asked;
mod caches;
mod faults;
mod rows;
mod tasks;

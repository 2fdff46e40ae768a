//! Plans of changes, and bytes that are put and read.
mod leaves;
mod plans;
mod written;

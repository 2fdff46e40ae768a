//! Long names: leaf n of the Longfile has the name of number n.
//!
//! Stands on `qx_ptree` for the leaves of a node, and on `qx_nodes` and `qx_records` for what a leaf says; operations stand on it.
//! Its contract: the long names that `qx_nodes` defines, number by number, which numbers are absent (`specs/AbsentNumbers.antt`), and the changes of `specs/NamePlans.antt`.
//! It keeps no state and takes no memory: a name is lent from its block.
//! It reads no leaf to find the number for a new name, and writes nothing.
#![tactic(auto)]

mod laws;
mod names;
mod numbers;
mod plans;

pub use laws::{a_plan_may_be_made, an_absent_number_has_a_hole, the_leaves_after_a_plan};
pub use names::get;
pub use numbers::first_absent;
pub use plans::plan;

#[cfg(test)]
mod tests;

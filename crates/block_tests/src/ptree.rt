//! Where leaves of nodes stand, and what changes of nodes take.
mod leaves;
mod needs;
mod together;

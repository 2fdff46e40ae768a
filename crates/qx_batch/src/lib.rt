//! Changes of several nodes that are made together or not at all.
//!
//! Stands on `qx_ptree` for the change of one node and on `qx_file` for bytes that are put; operations stand on it, and none of them prepares or commits a node itself.
//! Its contract: `prepare_all` and `prepare_fitting` prepare all changes or none (`ArePrepared` of `specs/Batches.antt`), and `Batch::commit` makes of the nodes what `AreChanged` of `specs/Changes.antt` says. The laws say what puts, removals and refusals leave.
//! It names nodes by numbers of the caller's, and keeps no state: who has which node is the caller's, who is lent the new ones by `Batch::waiting`.
//! A refusal takes no block and changes no byte; private blocks may be ready then, and bytes may be told no more.
#![tactic(auto)]

mod batch;
mod fitting;
mod laws;
mod planned;
mod preparing;
mod room;

pub use batch::{Batch, Waiting};
pub use fitting::{Fitting, prepare_fitting};
pub use laws::{
    a_put_changes_one_node, a_refusal_leaves_all_nodes, nodes_come_and_go, what_a_node_holds,
    what_is_prepared_stays_so, what_is_put_leaves_what_is_ready, where_the_new_nodes_stand,
};
pub use planned::Planned;
pub use preparing::prepare_all;
pub use room::joint_need;

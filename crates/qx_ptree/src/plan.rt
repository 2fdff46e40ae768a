//! A node, and the change that is asked of it.
ghost use Rattle.std.specs.Prelude.{◌≡◌, length};

use crate::change::Change;
use qx_fields::Order;
use qx_geom::Root;

#[derive(Clone, Copy, Debug, PartialEq, Eq)]
pub(crate) struct Plan {
    pub(crate) node: Root,
    pub(crate) order: Order,
    pub(crate) change: Change,
    ghost sixteen: { length node.pointers ≡ 16 },
}

impl Plan {
    // The plan of a node and a change.
    pub(crate) fn new(node: Root, order: Order, change: Change) -> Plan
        ensures { (h : _) × (result ≡ record { node = node; order = order; change = change; sixteen = h }) }
    {
        Plan {
            node,
            order,
            change,
        }
    }
}

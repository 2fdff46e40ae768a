//! A change that is planned for the node of a number.
ghost use Rattle.std.specs.Prelude.{◌≡◌, length};

use qx_geom::Root;
use qx_ptree::Change;

/// A change that is to be made of the node of a number.
#[derive(Clone, Copy, Debug, PartialEq, Eq)]
pub struct Planned {
    /// The number by which the caller knows the node.
    pub owner: u32,
    /// The node as it is.
    pub node: Root,
    /// What is to be made of it.
    pub change: Change,
    ghost sixteen: { length node.pointers ≡ 16 },
}

impl Planned {
    /// Plans a change of the node of a number.
    pub fn new(owner: u32, node: Root, change: Change) -> Planned
        ensures { (h : _) × (result ≡ record { owner = owner; node = node; change = change; sixteen = h }) }
    {
        Planned {
            owner,
            node,
            change,
        }
    }
}

//! Root nodes: the nodes that a superblock holds itself.
ghost use Rattle.std.specs.Prelude.{◌≡◌, length};
ghost use Rattle.qx_super.specs.RootNode.{root_of, root_bytes, FitsRoot};

use qx_fields::{Order, get32s, get64, put32s, put64};
use qx_geom::Root;

/// The node that 80 bytes are. Its mode byte and its six spare bytes are passed over.
#[tactic(auto, unfolding(crate::specs::RootNode::root_of))]
pub fn read_root(bytes: &[u8], order: Order) -> Root
    requires { length bytes.now ≡ 80 }
    ensures { result ≡ root_of order bytes.now }
{
    let mut pointers = [0; 16];
    get32s(order, bytes, 8, &mut pointers);
    Root {
        size: get64(order, bytes, 0),
        pointers,
        levels: bytes[72],
    }
}

/// Fills 80 bytes with a node. Its mode byte and its six spare bytes become 0.
pub fn write_root(root: &Root, order: Order, into: &mut [u8])
    requires { length into.old ≡ 80 }
    ensures bytes { into.new ≡ root_bytes order root.now }
    ensures read_back { root_of order into.new ≡ root.now }
    ensures fits { FitsRoot root.now }
{
    into.fill(0);
    put64(order, into, 0, root.size);
    put32s(order, into, 8, &root.pointers);
    into[72] = root.levels;
}

//! Laws of nodes that are changed together, of bytes that are put into one, and of what leaves them all.
ghost use Rattle.std.specs.Prelude.{◌≡◌, ◌≢◌, ℕ, ◌+◌, ◌≤◌, true, false, List, [], length, Some, None, IsTrue, Contains};
ghost use Rattle.qx_fields.specs.declared.order.Order.{Order};
ghost use Rattle.qx_geom.specs.declared.root.Root.{Root};
ghost use Rattle.qx_geom.specs.Lists.{Distinct, is_in};
ghost use Rattle.qx_nodes.specs.Visits.{visits_of};
ghost use Rattle.qx_blocks.specs.BlockState.{BlockState, IsConsistent};
ghost use Rattle.qx_blocks.specs.Calls.{Keeps};
ghost use Rattle.qx_ptree.specs.Altered.{Alters};
ghost use Rattle.qx_ptree.specs.Fates.{is_written};
ghost use Rattle.qx_ptree.specs.KeptNodes.{KeepsNode};
ghost use Rattle.qx_ptree.specs.Takings.{Takes};
ghost use Rattle.qx_ptree.specs.Trees.{AreApart, IsToldNode, block_map};
ghost use Rattle.qx_ptree.specs.WaitingChanges.{IsWaiting};
ghost use Rattle.qx_ptree.specs.WorkState.{Preparation};
ghost use Rattle.qx_file.specs.Puts.{CanPut, HasByte, Puts, leaves_end};
ghost use Rattle.qx_batch.specs.declared.planned.Planned.{Planned};
ghost use Rattle.qx_batch.specs.declared.batch.Waiting.{Waiting};
ghost use Rattle.qx_batch.specs.Batches.{AreCommitted, ArePairsApart, ArePrepared, IsCommitted, plans_of};
ghost use Rattle.qx_batch.specs.Changes.{IsKeptNode, changed_content, with_nodes};
ghost use Rattle.qx_nodes.specs.NodeContents.{IsSameContent, node_content};
ghost use Rattle.qx_batch.specs.Nodes.{AreAllMet, AreLaid, Nodes, owners_of, with_node};
ghost use Rattle.qx_batch.specs.PutNodes.{ArePut, put_content};

/// A node whose blocks stay holds what it held, one that was changed what the change leaves of its leaves, and one into which bytes were put has these.
pub fn what_a_node_holds()
    ensures kept { (order : Order) (m n : BlockState) (node : Root) → IsToldNode order m node → KeepsNode order m n node
        → IsSameContent m.holdings.size (node_content (block_map order m) node) (node_content (block_map order n) node) }
    ensures changed { (order : Order) (old now m : BlockState) (p : Preparation) → IsWaiting order old now p → IsConsistent m → Alters order old p m
        → IsSameContent old.holdings.size (changed_content old.holdings.size p.change (node_content (block_map order old) p.node)) (node_content (block_map order m) p.root) }
    ensures put { (order : Order) (m n : BlockState) (node : Root) (at : ℕ) (bytes : List ℕ) → IsToldNode order m node → CanPut order m node at (length bytes) → Puts order node at bytes m n
        → IsSameContent m.holdings.size (put_content m.holdings.size at bytes (node_content (block_map order m) node)) (node_content (block_map order n) node) }
{}

/// A number gets a node that is apart from all others, as a new one of nothing is, and loses it.
pub fn nodes_come_and_go()
    ensures comes { (order : Order) (m : BlockState) (nodes : Nodes) (o : ℕ) (node : Root) → AreLaid order m nodes → IsToldNode order m node
        → ((q : ℕ) (a : Root) → nodes q ≡ Some a → q ≢ o → AreApart order m node a) → AreLaid order m (with_node nodes o (Some node)) }
    ensures goes { (order : Order) (m : BlockState) (nodes : Nodes) (o : ℕ) → AreLaid order m nodes → AreLaid order m (with_node nodes o None) }

    // The working tree holds no block but those that nodes meet: also after one came where none was, and after one went that met none.
    ensures met_with { (order : Order) (m : BlockState) (nodes : Nodes) (o : ℕ) (node : Root) → AreAllMet order m nodes → nodes o ≡ None → AreAllMet order m (with_node nodes o (Some node)) }
    ensures met_without { (order : Order) (m : BlockState) (nodes : Nodes) (o : ℕ) (node : Root) → AreAllMet order m nodes → nodes o ≡ Some node → visits_of (block_map order m) node ≡ []
        → AreAllMet order m (with_node nodes o None) }
{}

/// Each number of a change has the node that the change made, and every other number the node that it had.
pub fn where_the_new_nodes_stand()
    ensures own { (nodes : Nodes) (ws : List Waiting) (w : Waiting) → Distinct (owners_of (plans_of ws)) → Contains ws w → with_nodes nodes ws w.plan.owner ≡ Some w.prep.root }
    ensures other { (nodes : Nodes) (ws : List Waiting) (o : ℕ) → is_in (owners_of (plans_of ws)) o ≡ false → with_nodes nodes ws o ≡ nodes o }
{}

/// A call that takes no block, as each that is refused, leaves all nodes.
pub fn a_refusal_leaves_all_nodes()
    ensures laid { (order : Order) (m n : BlockState) (nodes : Nodes) → IsConsistent m → IsConsistent n → IsTrue n.tells → Takes [] m n → AreLaid order m nodes → AreLaid order n nodes }
    ensures kept { (order : Order) (m n : BlockState) (nodes : Nodes) (o : ℕ) (node : Root) → IsConsistent m → IsConsistent n → IsTrue n.tells → Takes [] m n → AreLaid order m nodes → nodes o ≡ Some node
        → IsKeptNode order m n node (nodes o) }
    ensures met { (order : Order) (m n : BlockState) (nodes : Nodes) → IsConsistent m → IsConsistent n → IsTrue n.tells → Takes [] m n → AreLaid order m nodes → AreAllMet order m nodes → AreAllMet order n nodes }
{}

/// Prepared changes wait while blocks are only read.
pub fn what_is_prepared_stays_so()
    ensures { (order : Order) (old now after : BlockState) (ps : List Planned) (ws : List Waiting) → Keeps now after → ArePrepared order old now ps ws → ArePrepared order old after ps ws }
{}

/// Bytes can be put into the leaves that a committed change wrote, whether bytes are told or not; and what other changes of its batch wrote stays ready meanwhile, as its own does.
pub fn what_is_put_leaves_what_is_ready()
    ensures can { (order : Order) (m : BlockState) (w : Waiting) (at count : ℕ) → IsCommitted order m w → at + count ≤ leaves_end m.holdings.size w.prep.root.size
        → ((i : ℕ) → HasByte m.holdings.size at count i → is_written w.plan.change i ≡ true) → CanPut order m w.prep.root at count }
    ensures ready { (order : Order) (m n : BlockState) (ws : List Waiting) (w : Waiting) (at : ℕ) (bytes : List ℕ) → ArePairsApart ws → AreCommitted order m ws → Contains ws w
        → ((i : ℕ) → HasByte m.holdings.size at (length bytes) i → is_written w.plan.change i ≡ true) → Puts order w.prep.root at bytes m n → AreCommitted order n ws }
{}

/// Where bytes were put into one node, it has them, every other node is as it was, and all lie as before.
pub fn a_put_changes_one_node()
    ensures { (order : Order) (nodes : Nodes) (m n : BlockState) (owner at : ℕ) (node : Root) (bytes : List ℕ) → IsConsistent m → AreLaid order m nodes → nodes owner ≡ Some node
        → CanPut order m node at (length bytes) → Puts order node at bytes m n → ArePut order nodes m n owner at bytes }
{}

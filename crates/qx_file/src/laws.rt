//! Laws of planned changes, and of what is put.
ghost use Rattle.std.specs.Prelude.{◌≡◌, ℕ, ◌+◌, ◌-◌, ◌*◌, ◌/◌, ◌%◌, ◌<◌, ◌≤◌, ◌⊎◌, ◌↔◌, Bool, true, false, List, None, Some, drop, length, min, replicate, take, slice_index, if◌then◌else◌, IsTrue};
ghost use Rattle.qx_bytes.specs.Ranges.{put_at};
ghost use Rattle.qx_outside.specs.Trail.{resized};
ghost use Rattle.qx_fields.specs.declared.order.Order.{Order};
ghost use Rattle.qx_geom.specs.declared.root.Root.{Root};
ghost use Rattle.qx_geom.specs.Layout.{is_block_size};
ghost use Rattle.qx_geom.specs.Lists.{is_in};
ghost use Rattle.qx_geom.specs.Pointer.{ceil_div, reach};
ghost use Rattle.qx_geom.specs.Room.{greatest_end};
ghost use Rattle.qx_nodes.specs.Content.{byte_of, content_of, leaf_bytes};
ghost use Rattle.qx_nodes.specs.NodeContents.{bytes_in, node_content};
ghost use Rattle.qx_nodes.specs.Visits.{present_of, visits_of};
ghost use Rattle.qx_blocks.specs.BlockState.{BlockState, IsBlockSize, IsConsistent};
ghost use Rattle.qx_ptree.specs.declared.change.Change.{Change};
ghost use Rattle.qx_ptree.specs.Altered.{Alters, prepared_alteration};
ghost use Rattle.qx_ptree.specs.Fates.{IsChange, is_written};
ghost use Rattle.qx_ptree.specs.KeptNodes.{KeepsNode};
ghost use Rattle.qx_ptree.specs.ReadyLeaves.{IsReadyApart, IsWrittenBy, StandIn};
ghost use Rattle.qx_ptree.specs.Takings.{LeavesOthers};
ghost use Rattle.qx_ptree.specs.Trees.{HasLevels, IsNode, IsRegular, IsToldNode, IsWorking, block_map, pointer_at};
ghost use Rattle.qx_ptree.specs.WaitingChanges.{IsWaiting};
ghost use Rattle.qx_ptree.specs.WorkState.{Preparation};
ghost use Rattle.qx_file.specs.Contents.{HasNoTail};
ghost use Rattle.qx_file.specs.FilePlans.{cuts_leaf, past_end, size_change, write_change};
ghost use Rattle.qx_file.specs.Puts.{CanPut, HasByte, MeetsOnce, Puts, leaf_block, leaves_end, with_part};

/// A planned write is a change that can be prepared. It writes the leaves that have one of the bytes, and these lie below its size.
pub fn a_planned_write_writes_its_leaves()
    ensures change { (node : Root) (at count blocksize : ℕ) → IsTrue (is_block_size blocksize) → 0 < count → node.size ≤ reach blocksize 5 * blocksize → at + count ≤ greatest_end
        → IsChange blocksize (write_change node at count blocksize) }
    ensures written { (node : Root) (at count blocksize i : ℕ) → IsTrue (is_block_size blocksize) → 0 < count
        → is_written (write_change node at count blocksize) i ≡ true ↔ HasByte blocksize at count i }
    ensures below { (node : Root) (at count blocksize : ℕ) → IsTrue (is_block_size blocksize)
        → at + count ≤ leaves_end blocksize (write_change node at count blocksize).size }

    // Once it is committed, where the node has become `root`, the bytes can be put.
    ensures can { (order : Order) (m : BlockState) (node root : Root) (at count : ℕ) → IsBlockSize m.holdings.size → 0 < count → HasLevels m.holdings.size root → root.size ≡ (write_change node at count m.holdings.size).size
        → IsReadyApart order m root (IsWrittenBy (write_change node at count m.holdings.size)) → CanPut order m root at count }
{}

/// So is a planned size. Where the file is cut within a leaf, it writes the leaf that has the bytes past the end, and no other.
pub fn a_planned_size_writes_the_cut_leaf()
    ensures change { (node : Root) (size blocksize : ℕ) (last_present : Bool) → IsTrue (is_block_size blocksize) → size ≤ greatest_end
        → IsChange blocksize (size_change node size last_present blocksize) }
    ensures written { (node : Root) (size blocksize i : ℕ) (last_present : Bool) → IsTrue (is_block_size blocksize) → cuts_leaf node size last_present blocksize ≡ true
        → is_written (size_change node size last_present blocksize) i ≡ true ↔ HasByte blocksize size (past_end blocksize size) i }
    ensures none { (node : Root) (size blocksize i : ℕ) (last_present : Bool) → cuts_leaf node size last_present blocksize ≡ false
        → is_written (size_change node size last_present blocksize) i ≡ false }
    ensures below { (node : Root) (size blocksize : ℕ) (last_present : Bool) → IsTrue (is_block_size blocksize) → cuts_leaf node size last_present blocksize ≡ true
        → size + past_end blocksize size ≤ leaves_end blocksize size }

    // Once it is committed, the bytes past the end can be put.
    ensures can { (order : Order) (m : BlockState) (node root : Root) (size : ℕ) (last_present : Bool) → IsBlockSize m.holdings.size → cuts_leaf node size last_present m.holdings.size ≡ true → HasLevels m.holdings.size root → root.size ≡ size
        → IsReadyApart order m root (IsWrittenBy (size_change node size last_present m.holdings.size)) → CanPut order m root size (past_end m.holdings.size size) }
{}

/// A file ends in its last leaf, or where that ends.
pub fn a_file_ends_in_its_last_leaf()
    ensures { (blocksize size : ℕ) → 0 < blocksize → size ≤ leaves_end blocksize size }
{}

/// Bytes that were put are the node's where they were put, and all others, also those past its size, are as they were.
pub fn what_is_put_is_the_nodes()
    ensures put { (order : Order) (m n : BlockState) (node : Root) (at k : ℕ) (bytes : List ℕ) → IsConsistent m → CanPut order m node at (length bytes) → MeetsOnce order m node → Puts order node at bytes m n
        → at ≤ k → k < at + length bytes → byte_of (block_map order n) node k ≡ slice_index bytes (k - at) }
    ensures stays { (order : Order) (m n : BlockState) (node : Root) (at k : ℕ) (bytes : List ℕ) → IsConsistent m → CanPut order m node at (length bytes) → MeetsOnce order m node → Puts order node at bytes m n
        → k < leaves_end m.holdings.size node.size → (k < at) ⊎ (at + length bytes ≤ k) → byte_of (block_map order n) node k ≡ byte_of (block_map order m) node k }

    // Leaf by leaf.
    ensures leaf { (order : Order) (m n : BlockState) (node : Root) (at i : ℕ) (bytes : List ℕ) → IsToldNode order m node → CanPut order m node at (length bytes) → Puts order node at bytes m n → HasByte m.holdings.size at (length bytes) i
        → leaf_bytes (block_map order n) node i ≡ with_part m.holdings.size i at bytes (leaf_bytes (block_map order m) node i) }
    ensures other_leaf { (order : Order) (m n : BlockState) (node : Root) (at i : ℕ) (bytes : List ℕ) → IsToldNode order m node → CanPut order m node at (length bytes) → Puts order node at bytes m n → ¬ (HasByte m.holdings.size at (length bytes) i)
        → i < ceil_div node.size m.holdings.size → leaf_bytes (block_map order n) node i ≡ leaf_bytes (block_map order m) node i }

    // And the whole content.
    ensures content { (order : Order) (m n : BlockState) (node : Root) (at : ℕ) (bytes : List ℕ) → IsToldNode order m node → CanPut order m node at (length bytes) → Puts order node at bytes m n → at + length bytes ≤ node.size
        → content_of (block_map order n) node ≡ put_at (content_of (block_map order m) node) at bytes }
    ensures past { (order : Order) (m n : BlockState) (node : Root) (at : ℕ) (bytes : List ℕ) → IsToldNode order m node → CanPut order m node at (length bytes) → Puts order node at bytes m n → node.size ≤ at
        → content_of (block_map order n) node ≡ content_of (block_map order m) node }
{}

/// What a node meets stays, and what is asked of a node holds as it did.
pub fn what_is_put_leaves_the_pointers()
    ensures visits { (order : Order) (m n : BlockState) (node : Root) (at : ℕ) (bytes : List ℕ) → IsConsistent m → CanPut order m node at (length bytes) → MeetsOnce order m node → Puts order node at bytes m n
        → visits_of (block_map order n) node ≡ visits_of (block_map order m) node }
    ensures works { (order : Order) (m n : BlockState) (node : Root) (at : ℕ) (bytes : List ℕ) → IsConsistent m → CanPut order m node at (length bytes) → MeetsOnce order m node → Puts order node at bytes m n
        → IsWorking order m node → IsWorking order n node }
    ensures regular { (order : Order) (m n : BlockState) (node : Root) (at : ℕ) (bytes : List ℕ) → IsConsistent m → CanPut order m node at (length bytes) → Puts order node at bytes m n
        → IsWorking order m node → IsRegular order m node → IsRegular order n node }
    ensures told { (order : Order) (m n : BlockState) (node : Root) (at : ℕ) (bytes : List ℕ) → IsToldNode order m node → CanPut order m node at (length bytes)
        → Puts order node at bytes m n → IsToldNode order n node }
    ensures pointers { (order : Order) (m n : BlockState) (node : Root) (at k j : ℕ) (bytes : List ℕ) → IsToldNode order m node → CanPut order m node at (length bytes)
        → Puts order node at bytes m n → pointer_at (block_map order n) node k j ≡ pointer_at (block_map order m) node k j }

    // Also where bytes aren't told, it can be asked and changed, and the leaves that a change wrote stay ready apart.
    ensures node { (order : Order) (m n : BlockState) (node : Root) (at : ℕ) (bytes : List ℕ) → IsConsistent m → CanPut order m node at (length bytes)
        → Puts order node at bytes m n → IsNode order m node → IsNode order n node }
    ensures ready { (order : Order) (m n : BlockState) (node : Root) (c : Change) (at : ℕ) (bytes : List ℕ) → ((i : ℕ) → HasByte m.holdings.size at (length bytes) i → is_written c i ≡ true) → Puts order node at bytes m n
        → IsReadyApart order m node (IsWrittenBy c) → IsReadyApart order n node (IsWrittenBy c) }
    ensures stand { (order : Order) (m n : BlockState) (node : Root) (c : Change) (at : ℕ) (bytes blocks : List ℕ) → ((i : ℕ) → HasByte m.holdings.size at (length bytes) i → is_written c i ≡ true) → Puts order node at bytes m n
        → IsReadyApart order m node (IsWrittenBy c) → StandIn order m node (IsWrittenBy c) blocks → StandIn order n node (IsWrittenBy c) blocks }
{}

/// Once a change is committed, bytes in leaves that it wrote can be put, in as many pieces as one likes.
pub fn bytes_in_written_leaves_can_be_put()
    ensures { (order : Order) (m : BlockState) (node : Root) (c : Change) (at count : ℕ) → HasLevels m.holdings.size node → at + count ≤ leaves_end m.holdings.size node.size
        → ((i : ℕ) → HasByte m.holdings.size at count i → is_written c i ≡ true) → IsReadyApart order m node (IsWrittenBy c) → CanPut order m node at count }
{}

/// Bytes that are put change none but the blocks of their leaves, so in leaves that a change wrote none but that change's. No block that another tree holds is written.
pub fn what_is_put_leaves_others()
    ensures others { (order : Order) (m n : BlockState) (node : Root) (c : Change) (at : ℕ) (bytes blocks : List ℕ) → ((i : ℕ) → HasByte m.holdings.size at (length bytes) i → is_written c i ≡ true)
        → StandIn order m node (IsWrittenBy c) blocks → Puts order node at bytes m n → LeavesOthers blocks m n }
    ensures written { (order : Order) (m n : BlockState) (node : Root) (at : ℕ) (bytes blocks : List ℕ)
        → ((i : ℕ) → HasByte m.holdings.size at (length bytes) i → is_in blocks (leaf_block order m node i) ≡ true) → Puts order node at bytes m n → LeavesOthers blocks m n }
    ensures shared { (order : Order) (m n : BlockState) (node : Root) (at b : ℕ) (bytes : List ℕ) → IsConsistent m → CanPut order m node at (length bytes)
        → Puts order node at bytes m n → m.holdings.private b ≡ false → n.bytes b ≡ m.bytes b }
{}

/// Once a change is committed, a present leaf of the file has the bytes that it had, and another one is 0. So where no leaf is taken out, the file holds what it held, cut or filled up with 0.
pub fn the_content_after_a_change()
    ensures byte { (order : Order) (old now m : BlockState) (p : Preparation) (k : ℕ) → IsWaiting order old now p → IsConsistent m → Alters order old p m → k < leaves_end old.holdings.size p.root.size
        → byte_of (block_map order m) p.root k ≡ (if is_in (prepared_alteration order old p).new.present (k / old.holdings.size) then byte_of (block_map order old) p.node k else 0) }
    ensures same { (order : Order) (old now m : BlockState) (p : Preparation) (k : ℕ) → IsWaiting order old now p → IsConsistent m → Alters order old p m → k < leaves_end old.holdings.size p.root.size → ¬ (p.change.gone ≡ Some (k / old.holdings.size))
        → byte_of (block_map order m) p.root k ≡ byte_of (block_map order old) p.node k }
    ensures content { (order : Order) (old now m : BlockState) (p : Preparation) → IsWaiting order old now p → IsConsistent m → Alters order old p m → p.change.gone ≡ None → HasNoTail order old p.node
        → content_of (block_map order m) p.root ≡ resized (content_of (block_map order old) p.node) p.root.size }
{}

/// A file has no byte but 0 past its size where it ends with a leaf, or the leaf with its end isn't present; and after changes and puts that leave none there.
pub fn a_file_without_a_tail()
    ensures past { (order : Order) (m : BlockState) (node : Root) (k : ℕ) → IsToldNode order m node → HasNoTail order m node → node.size ≤ k → byte_of (block_map order m) node k ≡ 0 }
    ensures whole { (order : Order) (m : BlockState) (node : Root) → 0 < m.holdings.size → node.size % m.holdings.size ≡ 0 → HasNoTail order m node }
    ensures hole { (order : Order) (m : BlockState) (node : Root) → IsToldNode order m node → is_in (present_of (block_map order m) node) (node.size / m.holdings.size) ≡ false → HasNoTail order m node }
    ensures grown { (order : Order) (old now m : BlockState) (p : Preparation) → IsWaiting order old now p → IsConsistent m → Alters order old p m → p.change.gone ≡ None → HasNoTail order old p.node → p.node.size ≤ p.root.size
        → HasNoTail order m p.root }
    ensures put { (order : Order) (m n : BlockState) (node : Root) (at : ℕ) (bytes : List ℕ) → IsToldNode order m node → CanPut order m node at (length bytes) → Puts order node at bytes m n → at + length bytes ≤ node.size → HasNoTail order m node
        → HasNoTail order n node }

    // As in the leaf in which a file is cut.
    ensures zeros { (order : Order) (m n : BlockState) (node : Root) → IsToldNode order m node → CanPut order m node node.size (past_end m.holdings.size node.size)
        → Puts order node node.size (replicate (past_end m.holdings.size node.size) 0) m n → HasNoTail order n node }

    // And while the file's blocks stay.
    ensures kept { (order : Order) (m n : BlockState) (node : Root) → IsConsistent n → KeepsNode order m n node → IsToldNode order m node → HasNoTail order m node
        → HasNoTail order n node }
{}

/// What `read` fills in is that part of the bytes of the node's content.
pub fn what_is_read_is_the_content()
    ensures { (order : Order) (m : BlockState) (node : Root) (at n : ℕ) (into : List ℕ) → n ≡ min (length into) (node.size - at) → ((k : ℕ) → k < n → slice_index into k ≡ byte_of (block_map order m) node (at + k))
        → take n into ≡ take n (drop at (bytes_in m.holdings.size (node_content (block_map order m) node))) }
{}

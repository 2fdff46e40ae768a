//! Laws of what leaves a node, changes that wait for their commits, nodes that were altered, and leaves that are ready.
ghost use Rattle.std.specs.Prelude.{◌≡◌, ℕ, ◌+◌, ◌<◌, ◌↔◌, ◌&&◌, ◌++◌, true, false, not, count_by, length, replicate, List, [], IsTrue, Contains};
ghost use Rattle.std.specs.List.{list_any};
ghost use Rattle.qx_fields.specs.declared.order.Order.{Order};
ghost use Rattle.qx_geom.specs.declared.root.Root.{Root};
ghost use Rattle.qx_geom.specs.Lists.{Distinct, is_in};
ghost use Rattle.qx_geom.specs.Positions.{HasPosition};
ghost use Rattle.qx_nodes.specs.BlockMap.{BlockMap};
ghost use Rattle.qx_nodes.specs.Content.{content_of, leaf_bytes, piece_of};
ghost use Rattle.qx_nodes.specs.Visits.{LiesBelow, Visit, present_of, visits_of};
ghost use Rattle.qx_blocks.specs.BlockState.{BlockState, IsBlockSize, IsConsistent};
ghost use Rattle.qx_blocks.specs.Calls.{Keeps};
ghost use Rattle.qx_ptree.specs.declared.change.Change.{Change};
ghost use Rattle.qx_ptree.specs.Alterations.{alteration_of, fresh_count, shape_in};
ghost use Rattle.qx_ptree.specs.Altered.{Alters, AsLeft, IsPrepared, keeps_block, prepared_alteration, takes_fresh};
ghost use Rattle.qx_ptree.specs.KeptNodes.{KeepsNode};
ghost use Rattle.qx_ptree.specs.ReadyLeaves.{IsReadyApart, IsWrittenBy, OwnAsLeft, StandIn};
ghost use Rattle.qx_ptree.specs.Takings.{LeavesOthers, Takes};
ghost use Rattle.qx_ptree.specs.Trees.{AreApart, IsNode, IsRegular, IsToldNode, IsWorking, block_map, empty_node, pointer_at};
ghost use Rattle.qx_ptree.specs.WaitingChanges.{IsClearOf, IsWaiting};
ghost use Rattle.qx_ptree.specs.WorkState.{CanCommit, Preparation, blocks_of, committed};

/// The node of nothing can be asked and changed. It meets nothing, so it is apart from every node.
pub fn an_empty_node_is_a_node()
    ensures node { (order : Order) (m : BlockState) → IsBlockSize m.holdings.size → IsNode order m empty_node }
    ensures visits { (m : BlockMap) → visits_of m empty_node ≡ [] }
    ensures apart { (order : Order) (m : BlockState) (node : Root) → AreApart order m empty_node node × AreApart order m node empty_node }
{}

/// A node's positions are those at which something is met, each with its block.
pub fn a_nodes_positions_are_met()
    ensures met { (order : Order) (m : BlockState) (node : Root) (k j : ℕ) → IsToldNode order m node → HasPosition m.holdings.size (shape_in (block_map order m) node) k j
        → Contains (visits_of (block_map order m) node) (record { level = k; index = j; block = pointer_at (block_map order m) node k j }) }
    ensures at { (order : Order) (m : BlockState) (node : Root) (v : Visit) → IsToldNode order m node → Contains (visits_of (block_map order m) node) v
        → HasPosition m.holdings.size (shape_in (block_map order m) node) v.level v.index × (v.block ≡ pointer_at (block_map order m) node v.level v.index) }
{}

/// A leaf that isn't present is 0, also past the size. Where bytes are told, each is as long as a block.
pub fn the_leaves_of_a_node()
    ensures long { (order : Order) (m : BlockState) (node : Root) (i : ℕ) → IsToldNode order m node → IsTrue m.tells
        → length (leaf_bytes (block_map order m) node i) ≡ m.holdings.size }
    ensures hole { (order : Order) (m : BlockState) (node : Root) (i : ℕ) → IsToldNode order m node
        → is_in (present_of (block_map order m) node) i ≡ false → leaf_bytes (block_map order m) node i ≡ replicate m.holdings.size 0 }
{}

/// Where the blocks that a node meets stay, it meets the same, is as regular as it was, and has the same leaves and bytes; and a change makes the same of it, with the same need.
pub fn a_node_stays_with_its_blocks()
    ensures visits { (order : Order) (m n : BlockState) (node : Root) → KeepsNode order m n node → visits_of (block_map order n) node ≡ visits_of (block_map order m) node }
    ensures works { (order : Order) (m n : BlockState) (node : Root) → KeepsNode order m n node → IsWorking order m node → IsWorking order n node }
    ensures regular { (order : Order) (m n : BlockState) (node : Root) → IsConsistent m → KeepsNode order m n node → IsWorking order m node → IsRegular order m node → IsRegular order n node }
    ensures leaves { (order : Order) (m n : BlockState) (node : Root) (i : ℕ) → KeepsNode order m n node → LiesBelow (block_map order m) node i
        → leaf_bytes (block_map order n) node i ≡ leaf_bytes (block_map order m) node i }
    ensures then { (order : Order) (m n o : BlockState) (node : Root) → KeepsNode order m n node → KeepsNode order n o node → KeepsNode order m o node }

    // Where bytes are told.
    ensures told { (order : Order) (m n : BlockState) (node : Root) → IsConsistent n → KeepsNode order m n node → IsToldNode order m node → IsToldNode order n node }
    ensures pointers { (order : Order) (m n : BlockState) (node : Root) (k j : ℕ) → IsConsistent n → KeepsNode order m n node → IsToldNode order m node
        → pointer_at (block_map order n) node k j ≡ pointer_at (block_map order m) node k j }
    ensures alteration { (order : Order) (m n : BlockState) (node : Root) (c : Change) → IsConsistent n → KeepsNode order m n node → IsToldNode order m node
        → alteration_of order n node c ≡ alteration_of order m node c }
    ensures need { (order : Order) (m n : BlockState) (node : Root) (c : Change) → IsConsistent n → KeepsNode order m n node → IsToldNode order m node
        → fresh_count (alteration_of order n node c) ≡ fresh_count (alteration_of order m node c) }
    ensures content { (order : Order) (m n : BlockState) (node : Root) → KeepsNode order m n node → IsToldNode order m node
        → content_of (block_map order n) node ≡ content_of (block_map order m) node }
    ensures piece { (order : Order) (m n : BlockState) (node : Root) (at count : ℕ) → KeepsNode order m n node → IsToldNode order m node → at < node.size
        → piece_of (block_map order n) node at count ≡ piece_of (block_map order m) node at count }
{}

/// They stay where blocks are taken, as for another change, and where only blocks change that the node doesn't meet.
pub fn what_leaves_a_node()
    ensures taken { (order : Order) (fresh : List ℕ) (m n : BlockState) (node : Root) → IsConsistent m → IsWorking order m node → IsTrue n.tells → Takes fresh m n → KeepsNode order m n node }
    ensures others { (order : Order) (changed : List ℕ) (m n : BlockState) (node : Root) → LeavesOthers changed m n
        → ((v : Visit) → Contains (visits_of (block_map order m) node) v → is_in changed v.block ≡ false) → KeepsNode order m n node }

    // Whether bytes are told or not.
    ensures node_taken { (order : Order) (fresh : List ℕ) (m n : BlockState) (node : Root) → IsNode order m node → IsConsistent m → Takes fresh m n
        → IsNode order n node }
    ensures node_others { (order : Order) (changed : List ℕ) (m n : BlockState) (node : Root) → IsNode order m node → IsConsistent m → LeavesOthers changed m n
        → (IsTrue m.tells → (v : Visit) → Contains (visits_of (block_map order m) node) v → is_in changed v.block ≡ false) → IsNode order n node }
{}

/// Nodes that are apart are apart while the blocks of both stay.
pub fn nodes_stay_apart()
    ensures kept { (order : Order) (m n : BlockState) (a b : Root) → KeepsNode order m n a → KeepsNode order m n b → AreApart order m a b
        → AreApart order n a b }
    ensures back { (order : Order) (m : BlockState) (a b : Root) → AreApart order m a b → AreApart order m b a }
{}

/// A change that waits for its commit can be committed after another was prepared, abandoned or committed, if the two are apart.
pub fn what_leaves_a_waiting_change()
    ensures apart { (p q : Preparation) → not (list_any (λ b. is_in (blocks_of q) b) (blocks_of p)) ≡ true → (b : ℕ) → (is_in (blocks_of p) b ≡ true → is_in (blocks_of q) b ≡ false) × (is_in (blocks_of q) b ≡ true → is_in (blocks_of p) b ≡ false) }

    // Whether bytes are told or not.
    ensures own_taken { (fresh : List ℕ) (p : Preparation) (m n : BlockState) → Takes fresh m n → OwnAsLeft p m n }
    ensures own_others { (changed : List ℕ) (p : Preparation) (m n : BlockState) → LeavesOthers changed m n → ((b : ℕ) → is_in (blocks_of p) b ≡ true → is_in changed b ≡ false) → OwnAsLeft p m n }
    ensures own_then { (p : Preparation) (m n o : BlockState) → OwnAsLeft p m n → OwnAsLeft p n o → OwnAsLeft p m o }
    ensures can { (p : Preparation) (m n : BlockState) → OwnAsLeft p m n → CanCommit m p → CanCommit n p }

    // Where they are told.
    ensures held { (order : Order) (old now : BlockState) (p : Preparation) → IsConsistent old → IsWorking order old p.node → Takes p.work.fresh old now → IsPrepared order old now p
        → (b : ℕ) → is_in (blocks_of p) b ≡ true → IsTrue (now.holdings.held b) }
    ensures taken { (order : Order) (fresh : List ℕ) (p : Preparation) (m n : BlockState) → IsConsistent m → IsTrue n.tells → IsWorking order m p.node → ((b : ℕ) → is_in (blocks_of p) b ≡ true → IsTrue (m.holdings.held b)) → Takes fresh m n
        → AsLeft order p m n }
    ensures others { (order : Order) (changed : List ℕ) (p : Preparation) (m n : BlockState) → LeavesOthers changed m n → ((b : ℕ) → is_in (blocks_of p) b ≡ true → is_in changed b ≡ false)
        → ((v : Visit) → Contains (visits_of (block_map order m) p.node) v → is_in changed v.block ≡ false) → AsLeft order p m n }
    ensures then { (order : Order) (p : Preparation) (m n o : BlockState) → AsLeft order p m n → AsLeft order p n o → AsLeft order p m o }
{}

/// The leaves that a committed change wrote stay ready, in the same blocks, while other blocks are taken or changed.
pub fn what_leaves_written_leaves()
    ensures taken { (order : Order) (fresh : List ℕ) (m n : BlockState) (node : Root) (c : Change) (blocks : List ℕ) → Takes fresh m n → IsReadyApart order m node (IsWrittenBy c) → StandIn order m node (IsWrittenBy c) blocks
        → IsReadyApart order n node (IsWrittenBy c) × StandIn order n node (IsWrittenBy c) blocks }
    ensures others { (order : Order) (changed : List ℕ) (m n : BlockState) (node : Root) (c : Change) (blocks : List ℕ) → LeavesOthers changed m n → ((b : ℕ) → is_in blocks b ≡ true → is_in changed b ≡ false)
        → IsReadyApart order m node (IsWrittenBy c) → StandIn order m node (IsWrittenBy c) blocks → IsReadyApart order n node (IsWrittenBy c) × StandIn order n node (IsWrittenBy c) blocks }
{}

/// Calls that take blocks, one after another.
pub fn what_is_taken_in_turn()
    ensures then { (first second : List ℕ) (m n o : BlockState) → Takes first m n → Takes second n o → Takes (first ++ second) m o }
    ensures none { (m n : BlockState) → Keeps m n → Takes [] m n }
{}

/// Changes of blocks, one after another.
pub fn what_is_changed_in_turn()
    ensures then { (first second : List ℕ) (m n o : BlockState) → LeavesOthers first m n → LeavesOthers second n o
        → LeavesOthers (first ++ second) m o }
    ensures more { (changed more : List ℕ) (m n : BlockState) → LeavesOthers changed m n
        → ((b : ℕ) → is_in changed b ≡ true → is_in more b ≡ true) → LeavesOthers more m n }
    ensures clear { (first second : List ℕ) (b : ℕ) → is_in first b ≡ false → is_in second b ≡ false → is_in (first ++ second) b ≡ false }
{}

/// A change that was prepared waits for its commit while blocks are taken and others change; seen from the blocks before all of them as well.
pub fn a_prepared_change_waits()
    ensures begins { (order : Order) (old now : BlockState) (p : Preparation) → IsToldNode order old p.node → IsTrue now.tells → Takes p.work.fresh old now → IsPrepared order old now p
        → IsWaiting order old now p }
    ensures later { (order : Order) (old m n : BlockState) (p : Preparation) → IsWaiting order old m p → AsLeft order p m n → IsWaiting order old n p }
    ensures taken { (order : Order) (fresh : List ℕ) (old m n : BlockState) (p : Preparation) → IsWaiting order old m p → IsConsistent m → IsTrue n.tells → Takes fresh m n
        → IsWaiting order old n p }
    ensures others { (order : Order) (changed : List ℕ) (old m n : BlockState) (p : Preparation) → IsWaiting order old m p → IsClearOf order old p changed → LeavesOthers changed m n
        → IsWaiting order old n p }
    ensures before { (order : Order) (fresh : List ℕ) (old mid now : BlockState) (p : Preparation) → IsToldNode order old p.node → IsConsistent mid → IsTrue mid.tells → Takes fresh old mid → IsWaiting order mid now p
        → IsWaiting order old now p }
    ensures commits { (order : Order) (old now : BlockState) (p : Preparation) → IsWaiting order old now p → Alters order old p (committed now p) }
{}

/// Changes of nodes that are apart have no block in common, and none of another node's. Only where bytes aren't told can `apart` refuse two of them.
pub fn changes_of_apart_nodes_are_apart()
    ensures node { (order : Order) (old now : BlockState) (p : Preparation) (node : Root) (v : Visit) → IsWaiting order old now p → IsWorking order old node → AreApart order old node p.node
        → Contains (visits_of (block_map order old) node) v → is_in (blocks_of p) v.block ≡ false }

    // The second was prepared after the first.
    ensures pair { (order : Order) (old now after : BlockState) (p q : Preparation) → IsWaiting order old now p → IsWaiting order old after q → Takes q.work.fresh now after → AreApart order old p.node q.node
        → IsClearOf order old p (blocks_of q) × IsClearOf order old q (blocks_of p) }

    // So `apart` passes them.
    ensures passes { (order : Order) (old : BlockState) (p q : Preparation) → IsClearOf order old p (blocks_of q) → not (list_any (λ b. is_in (blocks_of q) b) (blocks_of p)) ≡ true }
{}

/// What a change made of its node: each block that is met there is one that it took where the position takes one, and else was met there before.
pub fn what_an_altered_node_meets()
    ensures told { (order : Order) (old now m : BlockState) (p : Preparation) → IsWaiting order old now p → IsConsistent m → Alters order old p m → IsToldNode order m p.root }
    ensures place { (order : Order) (old now m : BlockState) (p : Preparation) (v : Visit) → IsWaiting order old now p → IsConsistent m → Alters order old p m → Contains (visits_of (block_map order m) p.root) v
        → HasPosition old.holdings.size (prepared_alteration order old p).new v.level v.index }
    ensures fresh { (order : Order) (old now m : BlockState) (p : Preparation) (v : Visit) → IsWaiting order old now p → IsConsistent m → Alters order old p m → Contains (visits_of (block_map order m) p.root) v
        → takes_fresh (prepared_alteration order old p) v.level v.index ≡ true → is_in p.work.fresh v.block ≡ true }
    ensures stays { (order : Order) (old now m : BlockState) (p : Preparation) (v : Visit) → IsWaiting order old now p → IsConsistent m → Alters order old p m → Contains (visits_of (block_map order m) p.root) v
        → takes_fresh (prepared_alteration order old p) v.level v.index ≡ false → Contains (visits_of (block_map order old) p.node) v }

    // And each block that the change took, or that a position keeps, is met there. What it gives up is what was met before and is no more.
    ensures takes { (order : Order) (old now m : BlockState) (p : Preparation) (b : ℕ) → IsWaiting order old now p → IsConsistent m → Alters order old p m
        → is_in p.work.fresh b ≡ true
        → (v : Visit) × Contains (visits_of (block_map order m) p.root) v × (v.block ≡ b) × (takes_fresh (prepared_alteration order old p) v.level v.index ≡ true) }
    ensures keeps { (order : Order) (old now m : BlockState) (p : Preparation) (v : Visit) → IsWaiting order old now p → IsConsistent m → Alters order old p m
        → Contains (visits_of (block_map order old) p.node) v
        → keeps_block (prepared_alteration order old p) v.level v.index ≡ true → Contains (visits_of (block_map order m) p.root) v }
    ensures left { (order : Order) (old now m : BlockState) (p : Preparation) (b : ℕ) → IsWaiting order old now p → IsConsistent m → Alters order old p m
        → is_in p.work.released b ≡ true ↔ ((v : Visit) × Contains (visits_of (block_map order old) p.node) v × (v.block ≡ b)
        × ((u : Visit) → Contains (visits_of (block_map order m) p.root) u → ¬ (u.block ≡ b))) }

    // A block that it took is the working tree's alone, and another is so where it was.
    ensures private { (order : Order) (old now m : BlockState) (p : Preparation) (v : Visit) → IsWaiting order old now p → IsConsistent m → Alters order old p m
        → Contains (visits_of (block_map order m) p.root) v
        → takes_fresh (prepared_alteration order old p) v.level v.index ≡ true → IsTrue (m.holdings.private v.block) }
    ensures as_private { (order : Order) (old now m : BlockState) (p : Preparation) (v : Visit) → IsWaiting order old now p → IsConsistent m → Alters order old p m
        → Contains (visits_of (block_map order m) p.root) v
        → takes_fresh (prepared_alteration order old p) v.level v.index ≡ false → m.holdings.private v.block ≡ old.holdings.private v.block }
{}

/// A node that a change altered stays so while others change, and is apart from what it was apart from.
pub fn what_leaves_an_altered_node()
    ensures others { (order : Order) (changed : List ℕ) (old now m n : BlockState) (p : Preparation) → IsWaiting order old now p → IsConsistent m → IsConsistent n → IsClearOf order old p changed → LeavesOthers changed m n
        → Alters order old p m → Alters order old p n }
    ensures clear { (order : Order) (changed : List ℕ) (old now m : BlockState) (p : Preparation) (v : Visit) → IsWaiting order old now p → IsConsistent m → IsClearOf order old p changed → Alters order old p m
        → Contains (visits_of (block_map order m) p.root) v → is_in changed v.block ≡ false }
    ensures node { (order : Order) (old now m : BlockState) (p : Preparation) (node : Root) → IsWaiting order old now p → IsConsistent m → Alters order old p m → IsWorking order old node → KeepsNode order old m node → AreApart order old node p.node
        → AreApart order m node p.root }
    ensures pair { (order : Order) (old now after m : BlockState) (p q : Preparation) → IsWaiting order old now p → IsWaiting order old after q → IsClearOf order old p (blocks_of q) × IsClearOf order old q (blocks_of p) → AreApart order old p.node q.node
        → IsConsistent m → Alters order old p m → Alters order old q m → AreApart order m p.root q.root }
{}

/// What a commit makes of who holds each block: of those that it gives up, the private ones are free, and the others stay held as they are.
pub fn what_a_commit_makes_of_blocks()
    ensures works { (m : BlockState) (p : Preparation) (b : ℕ) → (committed m p).holdings.works b ≡ (m.holdings.works b && not (is_in p.work.released b)) }
    ensures held { (m : BlockState) (p : Preparation) (b : ℕ) → IsConsistent m → (committed m p).holdings.held b ≡ (m.holdings.held b && not (m.holdings.private b && is_in p.work.released b)) }
    ensures private { (m : BlockState) (p : Preparation) (b : ℕ) → IsConsistent m → (committed m p).holdings.private b ≡ (m.holdings.private b && not (is_in p.work.released b)) }
    ensures free { (m : BlockState) (p : Preparation) → IsConsistent m → Distinct p.work.released
        → (committed m p).holdings.free ≡ m.holdings.free + count_by (λ b. m.holdings.private b) p.work.released }
    ensures frees { (m : BlockState) (p : Preparation) (b : ℕ) → IsConsistent m → is_in p.work.released b ≡ true → m.holdings.private b ≡ true
        → (committed m p).holdings.held b ≡ false }

    // No block that another tree holds is written.
    ensures shared { (m : BlockState) (p : Preparation) (b : ℕ) → IsConsistent m → CanCommit m p → m.holdings.private b ≡ false → (committed m p).bytes b ≡ m.bytes b }
{}

//! Laws of what a node's pointers lead to.
ghost use Rattle.std.specs.Prelude.{◌≡◌, ℕ, ◌+◌, ◌*◌, ◌/◌, ◌%◌, ◌<◌, ◌≤◌, List, Contains, None, length, nat_lt, if◌then◌else◌, replicate, slice_range};
ghost use Rattle.qx_geom.specs.declared.root.Root.{Root};
ghost use Rattle.qx_geom.specs.Lists.{Distinct, IsAscending};
ghost use Rattle.qx_geom.specs.Pointer.{per_block};
ghost use Rattle.qx_nodes.specs.BlockMap.{BlockMap, with_bytes};
ghost use Rattle.qx_nodes.specs.Leaves.{Block, leaf_of};
ghost use Rattle.qx_nodes.specs.Visits.{AgreesOn, IsMet, LiesBelow, Visit, present_of, visits_of};
ghost use Rattle.qx_nodes.specs.Content.{Reaches, byte_of, content_of, leaf_bytes, piece_of};
ghost use Rattle.qx_nodes.specs.LongNames.{long_name, name_in};
ghost use Rattle.qx_nodes.specs.NodeContents.{node_content};
ghost use Rattle.qx_records.specs.NameRecord.{long_name_in};

/// What the path to a leaf below the size gives, the walk of the node meets.
pub fn a_leaf_by_its_path_is_met()
    ensures { (m : BlockMap) (node : Root) (i : ℕ) → LiesBelow m node i → IsMet i m.count (leaf_of m node i) (visits_of m node) }
{}

/// What the walk meets at a leaf is what the path to the leaf gives.
pub fn a_leaf_that_is_met_is_on_its_path()
    ensures { (m : BlockMap) (node : Root) (v : Visit) → 0 < per_block m.size → Contains (visits_of m node) v → v.level ≡ 0 → v.block < m.count
        → leaf_of m node v.index ≡ Block v.block }
{}

/// The numbers of a node's present leaves ascend.
pub fn present_leaves_ascend()
    ensures { (m : BlockMap) (node : Root) → 0 < per_block m.size → IsAscending (present_of m node) }
{}

/// A leaf below the size that isn't present reads as 0.
pub fn a_leaf_that_is_not_present_reads_as_zeros()
    ensures { (m : BlockMap) (node : Root) (i : ℕ) → LiesBelow m node i → ¬ (Contains (present_of m node) i)
        → leaf_bytes m node i ≡ replicate m.size 0 }
{}

/// Blocks that agree on what a node meets have it meet the same.
pub fn what_is_met_decides_itself()
    ensures { (m : BlockMap) (bytes : ℕ → List ℕ) (node : Root) → AgreesOn m bytes (visits_of m node)
        → visits_of m node ≡ visits_of (with_bytes m bytes) node }
{}

/// They have the same leaves.
pub fn what_is_met_decides_leaves()
    ensures leaf { (m : BlockMap) (bytes : ℕ → List ℕ) (node : Root) (i : ℕ) → LiesBelow m node i → AgreesOn m bytes (visits_of m node)
        → leaf_of m node i ≡ leaf_of (with_bytes m bytes) node i }
    ensures bytes { (m : BlockMap) (bytes : ℕ → List ℕ) (node : Root) (i : ℕ) → LiesBelow m node i → AgreesOn m bytes (visits_of m node)
        → leaf_bytes m node i ≡ leaf_bytes (with_bytes m bytes) node i }
{}

/// And they have the same bytes.
pub fn what_is_met_decides_content()
    ensures byte { (m : BlockMap) (bytes : ℕ → List ℕ) (node : Root) (k : ℕ) → Reaches m node → k < node.size → AgreesOn m bytes (visits_of m node)
        → byte_of m node k ≡ byte_of (with_bytes m bytes) node k }
    ensures content { (m : BlockMap) (bytes : ℕ → List ℕ) (node : Root) → Reaches m node → AgreesOn m bytes (visits_of m node)
        → content_of m node ≡ content_of (with_bytes m bytes) node }
    ensures piece { (m : BlockMap) (bytes : ℕ → List ℕ) (node : Root) (at count : ℕ) → Reaches m node → at < node.size → AgreesOn m bytes (visits_of m node)
        → piece_of m node at count ≡ piece_of (with_bytes m bytes) node at count }
{}

/// No position is met twice in a node.
pub fn no_position_is_met_twice()
    ensures { (m : BlockMap) (node : Root) → 0 < per_block m.size → Distinct (visits_of m node) }
{}

/// A piece of a node is that part of its content, where the leaf has it all.
pub fn a_piece_is_a_part_of_the_content()
    ensures { (m : BlockMap) (node : Root) (at count : ℕ) → at + count ≤ node.size → at % m.size + count ≤ m.size
        → m.size ≤ length (leaf_bytes m node (at / m.size))
        → piece_of m node at count ≡ slice_range (content_of m node) at (at + count) }
{}

/// A long name is what the bytes of its leaf say, bytes 0 for a hole, as far as the Longfile goes.
pub fn a_name_is_what_its_leaf_says()
    ensures { (m : BlockMap) (longfile : Root) (n : ℕ)
        → long_name m longfile n ≡ (if nat_lt (n * m.size) longfile.size then long_name_in m.order (leaf_bytes m longfile n) else None) }
{}

/// And it is what the Longfile's content says, where the levels reach its size.
pub fn a_long_name_is_read_by_its_content()
    ensures { (m : BlockMap) (longfile : Root) (n : ℕ) → Reaches m longfile → name_in m.order m.size (node_content m longfile) n ≡ long_name m longfile n }
{}

//! Three files that are written together, or none of them, and then read.
ghost use Rattle.std.specs.Prelude.{◌≡◌, ◌<◌, ℕ, true, List, [], ◌∷◌, length, Some, IfOk, IsTrue, Contains};
ghost use Rattle.qx_blocks.specs.BlockState.{IsBlockSize};
ghost use Rattle.qx_ptree.specs.Fates.{is_written};
ghost use Rattle.qx_ptree.specs.Trees.{IsNode};
ghost use Rattle.qx_file.specs.FilePlans.{write_change};
ghost use Rattle.qx_file.specs.Puts.{CanPut, HasByte, Puts};
ghost use Rattle.qx_batch.specs.declared.batch.Waiting.{Waiting};
ghost use Rattle.qx_batch.specs.Batches.{AreCommitted, ArePairsApart};
ghost use Rattle.qx_batch.specs.Nodes.{AreLaid, Nodes};
ghost use Rattle.qx_batch.specs.PutNodes.{ArePut};
ghost use Rattle.block_tests.specs.WrittenFiles.{AreWritten, HaveLevels, IsWrite, all_are, files_of};

use qx_batch::{
    Fitting, Planned, Waiting, a_put_changes_one_node, prepare_fitting,
    what_is_put_leaves_what_is_ready,
};
use qx_blocks::{Blocks, MemBlocks, Stop};
use qx_fields::Order;
use qx_file::{a_planned_write_writes_its_leaves, plan_write, put, read};
use qx_geom::{ABSENT, Root};
use qx_ptree::an_empty_node_is_a_node;
use std::alloc::Global;
use std::test::Fail;

// The nodes of three files.
#[derive(Clone, Copy)]
struct Three {
    first: Root,
    second: Root,
    third: Root,
}

// Three files of nothing.
fn empty_files<B: Blocks>(blocks: &B, order: Order) -> Three
    ensures first { IsNode order (B.state blocks.now) result.first }
    ensures second { result.second ≡ result.first }
    ensures third { result.third ≡ result.first }
    ensures laid { IsTrue (B.state blocks.now).tells → AreLaid order (B.state blocks.now) (all_are result.first) }
{
    an_empty_node_is_a_node();
    // Only this says that the blocks are consistent.
    let _ = blocks.size();
    let empty = Root {
        size: 0,
        pointers: [ABSENT; 16],
        levels: 0,
    };
    Three {
        first: empty,
        second: empty,
        third: empty,
    }
}

// A write of bytes, not none, into the file of a number, from a place on.
fn planned_write(owner: u32, node: Root, at: u64, count: u64, size: usize) -> Result<Planned, Stop>
    requires some { 0 < count }
    requires size { IsBlockSize size }
    ensures owner { IfOk result (λ p. p.owner ≡ owner) }
    ensures node { IfOk result (λ p. p.node ≡ node) }
    ensures change { IfOk result (λ p. p.change ≡ write_change node at count size) }
    ensures writes { IfOk result (λ p. IsWrite size p at count) }
{
    a_planned_write_writes_its_leaves();
    match plan_write(&node, at, count, size as u32) {
        Ok(change) => Ok(Planned::new(owner, node, change)),
        Err(_) => Err(Stop::NoMemory),
    }
}

// The nodes that three changes make.
fn new_nodes(waiting: &[Waiting]) -> Three
    requires three { length waiting.now ≡ 3 }
    ensures first { (a b c : Waiting) → waiting.now ≡ a ∷ b ∷ c ∷ [] → result.first ≡ a.prep.root }
    ensures second { (a b c : Waiting) → waiting.now ≡ a ∷ b ∷ c ∷ [] → result.second ≡ b.prep.root }
    ensures third { (a b c : Waiting) → waiting.now ≡ a ∷ b ∷ c ∷ [] → result.third ≡ c.prep.root }
{
    Three {
        first: waiting[0].prep.root(),
        second: waiting[1].prep.root(),
        third: waiting[2].prep.root(),
    }
}

// Puts bytes into a node of a batch that was committed. What other changes of the batch wrote stays ready, and where bytes are told, every other node is as it was.
fn put_one<B: Blocks>(root: &Root, blocks: &mut B, order: Order, at: u64, bytes: &[u8])
    requires { CanPut order (B.state blocks.old) root.now at (length bytes.now) }
    ensures puts { Puts order root.now at bytes.now (B.state blocks.old) (B.state blocks.new) }
    ensures ready { (ws : List Waiting) (w : Waiting) → ArePairsApart ws → AreCommitted order (B.state blocks.old) ws → Contains ws w → root.now ≡ w.prep.root
        → ((i : ℕ) → HasByte (B.state blocks.old).holdings.size at (length bytes.now) i → is_written w.plan.change i ≡ true) → AreCommitted order (B.state blocks.new) ws }
    ensures nodes { (nodes : Nodes) (owner : ℕ) → AreLaid order (B.state blocks.old) nodes → nodes owner ≡ Some root.now
        → ArePut order nodes (B.state blocks.old) (B.state blocks.new) owner at bytes.now }
{
    what_is_put_leaves_what_is_ready();
    a_put_changes_one_node();
    put(root, blocks, order, at, bytes);
}

// Writes the same bytes, not none, into three files, into each from a place of its own on, or into none of them. Answers their nodes.
fn write_three<B: Blocks>(
    alloc: Global,
    blocks: &mut B,
    order: Order,
    files: &Three,
    places: &[u64; 3],
    bytes: &[u8],
) -> Result<Three, Stop>
    requires first { IsNode order (B.state blocks.old) files.now.first }
    requires second { IsNode order (B.state blocks.old) files.now.second }
    requires third { IsNode order (B.state blocks.old) files.now.third }
    requires some { 0 < length bytes.now }
    ensures written { IfOk result (λ roots. (nodes : Nodes) → IsTrue (B.state blocks.new).tells
        → AreLaid order (B.state blocks.old) nodes → nodes 0 ≡ Some files.now.first → nodes 1 ≡ Some files.now.second → nodes 2 ≡ Some files.now.third
        → AreWritten order (B.state blocks.old) (B.state blocks.new) nodes (files_of files.now.first files.now.second files.now.third)
        (files_of roots.first roots.second roots.third) places.now bytes.now) }
    ensures told { IfOk result (λ roots. IsTrue (B.state blocks.new).tells → IsTrue (B.state blocks.old).tells) }
    ensures levels { IfOk result (λ roots. HaveLevels (B.state blocks.new).holdings.size (files_of roots.first roots.second roots.third)) }
{
    let size = blocks.size();
    let count = bytes.len() as u64;
    let planned = [
        planned_write(0, files.first, places[0], count, size)?,
        planned_write(1, files.second, places[1], count, size)?,
        planned_write(2, files.third, places[2], count, size)?,
    ];
    let batch = match prepare_fitting(alloc, blocks, order, &planned, false)? {
        Fitting::Prepared(batch) => batch,
        Fitting::NoSpace { .. } => return Err(Stop::NoMemory),
    };
    let roots = new_nodes(batch.waiting());
    batch.commit(blocks);
    put_one(&roots.first, blocks, order, places[0], bytes);
    put_one(&roots.second, blocks, order, places[1], bytes);
    put_one(&roots.third, blocks, order, places[2], bytes);
    Ok(roots)
}

// What is read of three new files once bytes were written into each from a place of its own on: four bytes of each from the place on.
fn read_three<B: Blocks>(
    alloc: Global,
    blocks: &mut B,
    order: Order,
    places: &[u64; 3],
    bytes: &[u8],
    into: &mut [[u8; 4]; 3],
) -> Result<(), Stop>
    requires some { 0 < length bytes.now }
{
    let files = empty_files(blocks, order);
    let roots = write_three(alloc, blocks, order, &files, places, bytes)?;
    read(&roots.first, blocks, order, places[0], &mut into[0])?;
    read(&roots.second, blocks, order, places[1], &mut into[1])?;
    read(&roots.third, blocks, order, places[2], &mut into[2])?;
    Ok(())
}

#[test]
fn three_files_are_written_at_once(rt: HostRuntime) -> Result<(), Fail> {
    for order in [Order::Little, Order::Big] {
        let mut blocks = MemBlocks::new(rt.alloc(), 512, 64)?;
        let mut into = [[7; 4]; 3];
        let places = [0, 510, 100_000];
        read_three(rt.alloc(), &mut blocks, order, &places, b"xyz", &mut into)?;
        assert_eq!(rt; into, [[b'x', b'y', b'z', 7]; 3]);
    }
    Ok(())
}

#[test]
fn where_one_of_three_finds_no_room_none_is_written(rt: HostRuntime) -> Result<(), Fail> {
    // 1 leaf, 2 leaves, and 1 leaf below a pointer block are 5 blocks; 16 more have to stay free.
    for (count, fits, free) in [(20, false, 20), (21, true, 16)] {
        let mut blocks = MemBlocks::new(rt.alloc(), 512, count)?;
        let mut into = [[7; 4]; 3];
        let places = [0, 510, 100_000];
        let written = read_three(
            rt.alloc(),
            &mut blocks,
            Order::Little,
            &places,
            b"xyz",
            &mut into,
        );
        assert_eq!(rt; written.is_ok(), fits, "{count}");
        assert_eq!(rt; blocks.free(), free, "{count}");
    }
    Ok(())
}

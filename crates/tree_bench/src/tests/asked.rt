//! Nodes that are made step by step, and what is asked of them.
ghost use Rattle.std.specs.Prelude.{◌≡◌, ◌≤◌, ◌*◌, ◌^◌, IfOk, IsTrue};
ghost use Rattle.qx_blocks.specs.Calls.{Keeps};
ghost use Rattle.qx_ptree.specs.Trees.{IsNode};

use crate::changes::{Refusal, change_node};
use crate::repeats::call_once;
use crate::words::Call;
use qx_blocks::{Blocks, Stop};
use qx_fields::Order;
use qx_file::{plan_write, put, read};
use qx_geom::Root;
use qx_long::{first_absent, get};
use qx_ptree::Change;
use std::alloc::Global;

// What makes a node.
#[derive(Clone, Copy)]
pub enum Step {
    // A change.
    Make(Change),
    // Bytes from a place on.
    Write(u64, &'static [u8]),
}

// What is asked of a node.
#[derive(Clone, Copy)]
pub enum Question {
    // The need of a change, with what the call does to the node.
    Need(Call, Change),
    // So many bytes from a place on.
    Bytes(u64, usize),
    // The long name of a number.
    Name(u32),
    // The least number without a leaf.
    Absent,
}

// The first byte and the length of a long name.
#[derive(Clone, Copy, Debug, PartialEq, Eq)]
pub struct Name {
    pub first: u8,
    pub length: usize,
}

// The first four bytes, the last two, and the sum of all.
#[derive(Clone, Copy, Debug, PartialEq, Eq)]
pub struct Excerpt {
    pub first: [u8; 4],
    pub last: [u8; 2],
    pub sum: u64,
}

// What is answered.
#[derive(Clone, Copy, Debug, PartialEq, Eq)]
pub enum Answer {
    Need(u64),
    Bytes(Option<Excerpt>),
    Name(Option<Name>),
    Absent(u32),
}

// Makes a node by these steps of an empty one, or as far as they go.
pub fn make<B: Blocks>(
    alloc: Global,
    node: &mut Root,
    blocks: &mut B,
    order: Order,
    steps: &[Step],
) -> Result<(), Refusal>
    requires { IsNode order (B.state blocks.old) node.old }
    ensures node { IsNode order (B.state blocks.new) node.new }
    ensures aside { (B.beside blocks.new).aside ≡ (B.beside blocks.old).aside }
{
    for step in steps {
        take_step(alloc, node, blocks, order, step)?;
    }
    Ok(())
}

// One step.
fn take_step<B: Blocks>(
    alloc: Global,
    node: &mut Root,
    blocks: &mut B,
    order: Order,
    step: &Step,
) -> Result<(), Refusal>
    requires { IsNode order (B.state blocks.old) node.old }
    ensures node { IsNode order (B.state blocks.new) node.new }
    ensures aside { (B.beside blocks.new).aside ≡ (B.beside blocks.old).aside }
{
    match step {
        Step::Make(change) => {
            change_node(alloc, node, blocks, order, change)?;
            Ok(())
        }
        Step::Write(at, bytes) => write(alloc, node, blocks, order, *at, bytes),
    }
}

// Writes bytes from a place on.
fn write<B: Blocks>(
    alloc: Global,
    node: &mut Root,
    blocks: &mut B,
    order: Order,
    at: u64,
    bytes: &[u8],
) -> Result<(), Refusal>
    requires { IsNode order (B.state blocks.old) node.old }
    ensures node { IsNode order (B.state blocks.new) node.new }
    ensures aside { (B.beside blocks.new).aside ≡ (B.beside blocks.old).aside }
{
    if bytes.is_empty() {
        return Ok(());
    }
    let blocksize = blocks.size() as u32;
    let Ok(change) = plan_write(node, at, bytes.len() as u64, blocksize) else {
        return Err(Refusal::Unfit);
    };
    change_node(alloc, node, blocks, order, &change)?;
    // Only this says that the blocks are consistent.
    let _size = blocks.size();
    put(node, blocks, order, at, bytes);
    Ok(())
}

// Asks a node.
pub fn ask<B: Blocks>(
    alloc: Global,
    node: &mut Root,
    blocks: &mut B,
    order: Order,
    question: &Question,
) -> Result<Answer, Refusal>
    requires { IsNode order (B.state blocks.old) node.old }
    ensures { IsNode order (B.state blocks.new) node.new }
{
    match question {
        Question::Need(call, change) => {
            let need = call_once(alloc, *call, node, blocks, order, change)?;
            Ok(Answer::Need(need))
        }
        Question::Bytes(at, count) => {
            let excerpt = excerpt_at(alloc, node, blocks, order, *at, *count)?;
            Ok(Answer::Bytes(excerpt))
        }
        Question::Name(number) => Ok(Answer::Name(name_of(node, blocks, order, *number)?)),
        Question::Absent => Ok(Answer::Absent(absent_number(node, blocks, order)?)),
    }
}

// What is read of so many bytes from a place on.
fn excerpt_at<B: Blocks>(
    alloc: Global,
    node: &Root,
    blocks: &mut B,
    order: Order,
    at: u64,
    count: usize,
) -> Result<Option<Excerpt>, Stop>
    requires { IsNode order (B.state blocks.old) node.now }
    ensures { IsNode order (B.state blocks.new) node.now }
{
    let mut into = vec![in alloc; 7; count]?;
    let read = read(node, blocks, order, at, &mut into)?;
    Ok(excerpt_of(&into[..read]))
}

// An excerpt of bytes that are enough for one.
fn excerpt_of(bytes: &[u8]) -> Option<Excerpt> {
    match bytes {
        [a, b, c, d, .., y, z] => Some(Excerpt {
            first: [*a, *b, *c, *d],
            last: [*y, *z],
            sum: sum_of(bytes),
        }),
        _ => None,
    }
}

// The sum of bytes.
fn sum_of(bytes: &[u8]) -> u64 {
    bytes
        .iter()
        .fold(0u64, |sum, byte| sum.wrapping_add(u64::from(*byte)))
}

// The long name of a number.
fn name_of<B: Blocks>(
    long: &Root,
    blocks: &mut B,
    order: Order,
    number: u32,
) -> Result<Option<Name>, Stop>
    requires { IsNode order (B.state blocks.old) long.now }
    ensures { IsNode order (B.state blocks.new) long.now }
{
    match get(blocks, long, order, number)? {
        Some(name) => Ok(Some(Name {
            first: name[0],
            length: name.len(),
        })),
        None => Ok(None),
    }
}

// The least number without a leaf, in a node of at most 2^31 leaves.
fn absent_number<B: Blocks>(long: &Root, blocks: &mut B, order: Order) -> Result<u32, Refusal>
    requires { IsNode order (B.state blocks.old) long.now }
    ensures { IsNode order (B.state blocks.new) long.now }
{
    if long.size.div_ceil(blocks.size() as u64) > 1 << 31 {
        return Err(Refusal::Unfit);
    }
    Ok(first_absent(long, blocks, order)?)
}

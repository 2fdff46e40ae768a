//! What the links are that a walk meets.
ghost use Rattle.std.specs.Prelude.{◌≡◌, ◌++◌, ◌∷◌, ℕ, List, IfErr, IfOk, IsTrue, replicate};
ghost use Rattle.qx_path.specs.Names.{names_in};
ghost use Rattle.qx_model.specs.Paths.{parsed};
ghost use Rattle.qx_model.specs.Tree.{Tree};
ghost use Rattle.qx_working.specs.Standing.{IsReadable, StandsForTree};
ghost use Rattle.qx_resolve.specs.Answers.{IsLinkTo, IsStopped};
ghost use Rattle.qx_resolve.specs.Looks.{OnlyLooks};
ghost use Rattle.qx_resolve.specs.Turns.{Follows};

use crate::leads::refusal_of;
use crate::parsing::parse;
use qx_blocks::Blocks;
use qx_file::{read, what_is_read_is_the_content};
use qx_model::Refusal;
use qx_path::names_of_joined_bytes;
use qx_working::Working;
use std::alloc::{AllocError, Global};

// The most bytes of a link's target, which is a path.
const MAX_TARGET: u64 = 1023;

/// The target of a link. A size that no target has answers BadPath, without a read.
pub fn read_link<B: Blocks>(
    alloc: Global,
    state: &Working,
    blocks: &mut B,
    link: u32,
) -> Result<Vec<u8>, Refusal>
    requires readable { IsReadable (B.state blocks.old) state.now }
    ensures target { IfOk result (λ bytes. IsTrue (B.state blocks.new).tells → (t : Tree) → StandsForTree (B.state blocks.old) state.now t → (target : List ℕ) → IsLinkTo t link target
        → bytes.items ≡ target) }
    ensures stopped { IfErr result (λ refusal. IsTrue (B.state blocks.new).tells → (t : Tree) → StandsForTree (B.state blocks.old) state.now t → (target : List ℕ) → IsLinkTo t link target
        → IsStopped refusal) }

    ensures looks { OnlyLooks B.state B.beside blocks.old blocks.new result }
{
    let Some(node) = state.node(link) else {
        return Err(Refusal::BadPath);
    };
    if node.size == 0 || node.size > MAX_TARGET {
        return Err(Refusal::BadPath);
    }
    let Ok(mut target) = zeros(alloc, node.size as usize) else {
        return Err(Refusal::NoMemory);
    };
    what_is_read_is_the_content();
    match read(&node, blocks, state.order, 0, &mut target) {
        Ok(_) => Ok(target),
        Err(stop) => Err(refusal_of(stop)),
    }
}

// So many bytes 0.
fn zeros(alloc: Global, count: usize) -> Result<Vec<u8>, AllocError>
    ensures { IfOk result (λ bytes. bytes.items ≡ replicate count 0) }
{
    Ok(vec![in alloc; 0; count]?)
}

/// Where a walk goes on behind a link: from an inode, by the names in these bytes.
#[derive(Drop)]
pub(crate) struct Onward {
    pub at: u32,
    pub bytes: Vec<u8>,
}

/// Goes on through the target of a link that was met in a directory, and by the names in the bytes behind it.
pub(crate) fn follow_link<B: Blocks>(
    alloc: Global,
    state: &Working,
    blocks: &mut B,
    directory: u32,
    link: u32,
    rest: &[u8],
) -> Result<Onward, Refusal>
    requires readable { IsReadable (B.state blocks.old) state.now }
    ensures follows { IsTrue (B.state blocks.new).tells → (t : Tree) → StandsForTree (B.state blocks.old) state.now t → (target : List ℕ) → IsLinkTo t link target
        → Follows directory (names_in rest.now) result (parsed target) }

    ensures looks { OnlyLooks B.state B.beside blocks.old blocks.new result }
{
    let target = read_link(alloc, state, blocks, link)?;
    let path = parse(&target)?;
    let at = if path.absolute() { 1 } else { directory };
    match joined(alloc, &target, rest) {
        Ok(bytes) => Ok(Onward { at, bytes }),
        Err(_) => Err(Refusal::NoMemory),
    }
}

// Bytes with a slash between them.
fn joined(alloc: Global, front: &[u8], behind: &[u8]) -> Result<Vec<u8>, AllocError>
    ensures bytes { IfOk result (λ bytes. bytes.items ≡ front.now ++ 47 ∷ behind.now) }
    ensures names { IfOk result (λ bytes. names_in bytes.items ≡ names_in front.now ++ names_in behind.now) }
{
    names_of_joined_bytes();
    let mut bytes = Vec::from_slice(alloc, front)?;
    bytes.push(b'/')?;
    bytes.extend_from_slice(behind)?;
    Ok(bytes)
}

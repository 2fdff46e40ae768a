//! A walk that follows links, so many at most.
ghost use Rattle.std.specs.Prelude.{◌≡◌, ◌<◌, ℕ, suc, IsTrue};
ghost use Rattle.qx_path.specs.Names.{names_in};
ghost use Rattle.qx_model.specs.Paths.{links_allowed, walk};
ghost use Rattle.qx_model.specs.Tree.{Tree};
ghost use Rattle.qx_working.specs.Standing.{IsReadable, StandsForTree};
ghost use Rattle.qx_resolve.specs.Answers.{Answers, last_of};
ghost use Rattle.qx_resolve.specs.Looks.{OnlyLooks};
ghost use Rattle.qx_resolve.specs.Turns.{Turns, walk_within};

use crate::LastLink;
use crate::links::{Onward, follow_link};
use crate::walking::{Walked, walk_names};
use qx_blocks::Blocks;
use qx_model::Refusal;
use qx_working::Working;
use std::alloc::Global;

/// The links that one walk may follow (this project's own bound).
const LINKS_ALLOWED: u32 = 16;

/// How a walk stands where a link may still be followed: it has ended at an inode, or goes on behind a link.
#[derive(Drop)]
pub(crate) enum Turn {
    Ends(u32),
    Goes(Onward),
}

// Walks up to a link and through it.
fn walk_on<B: Blocks>(
    alloc: Global,
    state: &Working,
    blocks: &mut B,
    from: u32,
    bytes: &[u8],
    last: LastLink,
) -> Result<Turn, Refusal>
    requires readable { IsReadable (B.state blocks.old) state.now }
    ensures turns { IsTrue (B.state blocks.new).tells → (t : Tree) → StandsForTree (B.state blocks.old) state.now t → (links : ℕ)
        → Turns t (last_of last) links result (walk (suc links) t (last_of last) from (names_in bytes.now)) }

    ensures looks { OnlyLooks B.state B.beside blocks.old blocks.new result }
{
    match walk_names(state, blocks, from, bytes, last)? {
        Walked::At(n) => Ok(Turn::Ends(n)),
        Walked::Link {
            directory,
            link,
            rest,
        } => Ok(Turn::Goes(follow_link(alloc, state, blocks, directory, link, rest)?)),
    }
}

/// The inode at which the names in some bytes end that begin at an inode. The 17th link is refused before its target is read.
pub(crate) fn walk<B: Blocks>(
    alloc: Global,
    state: &Working,
    blocks: &mut B,
    from: u32,
    bytes: &[u8],
    last: LastLink,
) -> Result<u32, Refusal>
    requires readable { IsReadable (B.state blocks.old) state.now }
    ensures walked { IsTrue (B.state blocks.new).tells → (t : Tree) → StandsForTree (B.state blocks.old) state.now t
        → Answers result (walk_within links_allowed t (last_of last) from (names_in bytes.now)) }

    ensures looks { OnlyLooks B.state B.beside blocks.old blocks.new result }
{
    match walk_on(alloc, state, blocks, from, bytes, last)? {
        Turn::Ends(n) => Ok(n),
        Turn::Goes(next) => walk_through(alloc, state, blocks, next, last),
    }
}

// The same where one link was followed.
fn walk_through<B: Blocks>(
    alloc: Global,
    state: &Working,
    blocks: &mut B,
    first: Onward,
    last: LastLink,
) -> Result<u32, Refusal>
    requires readable { IsReadable (B.state blocks.old) state.now }
    ensures walked { IsTrue (B.state blocks.new).tells → (t : Tree) → StandsForTree (B.state blocks.old) state.now t
        → Answers result (walk_within 15 t (last_of last) first.at (names_in first.bytes.items)) }

    ensures looks { OnlyLooks B.state B.beside blocks.old blocks.new result }
{
    let mut next = first;
    for followed in 1..LINKS_ALLOWED {
        match walk_on(alloc, state, blocks, next.at, &next.bytes, last)? {
            Turn::Ends(n) => return Ok(n),
            Turn::Goes(further) => next = further,
        }
    }
    match walk_names(state, blocks, next.at, &next.bytes, last)? {
        Walked::At(n) => Ok(n),
        Walked::Link { .. } => Err(Refusal::LinkLoop),
    }
}

//! The inode to which a path leads, and the place that it names.
ghost use Rattle.std.specs.Prelude.{◌≡◌, IfErr, IsTrue};
ghost use Rattle.qx_path.specs.PathParts.{PathParts};
ghost use Rattle.qx_blocks.specs.BlockState.{BlockState};
ghost use Rattle.qx_model.specs.declared.refusal.Refusal.TheVariants.{NoEntry, NotDir};
ghost use Rattle.qx_model.specs.Paths.{inode_at, parent_at, place_at, start_of_walk};
ghost use Rattle.qx_model.specs.Tree.{Tree};
ghost use Rattle.qx_working.specs.Standing.{IsReadable, IsToldState, StandsForTree};
ghost use Rattle.qx_resolve.specs.Answers.{Answers, last_of};
ghost use Rattle.qx_resolve.specs.Looks.{OnlyLooks};
ghost use Rattle.qx_resolve.specs.Places.{AnswersPlace, directory_led_to, if_directory};

use crate::following::walk;
use crate::parsing::parse;
use crate::{LastLink, Named};
use qx_blocks::Blocks;
use qx_lookup::live_inode;
use qx_model::Refusal;
use qx_records::Kind;
use qx_working::Working;
use std::alloc::Global;

/// The inode to which a path leads, from the root or from a directory, where there is one.
pub fn inode_at<B: Blocks>(
    alloc: Global,
    state: &Working,
    blocks: &mut B,
    base: Option<u32>,
    bytes: &[u8],
    last: LastLink,
) -> Result<u32, Refusal>
    requires readable { IsReadable (B.state blocks.old) state.now }
    ensures led { IsTrue (B.state blocks.new).tells → (t : Tree) → StandsForTree (B.state blocks.old) state.now t → Answers result (inode_at t base (last_of last) bytes.now) }

    ensures looks { OnlyLooks B.state B.beside blocks.old blocks.new result }
{
    let path = parse(bytes)?;
    let from = start(path.absolute(), base)?;
    walk(alloc, state, blocks, from, path.components().rest(), last)
}

/// The directory to which a path leads.
pub fn directory<B: Blocks>(
    alloc: Global,
    state: &Working,
    blocks: &mut B,
    base: Option<u32>,
    bytes: &[u8],
) -> Result<u32, Refusal>
    requires readable { IsReadable (B.state blocks.old) state.now }
    ensures led { IsTrue (B.state blocks.new).tells → (t : Tree) → StandsForTree (B.state blocks.old) state.now t → Answers result (directory_led_to t base bytes.now) }

    ensures looks { OnlyLooks B.state B.beside blocks.old blocks.new result }
{
    let n = inode_at(alloc, state, blocks, base, bytes, LastLink::Followed)?;
    only_directory(state, n)
}

/// The directory in which the name at the end of a path stands, all links before it followed.
pub fn parent_at<B: Blocks>(
    alloc: Global,
    state: &Working,
    blocks: &mut B,
    base: Option<u32>,
    named: &Named<'_>,
) -> Result<u32, Refusal>
    requires readable { IsReadable (B.state blocks.old) state.now }
    ensures led { IsTrue (B.state blocks.new).tells → (t : Tree) → StandsForTree (B.state blocks.old) state.now t → Answers result (parent_at t base named.now) }

    ensures looks { OnlyLooks B.state B.beside blocks.old blocks.new result }
{
    let from = start(named.absolute(), base)?;
    let d = walk(
        alloc,
        state,
        blocks,
        from,
        named.parents(),
        LastLink::Followed,
    )?;
    only_directory(state, d)
}

/// A place for a name: its directory, and the name.
#[derive(Clone, Copy, Debug, PartialEq, Eq)]
pub struct Place<'a> {
    pub directory: u32,
    pub name: &'a [u8],
}

/// The place that a path names; the name is lent from the path's bytes.
pub fn place_at<'a, B: Blocks>(
    alloc: Global,
    state: &Working,
    blocks: &mut B,
    base: Option<u32>,
    bytes: &'a [u8],
) -> Result<Place<'a>, Refusal>
    requires readable { IsReadable (B.state blocks.old) state.now }
    ensures place { IsTrue (B.state blocks.new).tells → (t : Tree) → StandsForTree (B.state blocks.old) state.now t → AnswersPlace result (place_at t base bytes.now) }

    ensures looks { OnlyLooks B.state B.beside blocks.old blocks.new result }
{
    let path = parse(bytes)?;
    let named = Named::of(&path)?;
    let directory = parent_at(alloc, state, blocks, base, &named)?;
    Ok(Place {
        directory,
        name: named.name(),
    })
}

// Where a walk begins: at the root, or in a directory, where there is one.
fn start(absolute: bool, base: Option<u32>) -> Result<u32, Refusal>
    ensures begins { (p : PathParts) → p.absolute ≡ absolute → result ≡ start_of_walk p base }
    ensures refused { IfErr result (λ refusal. refusal ≡ NoEntry) }
{
    match base {
        Some(n) => Ok(if absolute { 1 } else { n }),
        None => {
            if absolute {
                Ok(1)
            } else {
                Err(Refusal::NoEntry)
            }
        }
    }
}

// An inode that has to be a directory.
fn only_directory(state: &Working, n: u32) -> Result<u32, Refusal>
    ensures directory { (m : BlockState) (t : Tree) → IsToldState m state.now t → result ≡ if_directory t n }
    ensures refused { IfErr result (λ refusal. refusal ≡ NotDir) }
{
    let Some(inode) = live_inode(state, n) else {
        return Err(Refusal::NotDir);
    };
    match Kind::of(inode.mode) {
        Some(Kind::Directory) => Ok(n),
        _ => Err(Refusal::NotDir),
    }
}

//! The names of a path one after another, up to a link that is followed.
ghost use Rattle.std.specs.Prelude.{◌≡◌, IsTrue};
ghost use Rattle.qx_path.specs.Names.{names_in};
ghost use Rattle.qx_path.specs.NamesLeft.{names_left};
ghost use Rattle.qx_model.specs.Paths.{Jump, is_followed, walk_by};
ghost use Rattle.qx_model.specs.Tree.{Tree};
ghost use Rattle.qx_working.specs.Standing.{IsReadable, StandsForTree};
ghost use Rattle.qx_resolve.specs.Answers.{last_of};
ghost use Rattle.qx_resolve.specs.Looks.{OnlyLooks};
ghost use Rattle.qx_resolve.specs.Walks.{Walks};

use crate::LastLink;
use crate::leads::{Lead, name_leads};
use qx_blocks::Blocks;
use qx_model::Refusal;
use qx_path::Components;
use qx_working::Working;

/// Where names end: at an inode, or before a link that is followed, in a directory and with the bytes of the names behind it.
#[derive(Clone, Copy, Debug, PartialEq, Eq)]
pub(crate) enum Walked<'a> {
    At(u32),
    Link {
        directory: u32,
        link: u32,
        rest: &'a [u8],
    },
}

/// Walks along the names in some bytes, from an inode on, up to the first link that is followed.
pub(crate) fn walk_names<'a, B: Blocks>(
    state: &Working,
    blocks: &mut B,
    from: u32,
    bytes: &'a [u8],
    last: LastLink,
) -> Result<Walked<'a>, Refusal>
    requires readable { IsReadable (B.state blocks.old) state.now }
    ensures walked { IsTrue (B.state blocks.new).tells → (t : Tree) → StandsForTree (B.state blocks.old) state.now t → (jump : Jump)
        → Walks t jump result (walk_by t (last_of last) jump from (names_in bytes.now)) }

    ensures looks { OnlyLooks B.state B.beside blocks.old blocks.new result }
{
    let mut names = Components::new(bytes);
    let mut at = from;
    while let Some(name) = names.next() {
        let follows = is_followed(last, &names);
        match name_leads(state, blocks, at, name, follows)? {
            Lead::To(n) => at = n,
            Lead::Through(link) => {
                return Ok(Walked::Link {
                    directory: at,
                    link,
                    rest: names.rest(),
                });
            }
        }
    }
    Ok(Walked::At(at))
}

// Whether a link is followed that has these names behind it.
fn is_followed(last: LastLink, behind: &Components<'_>) -> bool
    ensures { result ≡ is_followed (last_of last) (names_left behind.now) }
{
    match last {
        LastLink::Followed => true,
        LastLink::Itself => !behind.is_empty(),
    }
}

//! The pointers below a node, or below a block of it.
ghost use Rattle.std.specs.Prelude.{◌≡◌, ◌≢◌, ◌<◌, ◌≤◌, ◌+◌, ◌*◌, ◌^◌, ◌∷◌, ◌++◌, [], All, Err, IfErr, IfOk, IfSome, OnErr, OnOk, length, nat_lt};
ghost use Rattle.qx_blockset.specs.Members.{count_of, limit_of};
ghost use Rattle.qx_geom.specs.Pointer.{per_block};
ghost use Rattle.qx_nodes.specs.BlockMap.{BlockMap};
ghost use Rattle.qx_nodes.specs.Visits.{visits_under};
ghost use Rattle.qx_nodes.specs.ForeignNodes.{is_stray_under};
ghost use Rattle.qx_view.specs.declared.findings.Code.TheVariants as codes;
ghost use Rattle.qx_view.specs.Walk.{Test, Tested, Met};
ghost use Rattle.qx_pointers.specs.declared.halt.Halt.TheVariants as halts;
ghost use Rattle.qx_pointers.specs.Marks.{Follows, GoesThrough};
ghost use Rattle.qx_pointers.specs.Parts.{IsLeafOf, has_bare_under, kept_leaves, leaf_at, leaf_part};
ghost use Rattle.qx_pointers.specs.Passage.{Sees, bare_beside, strays_beside, visits_beside};
ghost use Rattle.qx_pointers.specs.Shown.{Fits, Shows};

use crate::reading::read_pointers;
use crate::{Halt, LeafPlace, Part, Visitor};
use qx_blockset::BlockSet;
use qx_geom::ABSENT;
use qx_outside::Dev;
use qx_view::{Code, Finding};

/// Where a pointer leads: to block `index` of a level.
#[derive(Clone, Copy)]
pub(crate) struct Position {
    // The leaves are level 0.
    pub(crate) level: u8,
    // How many leaves a block of this level reaches.
    pub(crate) span: u64,
    pub(crate) index: u64,
}

/// Goes through the tests at pointers that stand side by side, and below them.
#[cycle(pointers)]
pub(crate) fn visit_each<D: Dev>(
    host: &mut D,
    visitor: &Visitor,
    last: u64,
    first: Position,
    blocks: &[u32],
    met: &mut BlockSet,
    leaves: &mut Vec<LeafPlace>,
) -> Result<Part, Halt>
    requires level { first.level ≤ 5 }
    requires span { first.span ≡ per_block visitor.now.shape.blocksize ^ first.level }
    requires room { (first.index + length blocks.now) * first.span ≤ 2 ^ 54 }
    requires met { limit_of met.old ≡ visitor.now.shape.count }
    requires placed { All (IsLeafOf visitor.now.shape.count last) leaves.old.items }
    requires fits { Fits visitor.now.shape (D.outside host.old) }
    ensures sees { (m : BlockMap) → Shows visitor.now.shape (D.outside host.new) m
        → Sees m visitor.now last
        (visits_beside m last first.level first.index blocks.now (length blocks.now))
        (strays_beside m last first.level first.index blocks.now (length blocks.now))
        (bare_beside m last first.level first.index blocks.now (length blocks.now))
        result met.old met.new leaves.old.items leaves.new.items }

    // Whether the device tells or not.
    ensures few { IfOk result (λ part. part.leaves ≤ length blocks.now * first.span) }
    ensures placed { OnOk result (All (IsLeafOf visitor.now.shape.count last) leaves.new.items) }
    ensures end { IfOk result (λ part. IfSome part.end (λ block. block < visitor.now.shape.count)) }
    ensures follows { Follows met.old met.new leaves.old.items leaves.new.items
        (D.outside host.old) (D.outside host.new) result }
{
    let mut all = Part::nothing();
    for (place, block) in blocks.iter().enumerate() {
        let position = Position {
            level: first.level,
            span: first.span,
            index: first.index + place as u64,
        };
        let part = visit(host, visitor, last, position, *block, met, leaves)?;
        all = all.joined(part);
    }
    Ok(all)
}

/// Goes through the tests at a pointer and below it.
#[cycle(pointers)]
fn visit<D: Dev>(
    host: &mut D,
    visitor: &Visitor,
    last: u64,
    position: Position,
    block: u32,
    met: &mut BlockSet,
    leaves: &mut Vec<LeafPlace>,
) -> Result<Part, Halt>
    requires level { position.level ≤ 5 }
    requires span { position.span ≡ per_block visitor.now.shape.blocksize ^ position.level }
    requires room { (position.index + 1) * position.span ≤ 2 ^ 54 }
    requires met { limit_of met.old ≡ visitor.now.shape.count }
    requires placed { All (IsLeafOf visitor.now.shape.count last) leaves.old.items }
    requires fits { Fits visitor.now.shape (D.outside host.old) }
    ensures sees { (m : BlockMap) → Shows visitor.now.shape (D.outside host.new) m
        → Sees m visitor.now last
        (visits_under m last position.level position.index block)
        (is_stray_under m last position.level position.index block)
        (has_bare_under m last position.level position.index block)
        result met.old met.new leaves.old.items leaves.new.items }

    // Whether the device tells or not.
    ensures few { IfOk result (λ part. part.leaves ≤ position.span) }
    ensures placed { OnOk result (All (IsLeafOf visitor.now.shape.count last) leaves.new.items) }
    ensures end { IfOk result (λ part. IfSome part.end (λ block. block < visitor.now.shape.count)) }
    ensures follows { Follows met.old met.new leaves.old.items leaves.new.items
        (D.outside host.old) (D.outside host.new) result }
{
    if block == ABSENT {
        return Ok(Part::nothing());
    }
    if last <= position.index * position.span {
        return Ok(Part {
            strays: true,
            ..Part::nothing()
        });
    }
    mark(visitor, block, met)?;
    if position.level == 0 {
        return keep(visitor, last, position.index, block, leaves);
    }
    let count = visitor.shape.blocksize / 4;
    let mut buffer = [0; 1024];
    let blocks = &mut buffer[0..count as usize];
    read_pointers(host, visitor.shape, block, blocks)?;
    let first = Position {
        level: position.level - 1,
        span: position.span / u64::from(count),
        index: position.index * u64::from(count),
    };
    let below = visit_each(host, visitor, last, first, blocks, met, leaves)?;
    Ok(Part {
        bare: below.leaves == 0 || below.bare,
        ..below
    })
}

/// Tests that a pointer leads to a block that wasn't met before, and marks it as met.
fn mark(visitor: &Visitor, block: u32, met: &mut BlockSet) -> Result<(), Halt>
    requires { limit_of met.old ≡ visitor.now.shape.count }
    ensures tests { GoesThrough (Tested codes.Pointer visitor.now.inode block (nat_lt block visitor.now.shape.count) ∷ Met visitor.now.inode block ∷ []) result met.old met.new }
    ensures below { OnOk result (block < visitor.now.shape.count) }
    ensures limit { limit_of met.new ≡ limit_of met.old }
    ensures one { OnOk result (count_of met.new ≡ count_of met.old + 1) }
    ensures none { OnErr result (count_of met.new ≡ count_of met.old) }
    ensures no_fault { result ≢ Err halts.Device }
{
    if block >= visitor.shape.count {
        return Err(Halt::Finding(Finding {
            code: Code::Pointer,
            inode: visitor.inode,
            block,
        }));
    }
    if met.has(block) {
        return Err(Halt::Finding(Finding {
            code: Code::Twice,
            inode: visitor.inode,
            block,
        }));
    }
    met.insert(block);
    Ok(())
}

/// Keeps a leaf, where leaves are kept, and says what is seen of it.
fn keep(
    visitor: &Visitor,
    last: u64,
    index: u64,
    block: u32,
    leaves: &mut Vec<LeafPlace>,
) -> Result<Part, Halt>
    requires block { block < visitor.now.shape.count }
    requires index { index < last }
    requires placed { All (IsLeafOf visitor.now.shape.count last) leaves.old.items }
    ensures part { IfOk result (λ part. part ≡ leaf_part last (leaf_at index block)) }
    ensures leaves { OnOk result (leaves.new.items ≡ leaves.old.items
        ++ kept_leaves visitor.now.keeps (leaf_at index block ∷ [])) }
    ensures placed { OnOk result (All (IsLeafOf visitor.now.shape.count last) leaves.new.items) }
    ensures one { length leaves.new.items ≤ length leaves.old.items + 1 }
    ensures end { IfOk result (λ part. IfSome part.end (λ end. end < visitor.now.shape.count)) }
    ensures memory { IfErr result (λ halt. halt ≡ halts.NoMemory) }
{
    if visitor.keeps && leaves.push(LeafPlace { index, block }).is_err() {
        return Err(Halt::NoMemory);
    }
    Ok(Part {
        leaves: 1,
        strays: false,
        bare: false,
        end: if index + 1 == last { Some(block) } else { None },
    })
}

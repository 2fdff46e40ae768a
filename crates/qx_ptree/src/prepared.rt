//! A change of a node that waits for its commit.
ghost use Rattle.std.specs.Prelude.{◌≡◌, ℕ, List, ◌++◌, not};
ghost use Rattle.std.specs.List.{list_any};
ghost use Rattle.qx_geom.specs.Lists.{is_in};
ghost use Rattle.qx_ptree.specs.Takings.{LeavesOthers, Takes};
ghost use Rattle.qx_ptree.specs.WorkState.{CanCommit, blocks_of, committed, with_edits, without_all, CanEdit};

use crate::change::Change;
use crate::work::Work;
use qx_blocks::Blocks;
use qx_geom::Root;
use std::marker::Model;

/// A change of a node, with all that its commit needs: that reads nothing, and can't be refused.
#[derive(Drop)]
pub struct Prepared {
    pub(crate) node: Root,
    pub(crate) change: Change,
    pub(crate) root: Root,
    pub(crate) work: Work,
}

impl Model for Prepared {
    ghost use Rattle.qx_ptree.specs.WorkState.{Preparation};

    ghost Value = { Preparation };

    ghost use Rattle.qx_ptree.specs.PreparedView.{prepared_in};

    ghost view = { prepared_in };
}

impl Prepared {
    /// The node as it was when the change was prepared, in whose place the commit puts the new one.
    pub fn node(&self) -> Root
        ensures { result ≡ self.now.node }
    {
        self.node
    }

    /// The node that the commit puts in its place.
    pub fn root(&self) -> Root
        ensures { result ≡ self.now.root }
    {
        self.root
    }
}

/// Puts the node that was prepared in place of the old one. The working tree's hold of the blocks that the change leaves out is given up.
pub fn commit<B: Blocks>(node: &mut Root, blocks: &mut B, p: Prepared)
    requires node { node.old ≡ p.node }
    requires ready { CanCommit (B.state blocks.old) p }
    ensures node { node.new ≡ p.root }
    ensures blocks { B.state blocks.new ≡ committed (B.state blocks.old) p }

    ensures rest { LeavesOthers (blocks_of p) (B.state blocks.old) (B.state blocks.new) }
    ensures others { B.beside blocks.new ≡ B.beside blocks.old }
{
    p.work.write_edits(blocks);
    p.work.give_all_up(blocks);
    *node = p.root;
}

/// Gives back the blocks that were taken for a change, which is then forgotten.
pub fn abandon<B: Blocks>(blocks: &mut B, p: Prepared)
    ensures blocks { B.state blocks.new ≡ without_all (B.state blocks.old) p.work.fresh }

    // Where nothing but other changes was prepared since, all is as if this one never was.
    ensures back { (m : _) (others : List ℕ) → Takes (others ++ p.work.fresh) m (B.state blocks.old)
        → Takes others m (B.state blocks.new) }

    ensures rest { LeavesOthers p.work.fresh (B.state blocks.old) (B.state blocks.new) }
    ensures others { B.beside blocks.new ≡ B.beside blocks.old }
{
    p.work.give_back(blocks);
}

/// Whether two changes have no block in common.
pub fn apart(p: &Prepared, q: &Prepared) -> bool
    ensures { result ≡ not (list_any (λ b. is_in (blocks_of q.now) b) (blocks_of p.now)) }
{
    !p.work.meets(&q.work)
}

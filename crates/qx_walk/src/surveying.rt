//! What an image is.
ghost use Rattle.std.specs.Prelude.{◌≡◌, ◌+◌, ◌≤◌, ℕ, List, IfOk, IfSome, IsTrue, Some};
ghost use Rattle.qx_geom.specs.Layout.{is_block_size};
ghost use Rattle.qx_outside.specs.Trail.{bytes_of};
ghost use Rattle.qx_super.specs.Active.{active_area, active_super};
ghost use Rattle.qx_super.specs.Superblock.{second_place_of};
ghost use Rattle.qx_super.specs.declared.choice.Pick.TheVariants as picks;
ghost use Rattle.qx_walk.specs.declared.survey.WalkFault.TheVariants as faults;
ghost use Rattle.qx_pointers.specs.Shown.{Looks};
ghost use Rattle.qx_walk.specs.Surveys.{HasSurveyBounds, SaysOf, survey_by};

use crate::layout::{first_reason, geometry_of, last_of};
use crate::tree::walk_tree;
use crate::{RootNodes, Survey, WalkFault, Walked};
use qx_geom::Which;
use qx_outside::Dev;
use qx_pointers::Shape;
use qx_super::{Choice, RootName, SuperView, areas};
use qx_view::Foreign;
use std::alloc::Global;

/// Walks an image of `len` bytes, and says what it is: which area is active, what its tree holds, and whether it is laid out as this project writes it.
pub fn walk<D: Dev>(alloc: Global, host: &mut D, len: u64) -> Result<Survey, WalkFault>
    requires len { IfSome (D.outside host.old).extent (λ n. n ≡ len) }
    ensures says { IsTrue (D.outside host.new).tells → SaysOf (bytes_of (D.outside host.old).history) result }
    ensures bounds { IfOk result (HasSurveyBounds len) }
    ensures looks { Looks faults.Device 0 (len + 2) (D.outside host.old) (D.outside host.new) result }
{
    let mut first = [0; 512];
    let mut second = [0; 512];
    let Ok(areas) = areas(host, len, &mut first, &mut second) else {
        return Err(WalkFault::Device);
    };
    match areas.choice() {
        Choice::None => Err(WalkFault::NoVolume),
        Choice::Disagree => Err(WalkFault::Disagree),
        Choice::Active(which, view) => survey(alloc, host, len, which, &view),
    }
}

/// Surveys the volume of an active superblock.
fn survey<D: Dev>(
    alloc: Global,
    host: &mut D,
    len: u64,
    which: Which,
    view: &SuperView<'_>,
) -> Result<Survey, WalkFault>
    requires len { IfSome (D.outside host.old).extent (λ n. n ≡ len) }
    requires sized { IsTrue (is_block_size view.now.blocksize) }
    requires room { second_place_of view.now + 512 ≤ len }
    ensures says { (img : List ℕ) → IsTrue (D.outside host.new).tells → bytes_of (D.outside host.old).history ≡ img → active_area img ≡ picks.Active which → active_super img ≡ Some view.now → SaysOf img result }
    ensures bounds { IfOk result (HasSurveyBounds len) }
    ensures looks { Looks faults.Device 0 len (D.outside host.old) (D.outside host.new) result }
{
    let shape = Shape {
        order: view.order(),
        blocksize: view.blocksize(),
        count: view.num_blocks(),
    };
    let roots = RootNodes {
        inodes: view.root(RootName::Inode),
        longfile: view.root(RootName::Longfile),
        bitmap: view.root(RootName::Bitmap),
    };
    let walked = match walk_tree(alloc, host, shape, &roots) {
        Err(halt) => return Err(WalkFault::of(halt)),
        Ok(walked) => walked,
    };
    let geometry = geometry_of(view, len);
    let foreign = match first_reason(host, shape, view, which, geometry, &walked) {
        Err(halt) => return Err(WalkFault::of(halt)),
        Ok(foreign) => foreign,
    };
    let last = last_of(view, geometry, foreign, &walked);
    match last {
        Some(finding) => Err(WalkFault::Finding(finding)),
        None => Ok(survey_of(which, view, walked, foreign)),
    }
}

/// The survey of a walked volume.
fn survey_of(which: Which, view: &SuperView<'_>, walked: Walked, foreign: Option<Foreign>) -> Survey
    ensures { result ≡ survey_by which view.now walked foreign }
{
    let free_blocks = match foreign {
        None => view.free_blocks(),
        Some(_) => view.num_blocks().saturating_sub(walked.met.count()),
    };
    Survey {
        which,
        serial: view.serial(),
        order: view.order(),
        ctime: view.ctime(),
        blocksize: view.blocksize(),
        num_blocks: view.num_blocks(),
        num_inodes: view.num_inodes(),
        held: walked.met,
        live: walked.live,
        free_blocks,
        foreign,
    }
}

//! The check of an image.
ghost use Rattle.std.specs.Prelude.{IsTrue};
ghost use Rattle.qx_outside.specs.Trail.{bytes_of};
ghost use Rattle.qx_check.specs.Verdicts.{LooksOver, SaysVerdict};

use crate::{CheckFault, Verdict};
use qx_outside::Dev;
use qx_walk::{WalkFault, walk};
use std::alloc::Global;

/// Says whether a device holds a volume that is right: the verdict that the definitions give on its bytes.
pub fn check<D: Dev>(alloc: Global, host: &mut D) -> Result<Verdict, CheckFault>
    ensures says { IsTrue (D.outside host.new).tells
        → SaysVerdict (bytes_of (D.outside host.old).history) result }
    ensures looks { LooksOver (D.outside host.old) (D.outside host.new) result }
{
    let Ok(len) = host.len() else {
        return Err(CheckFault::Device);
    };
    match walk(alloc, host, len) {
        Err(WalkFault::NoVolume) => Err(CheckFault::NoVolume),
        Err(WalkFault::Disagree) => Err(CheckFault::Disagree),
        Err(WalkFault::Device) => Err(CheckFault::Device),
        Err(WalkFault::NoMemory) => Err(CheckFault::NoMemory),
        Err(WalkFault::Finding(finding)) => Ok(Verdict::Damaged(finding)),
        Ok(survey) => match survey.foreign {
            Some(foreign) => Ok(Verdict::Foreign(foreign)),
            None => Ok(Verdict::Clean {
                which: survey.which,
                serial: survey.serial,
                free_blocks: survey.free_blocks,
                free_inodes: survey.num_inodes.saturating_sub(survey.live),
            }),
        },
    }
}

//! The superblocks of both areas of an image.
ghost use Rattle.std.specs.Prelude.{◌≡◌};
ghost use Rattle.qx_super.specs.Active.{choice_of, pick_of};

use crate::active::{Later, later_of, pick};
use crate::{Choice, Pick, SuperView};
use qx_geom::Which;

/// The valid superblocks of the two areas of an image.
#[derive(Drop)]
pub struct Areas<'a> {
    pub first: Option<SuperView<'a>>,
    /// Only where it says that it stands where it was looked for.
    pub second: Option<SuperView<'a>>,
}

impl<'a> Areas<'a> {
    /// The area that counts.
    pub fn pick(&self) -> Pick
        ensures { result ≡ pick_of self.now.first self.now.second }
    {
        pick(self.first.as_ref(), self.second.as_ref())
    }

    /// The area that counts, with its superblock.
    pub fn choice(self) -> Choice<'a>
        ensures { result ≡ choice_of self.entry.first self.entry.second }
    {
        match (self.first, self.second) {
            (None, None) => Choice::None,
            (Some(first), None) => Choice::Active(Which::First, first),
            (None, Some(second)) => Choice::Active(Which::Second, second),
            (Some(first), Some(second)) => match later_of(&first, &second) {
                Later::First => Choice::Active(Which::First, first),
                Later::Second => Choice::Active(Which::Second, second),
                Later::Neither => Choice::Disagree,
            },
        }
    }
}

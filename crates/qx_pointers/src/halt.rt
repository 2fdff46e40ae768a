//! Why a walk ends before its end.
ghost use Rattle.std.specs.Prelude.{◌≡◌};
ghost use Rattle.qx_pointers.specs.declared.halt.Halt.TheVariants as halts;

use qx_outside::Failed;
use qx_view::Finding;
use std::alloc::AllocError;

/// Why a walk ends before its end.
#[derive(Clone, Copy, Debug, PartialEq, Eq)]
pub enum Halt {
    /// A test failed.
    Finding(Finding),
    /// A device call failed.
    Device,
    /// There was no memory for what the walk keeps.
    NoMemory,
}

impl From<Failed> for Halt {
    ghost from_gives = { λ _ halt. halt ≡ halts.Device };

    fn from(_: Failed) -> Halt {
        Halt::Device
    }
}

impl From<AllocError> for Halt {
    ghost from_gives = { λ _ halt. halt ≡ halts.NoMemory };

    fn from(_: AllocError) -> Halt {
        Halt::NoMemory
    }
}

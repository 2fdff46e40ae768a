//! The permissions in a mode.
ghost use Rattle.std.specs.Prelude.{⊤, ◌≡◌, ◌+◌, ◌*◌, ◌/◌, ◌%◌};
ghost use Rattle.qx_records.specs.PermissionBits.{permission_bits};

use bitflags::{Flag, Flags, bitflag_items};

/// The low twelve bits of a mode, as a set. Contracts name its number: a type with a model of its own can't have `FLAGS`.
#[derive(Clone, Copy, Debug, PartialEq, Eq)]
pub struct Permissions(pub u16);

bitflag_items! {
    impl Permissions: u16 {
        const SET_USER_ID = 0o4000;
        const SET_GROUP_ID = 0o2000;
        const STICKY = 0o1000;
        const USER_READ = 0o400;
        const USER_WRITE = 0o200;
        const USER_EXECUTE = 0o100;
        const GROUP_READ = 0o40;
        const GROUP_WRITE = 0o20;
        const GROUP_EXECUTE = 0o10;
        const OTHER_READ = 0o4;
        const OTHER_WRITE = 0o2;
        const OTHER_EXECUTE = 0o1;
    }
}

impl Flags for Permissions {
    type Bits = u16;

    ghost exact = { ⊤ };

    ghost table = { permission_bits };

    ghost set_of = { λ p. p.0 };

    fn flags<'a>() -> &'a [Flag<Permissions>] {
        Permissions::FLAGS
    }

    fn bits(&self) -> u16 {
        self.0
    }

    fn from_bits_retain(bits: u16) -> Permissions {
        Permissions(bits)
    }
}

impl Permissions {
    /// The permissions in a mode.
    pub fn of(mode: u16) -> Permissions
        ensures { result.0 ≡ mode % 4096 }
    {
        Permissions(mode % 0x1000)
    }

    /// A mode of the same kind with these permissions in place of its own.
    pub fn put_in(self, mode: u16) -> u16
        ensures { result ≡ mode / 4096 * 4096 + self.0 % 4096 }
    {
        mode / 0x1000 * 0x1000 + self.0 % 0x1000
    }
}

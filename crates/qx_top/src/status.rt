//! How a run ends.
ghost use Rattle.std.specs.Prelude.{◌≡◌};
ghost use Rattle.qx_top.specs.Says.{code_of};

/// How a run ends, with the exit status that says so.
#[derive(Clone, Copy, Debug, PartialEq, Eq)]
pub enum Status {
    /// The words were done.
    Done = 0,
    /// The words aren't accepted.
    BadWords = 1,
    /// The image has no volume, its two areas disagree, or it is damaged.
    BadImage = 2,
    /// A device call failed.
    DeviceFault = 3,
    /// A call of the console failed.
    ConsoleFault = 4,
    /// There was no memory.
    NoMemory = 5,
}

impl Status {
    /// The exit status.
    pub fn code(self) -> u8
        ensures { result ≡ code_of self }
    {
        self as u8
    }
}

//! The commands and their arguments: one table.
ghost use Rattle.std.specs.Prelude.{◌≡◌};
ghost use Rattle.qx_words.specs.Commands.{arguments_of, name_of};

/// A command, by the act that it asks for.
#[derive(Clone, Copy, Debug, PartialEq, Eq)]
pub enum Verb {
    List,
    Stat,
    ReadLink,
    Read,
    Create,
    Mkdir,
    Write,
    Fill,
    Truncate,
    Remove,
    RemoveDir,
    Rename,
    Link,
    Symlink,
    Chmod,
    Chown,
    Utime,
    Cd,
    Df,
    Hold,
    Unhold,
    Sync,
    Fsync,
    Tick,
    Quit,
}

/// What a word behind a command's name says.
#[derive(Clone, Copy, Debug, PartialEq, Eq)]
pub enum Argument {
    /// A path, a target or a first name, as a byte word.
    Path,
    /// A second name, or bytes, as a byte word.
    Other,
    /// A place in bytes, or a size.
    At,
    /// How many bytes are read, at most 65,536.
    Count,
    /// How many bytes are filled, from 1 to 2^48.
    FillCount,
    /// A byte as a number.
    Byte,
    /// One to four octal digits.
    Mode,
    Uid,
    Gid,
    Atime,
    Mtime,
}

/// All commands.
pub const VERBS: [Verb; 25] = [
    Verb::List,
    Verb::Stat,
    Verb::ReadLink,
    Verb::Read,
    Verb::Create,
    Verb::Mkdir,
    Verb::Write,
    Verb::Fill,
    Verb::Truncate,
    Verb::Remove,
    Verb::RemoveDir,
    Verb::Rename,
    Verb::Link,
    Verb::Symlink,
    Verb::Chmod,
    Verb::Chown,
    Verb::Utime,
    Verb::Cd,
    Verb::Df,
    Verb::Hold,
    Verb::Unhold,
    Verb::Sync,
    Verb::Fsync,
    Verb::Tick,
    Verb::Quit,
];

impl Verb {
    /// The name that the command begins with.
    pub fn name(self) -> &'static str
        ensures { result.now ≡ name_of self }
    {
        match self {
            Verb::List => "ls",
            Verb::Stat => "stat",
            Verb::ReadLink => "readlink",
            Verb::Read => "cat",
            Verb::Create => "create",
            Verb::Mkdir => "mkdir",
            Verb::Write => "write",
            Verb::Fill => "fill",
            Verb::Truncate => "truncate",
            Verb::Remove => "rm",
            Verb::RemoveDir => "rmdir",
            Verb::Rename => "mv",
            Verb::Link => "ln",
            Verb::Symlink => "symlink",
            Verb::Chmod => "chmod",
            Verb::Chown => "chown",
            Verb::Utime => "utime",
            Verb::Cd => "cd",
            Verb::Df => "df",
            Verb::Hold => "hold",
            Verb::Unhold => "unhold",
            Verb::Sync => "sync",
            Verb::Fsync => "fsync",
            Verb::Tick => "tick",
            Verb::Quit => "quit",
        }
    }

    /// The words that follow the name.
    pub fn arguments(self) -> &'static [Argument]
        ensures { result.now ≡ arguments_of self }
    {
        match self {
            Verb::List
            | Verb::Stat
            | Verb::ReadLink
            | Verb::Create
            | Verb::Mkdir
            | Verb::Remove
            | Verb::RemoveDir
            | Verb::Cd
            | Verb::Fsync => &[Argument::Path],
            Verb::Read => &[Argument::Path, Argument::At, Argument::Count],
            Verb::Write => &[Argument::Path, Argument::At, Argument::Other],
            Verb::Fill => &[
                Argument::Path,
                Argument::At,
                Argument::FillCount,
                Argument::Byte,
            ],
            Verb::Truncate => &[Argument::Path, Argument::At],
            Verb::Rename | Verb::Link | Verb::Symlink => &[Argument::Path, Argument::Other],
            Verb::Chmod => &[Argument::Path, Argument::Mode],
            Verb::Chown => &[Argument::Path, Argument::Uid, Argument::Gid],
            Verb::Utime => &[Argument::Path, Argument::Atime, Argument::Mtime],
            Verb::Df | Verb::Hold | Verb::Unhold | Verb::Sync | Verb::Tick | Verb::Quit => &[],
        }
    }
}

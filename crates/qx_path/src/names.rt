//! The names of a path, one after another.
ghost use Rattle.std.specs.Prelude.{◌≡◌, ◌-◌, ◌==◌, false, length, position, take};
ghost use Rattle.std.specs.Iterator.{YieldsFirstRef, item_count};
ghost use Rattle.qx_path.specs.Names.{EndsNoSlash, begins_with_slash, first_length, is_slash, names_in};
ghost use Rattle.qx_path.specs.NamesLeft.{names_left};

/// The names of a path in order: the pieces between slashes that aren't empty.
#[derive(Clone, Drop)]
pub struct Components<'a> {
    rest: &'a [u8],
}

impl<'a> Components<'a> {
    /// The names in these bytes.
    pub fn new(bytes: &'a [u8]) -> Components<'a>
        ensures { names_left result ≡ names_in bytes.now }
    {
        Components { rest: bytes }
    }

    /// The bytes in which the names are that are still to come.
    pub fn rest(&self) -> &'a [u8]
        ensures { names_in result.now ≡ names_left self.now }
    {
        self.rest
    }

    /// Whether no name is to come, so that the one before was the last.
    pub fn is_empty(&self) -> bool
        ensures { result ≡ (length (names_left self.now) == 0) }
    {
        Components::new(self.rest).next().is_none()
    }
}

impl<'a> Iterator for Components<'a> {
    type Item = &'a [u8];

    ghost next_gives = { YieldsFirstRef names_left };

    ghost remaining = { item_count names_left };

    fn next(&mut self) -> Option<&'a [u8]> {
        let names: &'a [u8] = without_slashes(self.rest);
        let (name, rest) = names.split_at(first_length(names));
        self.rest = rest;
        if name.is_empty() { None } else { Some(name) }
    }
}

// The bytes from the first that is no slash on.
fn without_slashes(bytes: &[u8]) -> &[u8]
    ensures names { names_in result.now ≡ names_in bytes.now }
    ensures first { begins_with_slash result.now ≡ false }
{
    let mut rest = bytes;
    while let [b'/', others @ ..] = rest {
        rest = others;
    }
    rest
}

// The bytes up to the last that is no slash.
fn without_slashes_behind(bytes: &[u8]) -> &[u8]
    ensures names { names_in result.now ≡ names_in bytes.now }
    ensures last { EndsNoSlash result.now }
{
    let mut front = bytes;
    while let [others @ .., byte] = front {
        if *byte != b'/' {
            return front;
        }
        front = others;
    }
    front
}

// The bytes up to the last slash, where the last name ends them.
fn before_last_slash(bytes: &[u8]) -> &[u8]
    requires { EndsNoSlash bytes.now }
    ensures { names_in result.now ≡ take (length (names_in bytes.now) - 1) (names_in bytes.now) }
{
    let mut front = bytes;
    while let [others @ .., byte] = front {
        if *byte == b'/' {
            return others;
        }
        front = others;
    }
    front
}

// The bytes before the last of the names in some bytes.
pub(crate) fn before_last_name(bytes: &[u8]) -> &[u8]
    ensures { names_in result.now ≡ take (length (names_in bytes.now) - 1) (names_in bytes.now) }
{
    before_last_slash(without_slashes_behind(bytes))
}

// How many bytes stand before the first slash.
fn first_length(bytes: &[u8]) -> usize
    ensures { result ≡ first_length bytes.now }
{
    first_slash(bytes).unwrap_or(bytes.len())
}

// Where the first slash is.
fn first_slash(bytes: &[u8]) -> Option<usize>
    ensures { result ≡ position is_slash bytes.now }
{
    bytes.iter().position(|b| *b == b'/')
}

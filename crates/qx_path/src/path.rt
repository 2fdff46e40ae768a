//! A path over the bytes that it is lent.
ghost use Rattle.std.specs.Prelude.{◌≡◌, ◌-◌, true, IfSome, length, nat_lt, take};
ghost use Rattle.std.specs.List.{list_all, list_any};
ghost use Rattle.std.specs.Option.{option_copied};
ghost use Rattle.qx_path.specs.Names.{names_in};
ghost use Rattle.qx_path.specs.NamesLeft.{names_left};
ghost use Rattle.qx_path.specs.PathParts.{is_name, last_name, path_of};

use crate::names::before_last_name;
use crate::{Components, PathFault};
use std::marker::Model;

/// The most bytes of a path, and of a name (this project's own).
const MAX_PATH: usize = 1023;

const MAX_NAME: usize = 510;

/// Bytes that are a path.
#[derive(Drop)]
pub struct Path<'a> {
    bytes: &'a [u8],
}

impl<'a> Model for Path<'a> {
    ghost use Rattle.qx_path.specs.PathParts.{PathParts};

    ghost Value = { PathParts };

    ghost use Rattle.qx_path.specs.PathView.{path_in, IsRead};

    ghost view = { path_in };

    ghost invariant = { IsRead };
}

impl<'a> Path<'a> {
    /// The path that the bytes are.
    pub fn parse(bytes: &'a [u8]) -> Result<Path<'a>, PathFault>
        ensures { result ≡ path_of bytes.now }
    {
        if bytes.is_empty() {
            return Err(PathFault::Empty);
        }
        if bytes.len() > MAX_PATH {
            return Err(PathFault::TooLong);
        }
        if bytes.contains(&0) {
            return Err(PathFault::ZeroByte);
        }
        if has_long_name(Components::new(bytes)) {
            return Err(PathFault::NameTooLong);
        }
        Ok(Path { bytes })
    }

    /// Whether it begins at the root.
    pub fn absolute(&self) -> bool
        ensures { result ≡ self.now.absolute }
    {
        matches!(self.bytes, [b'/', ..])
    }

    /// Its names in order.
    pub fn components(&self) -> Components<'a>
        ensures names { names_left result ≡ self.now.names }
        ensures each { list_all is_name self.now.names ≡ true }
    {
        Components::new(self.bytes)
    }

    /// Its last name.
    pub fn last(&self) -> Option<&'a [u8]>
        ensures last { option_copied result ≡ last_name self.now }
        ensures name { IfSome result (λ name. is_name name.now ≡ true) }
    {
        let mut last = None;
        for name in self.components() {
            last = Some(name);
        }
        last
    }

    /// The bytes before its last name, which have all other names.
    pub fn parents(&self) -> &'a [u8]
        ensures { names_in result.now ≡ take (length self.now.names - 1) self.now.names }
    {
        before_last_name(self.bytes)
    }
}

// Whether some name has too many bytes.
fn has_long_name(names: Components<'_>) -> bool
    ensures { result ≡ list_any (λ name. nat_lt 510 (length name)) (names_left names.entry) }
{
    for name in names {
        if name.len() > MAX_NAME {
            return true;
        }
    }
    false
}

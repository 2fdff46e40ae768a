//! A path that ends in a name.
ghost use Rattle.std.specs.Prelude.{◌≡◌, true};
ghost use Rattle.qx_path.specs.Names.{names_in};
ghost use Rattle.qx_path.specs.PathParts.{is_name};
ghost use Rattle.qx_model.specs.Paths.{named};
ghost use Rattle.qx_model.specs.Tree.{is_dots};

use qx_model::Refusal;
use qx_path::Path;
use std::marker::Model;

/// A path that ends in a name other than `.` and `..`: the bytes of the names before it, and the name, both lent from the path's.
#[derive(Drop)]
pub struct Named<'a> {
    absolute: bool,
    parents: &'a [u8],
    name: &'a [u8],
}

impl<'a> Model for Named<'a> {
    ghost use Rattle.qx_model.specs.Paths.{Named};
    ghost use Rattle.qx_resolve.specs.NamedPaths.{HasName, named_path};

    ghost Value = { Named };

    ghost view = { named_path };

    ghost invariant = { HasName };
}

impl<'a> Named<'a> {
    /// What stands before the name at the end of a path, and the name; `.`, `..` and a missing name are reserved.
    pub fn of(path: &Path<'a>) -> Result<Named<'a>, Refusal>
        ensures { result ≡ named path.now }
    {
        let Some(name) = path.last() else {
            return Err(Refusal::Reserved);
        };
        if is_dots(name) {
            return Err(Refusal::Reserved);
        }
        Ok(Named {
            absolute: path.absolute(),
            parents: path.parents(),
            name,
        })
    }

    /// The name.
    pub fn name(&self) -> &'a [u8]
        ensures is { result.now ≡ self.now.name }
        ensures name { is_name result.now ≡ true }
    {
        self.name
    }

    // Whether the path begins at the root.
    pub(crate) fn absolute(&self) -> bool
        ensures { result ≡ self.now.parents.absolute }
    {
        self.absolute
    }

    // The bytes that have the names before the last.
    pub(crate) fn parents(&self) -> &'a [u8]
        ensures { names_in result.now ≡ self.now.parents.names }
    {
        self.parents
    }
}

// Whether a name is `.` or `..`.
fn is_dots(name: &[u8]) -> bool
    ensures { result ≡ is_dots name.now }
{
    matches!(name, [b'.'] | [b'.', b'.'])
}

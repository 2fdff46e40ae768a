//! A list of bytes that owns its memory.

use std::alloc::{AllocError, Global};
use std::marker::Model;

/// Bytes that are kept: of an event, of a path, of a name.
#[derive(Drop)]
pub struct ByteList {
    items: Vec<u8>,
}

impl Model for ByteList {
    ghost use Rattle.std.specs.Prelude.{List, ℕ};

    ghost Value = { List ℕ };

    ghost view = { λ b. b.items.items };
}

impl ByteList {
    ghost use Rattle.std.specs.Prelude.{◌≡◌, [], ◌∷◌, ◌++◌, OnOk, OnErr};

    /// An empty list. It takes no memory.
    pub fn new(alloc: Global) -> ByteList
        ensures { result ≡ [] }
    {
        ByteList {
            items: Vec::new(alloc),
        }
    }

    /// Adds a byte at the end. Where memory is wanting, the list stays as it was.
    pub fn push(&mut self, b: u8) -> Result<(), AllocError>
        ensures ok { OnOk result (self.new ≡ self.old ++ b ∷ []) }
        ensures err { OnErr result (self.new ≡ self.old) }
    {
        self.items.push(b)?;
        Ok(())
    }

    /// Adds bytes at the end. Where memory is wanting, the list stays as it was.
    pub fn add(&mut self, bytes: &[u8]) -> Result<(), AllocError>
        ensures ok { OnOk result (self.new ≡ self.old ++ bytes.now) }
        ensures err { OnErr result (self.new ≡ self.old) }
    {
        self.items.extend_from_slice(bytes)
    }

    /// The bytes.
    pub fn bytes(&self) -> &[u8]
        ensures { result.now ≡ self.now }
    {
        &self.items
    }
}

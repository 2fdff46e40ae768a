//! A list of places that owns its memory.

use std::alloc::{AllocError, Global};
use std::marker::Model;

/// Places of rows in a block, counted in records of 32 bytes.
#[derive(Drop)]
pub struct RowPlaces {
    items: Vec<usize>,
}

impl Model for RowPlaces {
    ghost use Rattle.std.specs.Prelude.{List, ℕ};

    ghost Value = { List ℕ };

    ghost view = { λ places. places.items.items };
}

impl RowPlaces {
    ghost use Rattle.std.specs.Prelude.{◌≡◌, [], ◌∷◌, ◌++◌, OnOk, OnErr};

    /// An empty list. It takes no memory.
    pub fn new(alloc: Global) -> RowPlaces
        ensures { result ≡ [] }
    {
        RowPlaces {
            items: Vec::new(alloc),
        }
    }

    /// Adds a place at the end. Where memory is wanting, the list stays as it was.
    pub fn push(&mut self, item: usize) -> Result<(), AllocError>
        ensures ok { OnOk result (self.new ≡ self.old ++ item ∷ []) }
        ensures err { OnErr result (self.new ≡ self.old) }
    {
        self.items.push(item)?;
        Ok(())
    }

    /// The places.
    pub fn items(&self) -> &[usize]
        ensures { result.now ≡ self.now }
    {
        &self.items
    }
}

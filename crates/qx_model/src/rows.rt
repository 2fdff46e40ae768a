//! Rows of a directory, as they are listed.
ghost use Rattle.std.specs.Prelude.{◌≡◌, [], ◌∷◌, ◌++◌, OnOk, OnErr};

use qx_outside::ByteList;
use std::alloc::{AllocError, Global};
use std::marker::Model;

/// A row of a directory as it is listed.
#[derive(Drop)]
pub struct Row {
    /// The number of the inode that it names.
    pub inode: u32,
    /// 1 to 510 bytes.
    pub name: ByteList,
}

/// Rows in the order of their records.
#[derive(Drop)]
pub struct RowList {
    rows: Vec<Row>,
}

impl Model for RowList {
    ghost use Rattle.std.specs.Prelude.{List};
    ghost use Rattle.qx_model.specs.declared.rows.Row.{Row};

    ghost Value = { List Row };

    ghost view = { λ r. r.rows.items };
}

impl RowList {
    /// No rows. It takes no memory.
    pub fn new(alloc: Global) -> RowList
        ensures { result ≡ [] }
    {
        RowList {
            rows: Vec::new(alloc),
        }
    }

    /// Adds a row at the end. Where memory is wanting, the list stays as it was.
    pub fn push(&mut self, item: Row) -> Result<(), AllocError>
        ensures ok { OnOk result (self.new ≡ self.old ++ item ∷ []) }
        ensures err { OnErr result (self.new ≡ self.old) }
    {
        self.rows.push(item)?;
        Ok(())
    }

    /// The rows.
    pub fn items(&self) -> &[Row]
        ensures { result.now ≡ self.now }
    {
        &self.rows
    }
}

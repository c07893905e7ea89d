ghost use Rattle.std.specs.Prelude.{◌≡◌, [], ◌∷◌, ◌++◌, OnOk, OnErr};

use crate::row::Row;
use lapi_base::Memory;
use std::alloc::Global;
use std::marker::Model;

/// The rows of a chart, from top to bottom.
#[derive(Debug, Drop)]
pub struct Rows {
    items: Vec<Row>,
}

impl Model for Rows {
    ghost use Rattle.std.specs.Prelude.{List};
    ghost use Rattle.lapi_picture.specs.declared.row.Row.{Row};

    ghost Value = { List Row };

    ghost view = { λ list. list.items.items };
}

impl Rows {
    /// The empty list, which takes no memory yet.
    pub fn new(alloc: Global) -> Rows
        ensures { result ≡ [] }
    {
        Rows {
            items: Vec::new(alloc),
        }
    }

    /// Appends a row.
    pub fn push(&mut self, item: Row) -> Result<(), Memory>
        ensures ok { OnOk result (self.new ≡ self.old ++ item ∷ []) }
        ensures err { OnErr result (self.new ≡ self.old) }
    {
        self.items.push(item)?;
        Ok(())
    }

    pub fn as_slice(&self) -> &[Row]
        ensures { result.now ≡ self.now }
    {
        self.items.as_slice()
    }
}

//! Rows in order, which contracts see as a list.
ghost use Rattle.std.specs.Prelude.{◌≡◌, [], ◌∷◌, ◌++◌, OnOk, OnErr};

use fleet_rows::Row;
use std::alloc::{AllocError, Global};
use std::marker::Model;

/// Rows in order.
#[derive(Drop)]
pub struct Rows {
    list: Vec<Row>,
}

impl Model for Rows {
    ghost use Rattle.std.specs.Prelude.{List};
    ghost use Rattle.fleet_rows.specs.declared.row.Row.{Row};

    ghost Value = { List Row };

    ghost use Rattle.std.specs.Coded.{codes};
    ghost use Rattle.fleet_rows.specs.text_spec.JsonCode.{coded_json};

    ghost coded = { Prim.hlevel (codes, coded_json) };

    ghost view = { λ a. a.list.items };
}

impl Rows {
    /// No rows. It allocates nothing.
    pub fn new(alloc: Global) -> Rows
        ensures { result ≡ [] }
    {
        Rows {
            list: Vec::new(alloc),
        }
    }

    /// Appends a row. If memory runs out, the row is dropped and the list is unchanged.
    pub fn push(&mut self, row: Row) -> Result<(), AllocError>
        ensures ok { OnOk result (self.new ≡ self.old ++ row ∷ []) }
        ensures err { OnErr result (self.new ≡ self.old) }
    {
        self.list.push(row)?;
        Ok(())
    }

    /// The rows in order.
    pub fn as_slice(&self) -> &[Row]
        ensures { result.now ≡ self.now }
    {
        self.list.as_slice()
    }
}

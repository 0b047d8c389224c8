//! Stores rows, and rows with the names of their columns.
ghost use Rattle.std.specs.Prelude.{◌≡◌, [], ◌∷◌, ◌++◌, OnOk, OnErr, length};
ghost use Rattle.means_spec.specs.Paging.{orders_cmp, from_offset, to_limit};
ghost use Rattle.means_spec.specs.table_spec.Sorted.{sorted_by};

use crate::order::row_cmp;
use means_spec::fleet_rows::{Cells, Names};
use means_spec::json_tree::Text;
use means_spec::query_spec::Order;
use std::alloc::{AllocError, Global};
use std::marker::Model;

/// Rows in order. Contracts see the list of their cells.
#[derive(Drop)]
pub struct Lines {
    list: Vec<Cells>,
}

impl Model for Lines {
    ghost use Rattle.std.specs.Prelude.{List};
    ghost use Rattle.means_spec.specs.fleet_rows.Cell.{CellValue};

    ghost Value = { List (List CellValue) };

    ghost use Rattle.std.specs.Coded.{coded_list, coded⊎, coded_ℤ};
    ghost use Rattle.means_spec.specs.text_spec.JsonCode.{coded_json};

    ghost coded = { coded_list (coded_list (coded⊎ coded_ℤ coded_json)) };

    ghost view = { λ a. a.list.items };
}

impl Lines {
    /// No rows. It allocates no memory.
    pub fn new(alloc: Global) -> Lines
        ensures { result ≡ [] }
    {
        Lines {
            list: Vec::new(alloc),
        }
    }

    /// Appends a row. On an error the list is unchanged and the row is dropped.
    pub fn push(&mut self, row: Cells) -> Result<(), AllocError>
        ensures ok { OnOk result (self.new ≡ self.old ++ row ∷ []) }
        ensures err { OnErr result (self.new ≡ self.old) }
    {
        self.list.push(row)?;
        Ok(())
    }

    /// The rows in order.
    pub fn as_slice(&self) -> &[Cells]
        ensures { result.now ≡ self.now }
    {
        self.list.as_slice()
    }

    /// Sorts the rows by these orders; equal rows keep their order. On an error the rows are unchanged.
    pub(crate) fn sort(&mut self, names: &[Text], orders: &[Order]) -> Result<(), AllocError>
        ensures ok { OnOk result (self.new ≡ sorted_by (orders_cmp names.now orders.now) self.old) }
        ensures err { OnErr result (self.new ≡ self.old) }
    {
        sort(&mut self.list, names, orders)
    }

    /// Drops the rows before the offset.
    pub(crate) fn skip(&mut self, offset: Option<u64>)
        ensures { self.new ≡ from_offset offset self.old }
    {
        skip(&mut self.list, offset);
    }

    /// Drops the rows after the limit.
    pub(crate) fn keep(&mut self, limit: Option<u64>)
        ensures { self.new ≡ to_limit limit self.old }
    {
        keep(&mut self.list, limit);
    }
}

fn sort(list: &mut Vec<Cells>, names: &[Text], orders: &[Order]) -> Result<(), AllocError>
    ensures ok { OnOk result (list.new.items ≡ sorted_by (orders_cmp names.now orders.now) list.old.items) }
    ensures err { OnErr result (list.new.items ≡ list.old.items) }
{
    list.sort_by(|a, b| row_cmp(names, orders, a, b))?;
    Ok(())
}

fn skip(list: &mut Vec<Cells>, offset: Option<u64>)
    ensures { list.new.items ≡ from_offset offset list.old.items }
{
    if let Some(offset) = offset {
        let len = list.len();
        if offset < len as u64 {
            let left = len - offset as usize;
            list.rotate_left(offset as usize);
            list.truncate(left);
        } else {
            list.clear();
        }
    }
}

fn keep(list: &mut Vec<Cells>, limit: Option<u64>)
    ensures { list.new.items ≡ to_limit limit list.old.items }
{
    if let Some(limit) = limit {
        if limit < list.len() as u64 {
            list.truncate(limit as usize);
        }
    }
}

/// Rows, and the names of their columns in order.
#[derive(Drop)]
pub struct OutRows {
    pub names: Names,
    pub rows: Lines,
}

/// The rows that a paging leaves, and the number of rows before its offset and limit were applied.
#[derive(Drop)]
pub struct Page {
    pub rows: OutRows,
    pub total: u64,
}

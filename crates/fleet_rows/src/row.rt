//! The rows of tables, and their cells.
ghost use Rattle.std.specs.Prelude.{◌≡◌, [], ◌∷◌, ◌++◌, OnOk, OnErr, IfOk};
ghost use Rattle.std.specs.Ordering.{nat_cmp};
ghost use Rattle.json_tree.specs.text_spec.Order.{class_of};
ghost use Rattle.json_tree.specs.Tree.{json_of};
ghost use Rattle.fleet_rows.specs.Cell.{cell_of, cells_of, cell_cmp, stamp_class};

use json_tree::{Json, order};
use stamp_time::Moment;
use std::alloc::{AllocError, Global};
use std::cmp::Ordering;
use std::marker::Model;

/// The entities, each with a table of rows, after PuppetDB's query API v4. The last four have columns but no rows yet, and
/// queries can't name them.
#[derive(Clone, Copy, PartialEq, Eq, Debug)]
pub enum Entity {
    Nodes,
    Factsets,
    Facts,
    Catalogs,
    Resources,
    Edges,
    Reports,
    FactContents,
    Inventory,
    Events,
    EventCounts,
}

/// The value in a column of a row.
#[derive(Drop)]
pub enum Cell {
    /// A moment, printed as a stamp.
    Stamp(Moment),
    /// A JSON value; an absent value is null.
    Plain(Json),
}

/// The cells of a row, in the order of its columns. Contracts see a moment as a number of nanoseconds since the epoch, and any
/// other cell as its JSON value.
#[derive(Drop)]
pub struct Cells {
    list: Vec<Cell>,
}

impl Model for Cells {
    ghost use Rattle.std.specs.Prelude.{List};
    ghost use Rattle.fleet_rows.specs.Cell.{CellValue, cells_of};

    ghost Value = { List CellValue };

    ghost use Rattle.std.specs.Coded.{coded_list, coded⊎, coded_ℤ};
    ghost use Rattle.json_tree.specs.text_spec.JsonCode.{coded_json};

    ghost coded = { coded_list (coded⊎ coded_ℤ coded_json) };

    ghost view = { λ a. cells_of a.list.items };
}

impl Cells {
    /// An empty list. It allocates nothing.
    pub fn new(alloc: Global) -> Cells
        ensures { result ≡ [] }
    {
        Cells {
            list: Vec::new(alloc),
        }
    }

    /// An empty list with room for this many cells.
    pub fn with_capacity(alloc: Global, capacity: usize) -> Result<Cells, AllocError>
        ensures { IfOk result (λ cells. cells ≡ []) }
    {
        Ok(Cells {
            list: Vec::with_capacity(alloc, capacity)?,
        })
    }

    /// Appends a cell. If memory runs out, the cell is dropped and the list is unchanged.
    pub fn push(&mut self, cell: Cell) -> Result<(), AllocError>
        ensures ok { OnOk result (self.new ≡ self.old ++ cell_of cell ∷ []) }
        ensures err { OnErr result (self.new ≡ self.old) }
    {
        self.list.push(cell)?;
        Ok(())
    }

    /// The cells in order.
    pub fn as_slice(&self) -> &[Cell]
        ensures { cells_of result.now ≡ self.now }
    {
        self.list.as_slice()
    }
}

/// A row: its cells in the order of the entity's columns.
#[derive(Drop)]
pub struct Row {
    pub entity: Entity,
    pub cells: Cells,
}

impl Cell {
    /// An equal cell that shares no memory with this one.
    pub fn copy(&self, alloc: Global) -> Result<Cell, AllocError>
        ensures { IfOk result (λ cell. cell_of cell ≡ cell_of self.now) }
    {
        match self {
            Cell::Stamp(moment) => Ok(Cell::Stamp(*moment)),
            Cell::Plain(json) => Ok(Cell::Plain(json.copy(alloc)?)),
        }
    }

    /// Compares two cells: values by [`json_tree::order`], moments by time. A moment sorts after null and before any other value.
    pub fn order(&self, other: &Cell) -> Ordering
        ensures { result ≡ cell_cmp (cell_of self.now) (cell_of other.now) }
    {
        match (self, other) {
            (Cell::Stamp(m), Cell::Stamp(n)) => m.cmp(n),
            (Cell::Stamp(_), Cell::Plain(json)) => stamp_order(json),
            (Cell::Plain(json), Cell::Stamp(_)) => stamp_order(json).reverse(),
            (Cell::Plain(i), Cell::Plain(j)) => order(i, j),
        }
    }
}

// The order of a moment relative to a JSON value.
fn stamp_order(json: &Json) -> Ordering
    ensures { result ≡ nat_cmp stamp_class (class_of (json_of json.now)) }
{
    match json {
        Json::Null => Ordering::Greater,
        _ => Ordering::Less,
    }
}

impl Row {
    /// An equal row that shares no memory with this one.
    pub fn copy(&self, alloc: Global) -> Result<Row, AllocError>
        ensures { IfOk result (λ row. row ≡ self.now) }
    {
        let cells = copy_cells(alloc, self.cells.as_slice())?;
        Ok(Row {
            entity: self.entity,
            cells,
        })
    }
}

fn copy_cells(alloc: Global, list: &[Cell]) -> Result<Cells, AllocError>
    ensures { IfOk result (λ cells. cells ≡ cells_of list.now) }
{
    let mut copied = Cells::with_capacity(alloc, list.len())?;
    for cell in list {
        copied.push(cell.copy(alloc)?)?;
    }
    Ok(copied)
}

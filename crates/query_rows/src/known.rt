//! Stores the rows of a level for look-ups by outer levels, and the rows of facts for look-ups by node.
ghost use Rattle.std.specs.Prelude.{◌≡◌, IfOk, length};
ghost use Rattle.fleet_tables.specs.fleet_rows.Cell.{cells_of};
ghost use Rattle.query_plan.specs.means_spec.Cells.{node_in};
ghost use Rattle.query_rows.specs.Indexed.{IsIndexOf, IsRising};
ghost use Rattle.query_rows.specs.Known.{IsLookupIn};
ghost use Rattle.query_rows.specs.Marked.{key_text};

use crate::cells::node_in;
use crate::index::{Index, note};
use crate::marks::append_cell;
use fleet_tables::fleet_rows::{Cell, Cells, Entity};
use paging_text::Lines;
use pattern_port::Keys;
use query_plan::{Shape, Stage};
use std::alloc::{AllocError, Global};
use std::marker::Model;

/// Up to this number, rows are searched one after the other.
const FEW: usize = 8;

/// The key by which rows are looked up.
#[derive(Drop)]
pub enum Lookup {
    /// None: the rows aren't looked up, or are searched one after the other.
    Nowhere,
    /// The rows' cells.
    ByCells(Index),
    /// The nodes of an entity's rows.
    ByNode(Option<Entity>, Index),
}

/// Rows, with the key by which they are looked up. Contracts see the rows.
#[derive(Drop)]
pub struct Known {
    pub rows: Lines,
    pub sought: Lookup,
}

impl Model for Known {
    ghost use Rattle.std.specs.Prelude.{List};
    ghost use Rattle.fleet_tables.specs.fleet_rows.Cell.{CellValue};
    ghost use Rattle.query_rows.specs.Known.{IsLookupIn};

    ghost Value = { List (List CellValue) };

    ghost use Rattle.std.specs.Coded.{coded_list, coded⊎, coded_ℤ};
    ghost use Rattle.same_text.specs.text_spec.JsonCode.{coded_json};

    ghost coded = { coded_list (coded_list (coded⊎ coded_ℤ coded_json)) };

    ghost view = { λ a. a.rows };

    ghost invariant = { λ a. IsLookupIn a.rows a.sought };
}

/// Rows of facts, indexed by node. Contracts see the rows.
#[derive(Drop)]
pub struct FactRows {
    pub rows: Lines,
    pub nodes: Index,
}

impl Model for FactRows {
    ghost use Rattle.std.specs.Prelude.{List};
    ghost use Rattle.fleet_tables.specs.fleet_rows.Cell.{CellValue};
    ghost use Rattle.query_rows.specs.Known.{AreByNode};

    ghost Value = { List (List CellValue) };

    ghost use Rattle.std.specs.Coded.{coded_list, coded⊎, coded_ℤ};
    ghost use Rattle.same_text.specs.text_spec.JsonCode.{coded_json};

    ghost coded = { coded_list (coded_list (coded⊎ coded_ℤ coded_json)) };

    ghost view = { λ a. a.rows };

    ghost invariant = { λ a. AreByNode a.rows a.nodes };
}

// The text of a row's cells.
fn text_of_cells(alloc: Global, row: &[Cell]) -> Result<Vec<u8>, AllocError>
    ensures { IfOk result (λ text. text.items ≡ key_text (cells_of row.now)) }
{
    let mut text = Vec::new(alloc);
    for cell in row {
        append_cell(alloc, &mut text, Some(cell))?;
        text.push(b',')?;
    }
    Ok(text)
}

fn bytes_of(alloc: Global, text: &str) -> Result<Vec<u8>, AllocError>
    ensures { IfOk result (λ bytes. bytes.items ≡ text.now) }
{
    let mut bytes = Vec::new(alloc);
    bytes.extend_from_slice(text.as_bytes())?;
    Ok(bytes)
}

// The index of the rows by their cells.
fn by_cells(alloc: Global, keys: Keys, rows: &[Cells]) -> Result<Index, AllocError>
    ensures { IfOk result (IsIndexOf key_text rows.now) }
{
    let mut index = Index::new(alloc, keys);
    for i in 0..rows.len() {
        let text = text_of_cells(alloc, rows[i].as_slice())?;
        note(alloc, &mut index, text, i)?;
    }
    Ok(index)
}

// The index of the rows by their nodes.
fn by_node(
    alloc: Global,
    keys: Keys,
    entity: Option<Entity>,
    rows: &[Cells],
) -> Result<Index, AllocError>
    ensures there { IfOk result (IsIndexOf (node_in entity) rows.now) }
    ensures rising { IfOk result (λ index. IsRising index (length rows.now)) }
{
    let mut index = Index::new(alloc, keys);
    for i in 0..rows.len() {
        let text = bytes_of(alloc, node_in(entity, rows[i].as_slice()))?;
        note(alloc, &mut index, text, i)?;
    }
    Ok(index)
}

/// The rows of a stage. The rows of the last stage aren't looked up. Texts are hashed under the keys.
pub fn known_of(
    alloc: Global,
    keys: Keys,
    stage: &Stage,
    last: bool,
    rows: Lines,
) -> Result<Known, AllocError>
    ensures { IfOk result (λ known. known ≡ rows) }
{
    let sought = if last || rows.as_slice().len() <= FEW {
        Lookup::Nowhere
    } else {
        lookup_in(alloc, keys, stage, rows.as_slice())?
    };
    Ok(Known { rows, sought })
}

// A level within `subquery` has whole rows, which are looked up by node.
fn lookup_in(alloc: Global, keys: Keys, stage: &Stage, rows: &[Cells]) -> Result<Lookup, AllocError>
    ensures { IfOk result (IsLookupIn rows.now) }
{
    match stage.shape {
        Shape::Whole => Ok(Lookup::ByNode(stage.entity, by_node(alloc, keys, stage.entity, rows)?)),
        Shape::Answers(..) => Ok(Lookup::ByCells(by_cells(alloc, keys, rows)?)),
    }
}

/// The rows of facts, indexed by node.
pub fn fact_rows(alloc: Global, keys: Keys, rows: Lines) -> Result<FactRows, AllocError>
    ensures { IfOk result (λ facts. facts ≡ rows) }
{
    let nodes = by_node(alloc, keys, Some(Entity::Facts), rows.as_slice())?;
    Ok(FactRows { rows, nodes })
}

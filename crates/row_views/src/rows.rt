//! Lists rows that the tables keep.
ghost use Rattle.std.specs.Prelude.{◌≡◌, ◌++◌, ◌∷◌, [], length, map, IfOk, OnErr, OnOk, true};
ghost use Rattle.row_views.specs.Narrow.{shown_as};

use crate::row::KeptRow;
use crate::view::View;
use fleet_tables::fleet_rows::Entity;
use paging_text::Lines;
use std::alloc::{AllocError, Global};
use std::marker::Model;

/// A list of rows. Contracts see the lists of their cells.
#[derive(Drop)]
pub struct KeptRows<'t> {
    list: Vec<KeptRow<'t>>,
}

impl<'t> Model for KeptRows<'t> {
    ghost use Rattle.std.specs.Prelude.{List};
    ghost use Rattle.fleet_tables.specs.fleet_rows.Cell.{CellValue};

    ghost Value = { List (List CellValue) };

    ghost use Rattle.std.specs.Coded.{coded_list, coded⊎, coded_ℤ};
    ghost use Rattle.same_text.specs.text_spec.JsonCode.{coded_json};

    ghost coded = { coded_list (coded_list (coded⊎ coded_ℤ coded_json)) };

    ghost view = { λ a. a.list.items };
}

/// The rows as they are seen: narrow or whole.
pub fn views_of<'a>(
    alloc: Global,
    rows: &'a [KeptRow<'_>],
    entity: Entity,
    narrow: bool,
) -> Result<Vec<View<'a>>, AllocError>
    ensures { IfOk result (λ views. views.items ≡ map (shown_as narrow entity) rows.now) }
{
    let mut views = Vec::with_capacity(alloc, rows.len())?;
    for row in rows {
        views.push(row.view(alloc, entity, narrow)?)?;
    }
    Ok(views)
}

fn lines_of(alloc: Global, rows: Vec<KeptRow<'_>>) -> Result<Lines, AllocError>
    ensures { IfOk result (λ lines. lines ≡ rows.entry.items) }
{
    let mut lines = Lines::new(alloc);
    'making: for row in rows {
        lines.push(row.into_cells(alloc)?)?;
    }
    Ok(lines)
}

fn narrow_lines(alloc: Global, rows: &[KeptRow<'_>], entity: Entity) -> Result<Lines, AllocError>
    ensures { IfOk result (λ lines. lines ≡ map (shown_as true entity) rows.now) }
{
    let mut lines = Lines::new(alloc);
    for row in rows {
        let view = row.view(alloc, entity, true)?;
        lines.push(view.into_cells(alloc)?)?;
    }
    Ok(lines)
}

impl<'t> KeptRows<'t> {
    /// No rows. It allocates no memory.
    pub fn new(alloc: Global) -> KeptRows<'t>
        ensures { result ≡ [] }
    {
        KeptRows {
            list: Vec::new(alloc),
        }
    }

    /// Appends a row. On an error the list is unchanged and the row is dropped.
    pub fn push(&mut self, row: KeptRow<'t>) -> Result<(), AllocError>
        ensures ok { OnOk result (self.new ≡ self.old ++ row.entry ∷ []) }
        ensures err { OnErr result (self.new ≡ self.old) }
    {
        self.list.push(row)?;
        Ok(())
    }

    /// The number of rows.
    pub fn len(&self) -> usize
        ensures { result ≡ length self.now }
    {
        self.list.len()
    }

    /// The rows, made whole.
    pub fn into_lines(self, alloc: Global) -> Result<Lines, AllocError>
        ensures { IfOk result (λ lines. lines ≡ self.entry) }
    {
        let KeptRows { list } = self;
        lines_of(alloc, list)
    }

    /// What is seen of the rows by reference, copied.
    pub fn narrow_lines(&self, alloc: Global, entity: Entity) -> Result<Lines, AllocError>
        ensures { IfOk result (λ lines. lines ≡ map (shown_as true entity) self.now) }
    {
        narrow_lines(alloc, self.list.as_slice(), entity)
    }

    /// The rows as they are seen: narrow or whole.
    pub fn views(
        &self,
        alloc: Global,
        entity: Entity,
        narrow: bool,
    ) -> Result<Vec<View<'_>>, AllocError>
        ensures { IfOk result (λ views. views.items ≡ map (shown_as narrow entity) self.now) }
    {
        views_of(alloc, self.list.as_slice(), entity, narrow)
    }
}

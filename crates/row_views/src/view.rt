//! Shows rows of the tables: a column is seen without a copy.
ghost use Rattle.std.specs.Prelude.{◌≡◌, [], Some, IfOk, map};
ghost use Rattle.fleet_tables.specs.fleet_rows.declared.row.Entity.TheVariants as entities;
ghost use Rattle.paging_text.specs.means_spec.Cells.{cell_in};
ghost use Rattle.row_views.specs.Held.{fact_values, resource_values, report_values};
ghost use Rattle.row_views.specs.Seen.{seen_value};

use crate::cells::cell_in;
use crate::seen::{
    Seen, all_copied, copied_cells, flag_or_null, moment_or_null, seen_among, seen_of, text_or_null,
};
use fleet_tables::fleet_rows::{CatalogChange, Cell, Cells, Entity, Resource};
use kept_nodes::HeldReport;
use same_text::json_tree::{Json, Text};
use std::alloc::{AllocError, Global};
use std::marker::Model;

/// A row as it is seen: whole, or with null in the columns that aren't seen by reference. Contracts see the list of its cells.
pub struct View<'t> {
    pub(crate) held: Held<'t>,
}

#[derive(Drop)]
pub(crate) enum Held<'t> {
    /// A fact where the tables keep it.
    Fact(FactRow<'t>),
    /// What is kept of a resource in columns.
    Resource(ResourceRow<'t>),
    /// What is kept of a report in columns.
    Report(&'t HeldReport),
    /// The cells of a row that was made.
    Lent(&'t [Cell]),
    /// A row that was made for the view.
    Made(Cells),
}

/// The columns of a fact, in order.
#[derive(Clone, Copy)]
pub(crate) struct FactRow<'t> {
    pub(crate) certname: &'t Text,
    pub(crate) environment: &'t Option<Text>,
    pub(crate) name: &'t Text,
    pub(crate) value: &'t Json,
}

/// A resource and its catalog.
#[derive(Clone, Copy)]
pub(crate) struct ResourceRow<'t> {
    pub(crate) change: &'t CatalogChange,
    pub(crate) resource: &'t Resource,
}

impl<'t> Model for View<'t> {
    ghost use Rattle.std.specs.Prelude.{List};
    ghost use Rattle.fleet_tables.specs.fleet_rows.Cell.{CellValue};
    ghost use Rattle.row_views.specs.Held.{held_cells};

    ghost Value = { List CellValue };

    ghost use Rattle.std.specs.Coded.{coded_list, coded⊎, coded_ℤ};
    ghost use Rattle.same_text.specs.text_spec.JsonCode.{coded_json};

    ghost coded = { coded_list (coded⊎ coded_ℤ coded_json) };

    ghost view = { λ a. held_cells a.held };
}

// Written by hand, so that callers who drop a view needn't know how it is stored.
impl<'t> Drop for View<'t> {
    fn drop(self) {
        let View { held } = self;
        drop(held);
    }
}

// ---- what is seen by reference

fn fact_seen<'a>(fact: &FactRow<'a>) -> [Seen<'a>; 4]
    ensures { map seen_value result ≡ fact_values fact.now }
{
    [
        Seen::Text(fact.certname),
        text_or_null(fact.environment),
        Seen::Text(fact.name),
        Seen::Value(fact.value),
    ]
}

fn resource_seen<'a>(row: &ResourceRow<'a>) -> [Seen<'a>; 10]
    ensures { map seen_value result ≡ resource_values row.now }
{
    let change = row.change;
    let resource = row.resource;
    [
        Seen::Text(&change.certname),
        text_or_null(&change.environment),
        Seen::Flag(resource.exported),
        text_or_null(&resource.file),
        Seen::Null,
        Seen::Null,
        Seen::Null,
        Seen::Null,
        Seen::Text(&resource.title),
        Seen::Text(&resource.rtype),
    ]
}

fn report_seen(held: &HeldReport) -> [Seen<'_>; 17]
    ensures { map seen_value result ≡ report_values held.now }
{
    let report = held.report();
    let change = &report.change;
    [
        Seen::Text(change.certname()),
        text_or_null(change.configuration_version()),
        moment_or_null(change.end_time()),
        text_or_null(change.environment()),
        Seen::Null,
        Seen::Null,
        Seen::Null,
        flag_or_null(change.noop()),
        text_or_null(change.producer()),
        Seen::Stamp(change.stamp().as_nanosecond()),
        text_or_null(change.puppet_version()),
        moment_or_null(report.received),
        Seen::Null,
        Seen::Null,
        moment_or_null(change.start_time()),
        text_or_null(change.status()),
        text_or_null(change.transaction_uuid()),
    ]
}

// The value in the column with this name of an entity whose rows show these values.
fn seen_in<'a>(entity: Option<Entity>, name: &str, row: &[Seen<'a>]) -> Seen<'a>
    ensures { seen_value result ≡ cell_in entity name.now (map seen_value row.now) }
{
    match entity {
        None => Seen::Null,
        Some(entity) => seen_among(entity.columns(), name, row),
    }
}

// The same of a fact. The columns that queries name most are found without a list of all.
fn seen_in_fact<'a>(fact: &FactRow<'a>, entity: Option<Entity>, name: &str) -> Seen<'a>
    ensures { seen_value result ≡ cell_in entity name.now (fact_values fact.now) }
{
    match entity {
        Some(Entity::Facts) => fact_column(fact, name),
        _ => seen_in(entity, name, &fact_seen(fact)),
    }
}

fn fact_column<'a>(fact: &FactRow<'a>, name: &str) -> Seen<'a>
    ensures { seen_value result ≡ cell_in (Some entities.Facts) name.now (fact_values fact.now) }
{
    match name {
        "name" => Seen::Text(fact.name),
        "value" => Seen::Value(fact.value),
        "certname" => Seen::Text(fact.certname),
        _ => seen_in(Some(Entity::Facts), name, &fact_seen(fact)),
    }
}

// The same of a resource.
fn seen_in_resource<'a>(row: &ResourceRow<'a>, entity: Option<Entity>, name: &str) -> Seen<'a>
    ensures { seen_value result ≡ cell_in entity name.now (resource_values row.now) }
{
    match entity {
        Some(Entity::Resources) => resource_column(row, name),
        _ => seen_in(entity, name, &resource_seen(row)),
    }
}

fn resource_column<'a>(row: &ResourceRow<'a>, name: &str) -> Seen<'a>
    ensures { seen_value result ≡ cell_in (Some entities.Resources) name.now (resource_values row.now) }
{
    match name {
        "type" => Seen::Text(&row.resource.rtype),
        "title" => Seen::Text(&row.resource.title),
        "certname" => Seen::Text(&row.change.certname),
        _ => seen_in(Some(Entity::Resources), name, &resource_seen(row)),
    }
}

// The same of a report.
fn seen_in_report<'a>(held: &'a HeldReport, entity: Option<Entity>, name: &str) -> Seen<'a>
    ensures { seen_value result ≡ cell_in entity name.now (report_values held.now) }
{
    match entity {
        Some(entity) => seen_of_report(held, entity, name),
        None => seen_in(None, name, &report_seen(held)),
    }
}

fn seen_of_report<'a>(held: &'a HeldReport, entity: Entity, name: &str) -> Seen<'a>
    ensures { seen_value result ≡ cell_in (Some entity) name.now (report_values held.now) }
{
    match entity {
        Entity::Reports => report_column(held, name),
        _ => seen_in(Some(entity), name, &report_seen(held)),
    }
}

fn report_column<'a>(held: &'a HeldReport, name: &str) -> Seen<'a>
    ensures { seen_value result ≡ cell_in (Some entities.Reports) name.now (report_values held.now) }
{
    match name {
        "certname" => Seen::Text(held.report().change.certname()),
        "status" => text_or_null(held.report().change.status()),
        _ => seen_in(Some(Entity::Reports), name, &report_seen(held)),
    }
}

/// The cells of a fact, copied.
pub(crate) fn cells_of_fact(alloc: Global, fact: &FactRow<'_>) -> Result<Cells, AllocError>
    ensures { IfOk result (λ cells. cells ≡ fact_values fact.now) }
{
    all_copied(alloc, &fact_seen(fact))
}

impl<'t> View<'t> {
    /// A row without cells.
    pub fn none() -> View<'t>
        ensures { result ≡ [] }
    {
        View {
            held: Held::Lent(&[]),
        }
    }

    /// The value in the column with this name, or null if the entity has no such column.
    pub fn seen(&self, entity: Option<Entity>, name: &str) -> Seen<'_>
        ensures { seen_value result ≡ cell_in entity name.now self.now }
    {
        match &self.held {
            Held::Fact(fact) => seen_in_fact(fact, entity, name),
            Held::Resource(row) => seen_in_resource(row, entity, name),
            Held::Report(report) => seen_in_report(report, entity, name),
            Held::Lent(cells) => seen_of(cell_in(entity, name, cells)),
            Held::Made(cells) => seen_of(cell_in(entity, name, cells.as_slice())),
        }
    }

    /// The cells of the view. Those that aren't the view's own are copied.
    pub fn into_cells(self, alloc: Global) -> Result<Cells, AllocError>
        ensures { IfOk result (λ cells. cells ≡ self.entry) }
    {
        let View { held } = self;
        match held {
            Held::Fact(fact) => cells_of_fact(alloc, &fact),
            Held::Resource(row) => all_copied(alloc, &resource_seen(&row)),
            Held::Report(report) => all_copied(alloc, &report_seen(report)),
            Held::Lent(cells) => copied_cells(alloc, cells),
            Held::Made(cells) => Ok(cells),
        }
    }
}

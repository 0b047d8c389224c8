//! Makes the row of a node.
ghost use Rattle.std.specs.Prelude.{◌≡◌, [], ◌∷◌, IfOk, map};
ghost use Rattle.table_spec.specs.fleet_rows.declared.row.Entity.TheVariants as entity;
ghost use Rattle.table_spec.specs.Rows.{environment_cell, timestamp_cell};
ghost use Rattle.row_cells.specs.Nodes.{facts_of, catalog_of, head_cells, cells_with_head};
ghost use Rattle.row_cells.specs.Rows.{IsRow};
ghost use Rattle.row_cells.specs.Shown.{shown_cell};

use crate::shown::{Shown, append};
use std::alloc::{AllocError, Global};
use table_spec::fleet_rows::{CatalogChange, Cells, Entity, FactsChange, Row};
use table_spec::json_tree::Text;
use table_spec::stamp_time::Moment;

/// What the row of a node shows of its latest report. So a report whose lists are packed need not be unpacked for the row.
#[derive(Clone, Copy, Drop)]
pub struct ReportHead<'a> {
    /// The hash of the report.
    pub digest: &'a Text,
    pub noop: Option<bool>,
    pub status: &'a Option<Text>,
    pub environment: &'a Option<Text>,
    pub stamp: Moment,
}

/// The row of a node: when it was deactivated and expired, its newest facts and catalog, and the head of its latest report.
pub fn node_row(
    alloc: Global,
    certname: &Text,
    deactivated: Option<Moment>,
    expired: Option<Moment>,
    facts: Option<&FactsChange>,
    catalog: Option<&CatalogChange>,
    report: &Option<ReportHead>,
) -> Result<Row, AllocError>
    ensures { IfOk result (λ row. IsRow row entity.Nodes
        (cells_with_head certname.now deactivated expired (facts_of facts.entry) (catalog_of catalog.entry) report.now)) }
{
    let mut cells = Cells::with_capacity(alloc, 12)?;
    append(alloc, &mut cells, &catalog_columns(catalog))?;
    let state = [
        Shown::Text(certname),
        Shown::OptionalStamp(deactivated),
        Shown::OptionalStamp(expired),
    ];
    append(alloc, &mut cells, &state)?;
    append(alloc, &mut cells, &facts_columns(facts))?;
    append(alloc, &mut cells, &report_columns(report))?;
    Ok(Row {
        entity: Entity::Nodes,
        cells,
    })
}

// The environment and the timestamp of a catalog.
fn catalog_columns<'a>(catalog: Option<&'a CatalogChange>) -> [Shown<'a>; 2]
    ensures { let x = catalog_of catalog.entry in
        map shown_cell result ≡ environment_cell x ∷ timestamp_cell x ∷ [] }
{
    match catalog {
        Some(change) => [
            Shown::OptionalText(&change.environment),
            Shown::Stamp(change.stamp),
        ],
        None => [Shown::Null, Shown::Null],
    }
}

// The environment and the timestamp of facts.
fn facts_columns<'a>(facts: Option<&'a FactsChange>) -> [Shown<'a>; 2]
    ensures { let x = facts_of facts.entry in
        map shown_cell result ≡ environment_cell x ∷ timestamp_cell x ∷ [] }
{
    match facts {
        Some(change) => [
            Shown::OptionalText(&change.environment),
            Shown::Stamp(change.stamp),
        ],
        None => [Shown::Null, Shown::Null],
    }
}

// The hash, the noop flag, the status, the environment and the timestamp of a report.
fn report_columns<'a>(report: &Option<ReportHead<'a>>) -> [Shown<'a>; 5]
    ensures { map shown_cell result ≡ head_cells report.now }
{
    match report {
        Some(head) => [
            Shown::Text(head.digest),
            Shown::OptionalFlag(head.noop),
            Shown::OptionalText(head.status),
            Shown::OptionalText(head.environment),
            Shown::Stamp(head.stamp),
        ],
        None => [
            Shown::Null,
            Shown::Null,
            Shown::Null,
            Shown::Null,
            Shown::Null,
        ],
    }
}

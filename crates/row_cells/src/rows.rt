//! Makes the rows of one command.
ghost use Rattle.std.specs.Prelude.{◌≡◌, ◌<◌, length, Some, IfOk, map, option_map, slice_get};
ghost use Rattle.table_spec.specs.fleet_rows.declared.row.Entity.TheVariants as entity;
ghost use Rattle.table_spec.specs.history_spec.Report.{report_object};
ghost use Rattle.table_spec.specs.Cells.{hash, factset_object, factset_cells, fact_cells, resource_object, resource_cells, edge_cells};
ghost use Rattle.table_spec.specs.Cells.{catalog_object, catalog_cells, report_cells};
ghost use Rattle.row_cells.specs.Rows.{IsRow, member_cells};
ghost use Rattle.row_cells.specs.Shown.{shown_cell};

use crate::relationship::relationship_name;
use crate::shown::{Shown, cells};
use std::alloc::{AllocError, Global};
use table_spec::fleet_rows::{
    CatalogChange, Edge, Entity, FactsChange, ReportChange, Resource, Row,
};
use table_spec::json_tree::Text;
use table_spec::stamp_time::Moment;

/// The row of a node's facts as a whole. `digest` is the hash of its other columns.
pub fn factset_row<'a>(
    alloc: Global,
    change: &'a FactsChange,
    digest: &'a Text,
) -> Result<Row, AllocError>
    requires { digest.now ≡ hash (factset_object change.now) }
    ensures { IfOk result (λ row. IsRow row entity.Factsets (factset_cells change.now)) }
{
    row(
        alloc,
        Entity::Factsets,
        &[
            Shown::Text(&change.certname),
            Shown::OptionalText(&change.environment),
            Shown::Object(&change.values),
            Shown::Text(digest),
            Shown::OptionalText(&change.producer),
            Shown::Stamp(change.stamp),
        ],
    )
}

/// The row of the fact at this index.
pub fn fact_row(alloc: Global, change: &FactsChange, place: usize) -> Result<Row, AllocError>
    requires { place < length change.now.values }
    ensures { IfOk result (λ row. (row.entity ≡ entity.Facts) × (Some row.cells ≡ option_map (member_cells change.now) (slice_get change.now.values place))) }
{
    let (name, value) = change.values.pair(place);
    row(
        alloc,
        Entity::Facts,
        &[
            Shown::Text(&change.certname),
            Shown::OptionalText(&change.environment),
            Shown::Text(name),
            Shown::Value(value),
        ],
    )
}

/// The row of a node's catalog. `digest` is the hash of its other columns, its resources and its edges.
pub fn catalog_row<'a>(
    alloc: Global,
    change: &'a CatalogChange,
    digest: &'a Text,
) -> Result<Row, AllocError>
    requires { digest.now ≡ hash (catalog_object change.now) }
    ensures { IfOk result (λ row. IsRow row entity.Catalogs (catalog_cells change.now)) }
{
    row(
        alloc,
        Entity::Catalogs,
        &[
            Shown::OptionalText(&change.catalog_uuid),
            Shown::Text(&change.certname),
            Shown::OptionalText(&change.code_id),
            Shown::OptionalText(&change.environment),
            Shown::Text(digest),
            Shown::OptionalText(&change.job_id),
            Shown::OptionalText(&change.producer),
            Shown::Stamp(change.stamp),
            Shown::OptionalText(&change.transaction_uuid),
            Shown::Text(&change.version),
        ],
    )
}

/// The row of a resource of the catalog. `digest` is the hash of the resource's own columns.
pub fn resource_row<'a>(
    alloc: Global,
    change: &'a CatalogChange,
    resource: &'a Resource,
    digest: &'a Text,
) -> Result<Row, AllocError>
    requires { digest.now ≡ hash (resource_object resource.now) }
    ensures { IfOk result (λ row. IsRow row entity.Resources (resource_cells change.now resource.now)) }
{
    row(
        alloc,
        Entity::Resources,
        &[
            Shown::Text(&change.certname),
            Shown::OptionalText(&change.environment),
            Shown::Flag(resource.exported),
            Shown::OptionalText(&resource.file),
            Shown::OptionalNumber(resource.line),
            Shown::Object(&resource.parameters),
            Shown::Text(digest),
            Shown::Tags(resource.tags.as_slice()),
            Shown::Text(&resource.title),
            Shown::Text(&resource.rtype),
        ],
    )
}

/// The row of an edge of the catalog.
pub fn edge_row<'a>(
    alloc: Global,
    change: &'a CatalogChange,
    edge: &'a Edge,
) -> Result<Row, AllocError>
    ensures { IfOk result (λ row. IsRow row entity.Edges (edge_cells change.now edge.now)) }
{
    row(
        alloc,
        Entity::Edges,
        &[
            Shown::Text(&change.certname),
            Shown::Word(relationship_name(edge.relationship)),
            Shown::Text(&edge.source.title),
            Shown::Text(&edge.source.rtype),
            Shown::Text(&edge.target.title),
            Shown::Text(&edge.target.rtype),
        ],
    )
}

/// The row of a report. `received` is the moment at which it was received, if it is known. `digest` is the hash of its other
/// columns without `receive_time`.
pub fn report_row<'a>(
    alloc: Global,
    received: Option<Moment>,
    change: &'a ReportChange,
    digest: &'a Text,
) -> Result<Row, AllocError>
    requires { digest.now ≡ hash (report_object change.now) }
    ensures { IfOk result (λ row. IsRow row entity.Reports (report_cells received change.now)) }
{
    row(
        alloc,
        Entity::Reports,
        &[
            Shown::Text(&change.certname),
            Shown::OptionalText(&change.configuration_version),
            Shown::OptionalStamp(change.end_time),
            Shown::OptionalText(&change.environment),
            Shown::Text(digest),
            Shown::List(&change.logs),
            Shown::List(&change.metrics),
            Shown::OptionalFlag(change.noop),
            Shown::OptionalText(&change.producer),
            Shown::Stamp(change.stamp),
            Shown::OptionalText(&change.puppet_version),
            Shown::OptionalStamp(received),
            Shown::OptionalNumber(change.report_format),
            Shown::List(&change.resources),
            Shown::OptionalStamp(change.start_time),
            Shown::OptionalText(&change.status),
            Shown::OptionalText(&change.transaction_uuid),
        ],
    )
}

// The row with these columns.
pub(crate) fn row(alloc: Global, entity: Entity, columns: &[Shown]) -> Result<Row, AllocError>
    ensures { IfOk result (λ row. IsRow row entity (map shown_cell columns.now)) }
{
    let cells = cells(alloc, columns)?;
    Ok(Row { entity, cells })
}

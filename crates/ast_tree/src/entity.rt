//! Finds entities and columns by their names.
ghost use Rattle.std.specs.Prelude.{◌≡◌, None};
ghost use Rattle.query_spec.specs.fleet_rows.Columns.{columns_of, first_named};
ghost use Rattle.query_spec.specs.Check.{entity_named, column_named, is_stamp_column, shows_moments, has_parameters, has_facts, columns_shown};

use query_spec::fleet_rows::{Column, Entity};

/// The entity with this name, after PuppetDB's query API v4, "Entities". None for an entity that a query may not name.
#[tactic(auto, unfolding(query_spec::specs::Check::entity_named))]
pub fn entity_of(name: &str) -> Option<Entity>
    ensures { result ≡ entity_named name.now }
{
    if name == "nodes" {
        Some(Entity::Nodes)
    } else if name == "factsets" {
        Some(Entity::Factsets)
    } else if name == "facts" {
        Some(Entity::Facts)
    } else if name == "catalogs" {
        Some(Entity::Catalogs)
    } else if name == "resources" {
        Some(Entity::Resources)
    } else if name == "edges" {
        Some(Entity::Edges)
    } else if name == "reports" {
        Some(Entity::Reports)
    } else {
        None
    }
}

fn first_named(columns: &[Column], name: &str) -> Option<Column>
    ensures { result ≡ first_named name.now columns.now }
{
    for column in columns {
        if column.name() == name {
            return Some(*column);
        }
    }
    None
}

/// The entity's column with this name, or None. Without an entity there are no columns.
pub(crate) fn column_named(entity: Option<Entity>, name: &str) -> Option<Column>
    ensures { result ≡ column_named entity name.now }
{
    match entity {
        None => None,
        Some(entity) => first_named(entity.columns(), name),
    }
}

/// Whether the column's cells are moments.
pub fn is_stamp_column(column: Column) -> bool
    ensures { result ≡ is_stamp_column column }
{
    match column {
        Column::CatalogTimestamp | Column::Deactivated | Column::EndTime => true,
        Column::Expired | Column::FactsTimestamp | Column::ProducerTimestamp => true,
        Column::ReceiveTime | Column::ReportTimestamp | Column::StartTime => true,
        Column::Timestamp => true,
        _ => false,
    }
}

pub(crate) fn shows_moments(column: Option<Column>) -> bool
    ensures { result ≡ shows_moments column }
{
    match column {
        None => false,
        Some(column) => is_stamp_column(column),
    }
}

pub(crate) fn has_parameters(entity: Option<Entity>) -> bool
    ensures { result ≡ has_parameters entity }
{
    match entity {
        Some(Entity::Resources) => true,
        _ => false,
    }
}

pub(crate) fn has_facts(entity: Option<Entity>) -> bool
    ensures { result ≡ has_facts entity }
{
    match entity {
        Some(Entity::Nodes) => true,
        _ => false,
    }
}

/// The number of columns of the entity's rows.
pub(crate) fn count_of_columns(entity: Option<Entity>) -> usize
    ensures { result ≡ columns_shown entity None }
{
    match entity {
        None => 0,
        Some(entity) => entity.columns().len(),
    }
}

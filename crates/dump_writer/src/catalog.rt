//! Writes the payload of a catalog.
ghost use Rattle.std.specs.Prelude.{◌≡◌, ◌++◌, OnOk, map};
ghost use Rattle.std.specs.List.{AllByRecursion};
ghost use Rattle.dump_laws.specs.dump_spec.history_spec.Lawful.{IsCatalogChange, IsResource};
ghost use Rattle.dump_laws.specs.dump_spec.text_spec.Compact.{compact};
ghost use Rattle.dump_laws.specs.dump_spec.text_spec.Json.{string};
ghost use Rattle.dump_laws.specs.dump_spec.wire_spec.Table.{relationship_name};
ghost use Rattle.dump_laws.specs.dump_spec.Payloads.{dictionary, list, name_fields, edge_fields, edge_value, resource_fields, resource_value, catalog_fields};

use crate::fields::{put_dictionary, put_fields, put_name};
use crate::shown::{Shown, put_comma};
use fleet_rows::json_tree::append_quoted;
use fleet_rows::{CatalogChange, Edge, Relationship, Resource, ResourceName};
use std::alloc::AllocError;

/// Appends the payload of the catalog.
pub(crate) fn put_catalog(out: &mut Vec<u8>, catalog: &CatalogChange) -> Result<(), AllocError>
    requires { IsCatalogChange catalog.now }
    ensures { OnOk result (out.new.items ≡ out.old.items ++ compact (dictionary (catalog_fields catalog.now))) }
{
    out.push(b'{')?;
    put_fields(
        out,
        &[
            ("certname", Shown::Text(&catalog.certname)),
            ("version", Shown::Text(&catalog.version)),
            ("environment", Shown::OptionalText(&catalog.environment)),
            (
                "transaction_uuid",
                Shown::OptionalText(&catalog.transaction_uuid),
            ),
            ("catalog_uuid", Shown::OptionalText(&catalog.catalog_uuid)),
            ("code_id", Shown::OptionalText(&catalog.code_id)),
            ("job_id", Shown::OptionalText(&catalog.job_id)),
            ("producer_timestamp", Shown::Stamp(catalog.stamp)),
            ("producer", Shown::OptionalText(&catalog.producer)),
        ],
    )?;
    put_name(out, true, "edges")?;
    put_edges(out, catalog.edges.as_slice())?;
    put_name(out, true, "resources")?;
    put_resources(out, catalog.resources.as_slice())?;
    out.push(b'}')?;
    Ok(())
}

fn put_edges(out: &mut Vec<u8>, edges: &[Edge]) -> Result<(), AllocError>
    ensures { OnOk result (out.new.items ≡ out.old.items ++ compact (list (map edge_value edges.now))) }
{
    out.push(b'[')?;
    let mut later = false;
    for edge in edges {
        put_comma(out, later)?;
        put_edge(out, edge)?;
        later = true;
    }
    out.push(b']')?;
    Ok(())
}

fn put_edge(out: &mut Vec<u8>, edge: &Edge) -> Result<(), AllocError>
    ensures { OnOk result (out.new.items ≡ out.old.items ++ compact (edge_value edge.now)) }
{
    out.push(b'{')?;
    put_name(out, false, "source")?;
    put_resource_name(out, &edge.source)?;
    put_name(out, true, "target")?;
    put_resource_name(out, &edge.target)?;
    put_name(out, true, "relationship")?;
    put_relationship(out, edge.relationship)?;
    out.push(b'}')?;
    Ok(())
}

fn put_resource_name(out: &mut Vec<u8>, name: &ResourceName) -> Result<(), AllocError>
    ensures { OnOk result (out.new.items ≡ out.old.items ++ compact (dictionary (name_fields name.now))) }
{
    put_dictionary(
        out,
        &[
            ("type", Shown::Text(&name.rtype)),
            ("title", Shown::Text(&name.title)),
        ],
    )
}

fn put_relationship(out: &mut Vec<u8>, relationship: Relationship) -> Result<(), AllocError>
    ensures { OnOk result (out.new.items ≡ out.old.items ++ compact (string (relationship_name relationship))) }
{
    append_quoted(out, name_of(relationship))
}

fn name_of(relationship: Relationship) -> &'static str
    ensures { result.now ≡ relationship_name relationship }
{
    match relationship {
        Relationship::Contains => "contains",
        Relationship::Before => "before",
        Relationship::RequiredBy => "required-by",
        Relationship::Notifies => "notifies",
        Relationship::SubscriptionOf => "subscription-of",
    }
}

fn put_resources(out: &mut Vec<u8>, resources: &[Resource]) -> Result<(), AllocError>
    ensures { OnOk result (out.new.items ≡ out.old.items ++ compact (list (map resource_value resources.now))) }
{
    out.push(b'[')?;
    let mut later = false;
    for resource in resources {
        put_comma(out, later)?;
        put_resource(out, resource)?;
        later = true;
    }
    out.push(b']')?;
    Ok(())
}

fn put_resource(out: &mut Vec<u8>, resource: &Resource) -> Result<(), AllocError>
    ensures { OnOk result (out.new.items ≡ out.old.items ++ compact (resource_value resource.now)) }
{
    put_dictionary(
        out,
        &[
            ("type", Shown::Text(&resource.rtype)),
            ("title", Shown::Text(&resource.title)),
            ("exported", Shown::IfTrue(resource.exported)),
            ("file", Shown::OptionalText(&resource.file)),
            ("line", Shown::OptionalNumber(resource.line)),
            ("tags", Shown::IfTags(resource.tags.as_slice())),
            ("parameters", Shown::IfMembers(&resource.parameters)),
        ],
    )
}

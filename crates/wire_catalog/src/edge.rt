//! Reads one edge of a catalog.
ghost use Rattle.std.specs.Prelude.{◌≡◌, false};
ghost use Rattle.std.specs.Str.{bytes_eq};
ghost use Rattle.wire_fields.specs.json_tree.Tree.{json_of};
ghost use Rattle.wire_fields.specs.wire_spec.Refusals.{field_key};
ghost use Rattle.wire_fields.specs.wire_spec.Table.{edge, relationship_of, relationship_name};
ghost use Rattle.wire_catalog.specs.InOrder.{edge_in_order, end_named, end_in_order};

use wire_fields::fleet_rows::{Edge, Field, Refusal, Relationship, ResourceName};
use wire_fields::json_tree::{Json, Members, Text};
use wire_fields::{members, outer, required_members, required_text};

/// The edge at this index of the list, or the first refusal: of the source's type and title, the target's type and title, and the
/// relationship.
pub(crate) fn edge(index: u32, json: Json) -> Result<Edge, Refusal>
    ensures { result ≡ edge index (json_of json) }
{
    let mut json = members(outer(index, Field::Edges), json)?;
    let source = required_members(&mut json, outer(index, Field::Source));
    let target = required_members(&mut json, outer(index, Field::Target));
    let name = required_text(&mut json, outer(index, Field::Relationship));
    in_order(
        index,
        end(index, Field::SourceType, Field::SourceTitle, source),
        end(index, Field::TargetType, Field::TargetTitle, target),
        name,
    )
}

fn in_order(
    index: u32,
    source: Result<ResourceName, Refusal>,
    target: Result<ResourceName, Refusal>,
    name: Result<Text, Refusal>,
) -> Result<Edge, Refusal>
    ensures { result ≡ edge_in_order index source target name }
{
    let source = source?;
    let target = target?;
    let name = name?;
    let relationship = relationship_of(index, name.as_str())?;
    Ok(Edge {
        source,
        target,
        relationship,
    })
}

// One end of an edge.
fn end(
    index: u32,
    type_field: Field,
    title_field: Field,
    named: Result<Members, Refusal>,
) -> Result<ResourceName, Refusal>
    requires { bytes_eq (field_key title_field) (field_key type_field) ≡ false }
    ensures { result ≡ end_named index type_field title_field named }
{
    let mut named = named?;
    let rtype = required_text(&mut named, outer(index, type_field));
    let title = required_text(&mut named, outer(index, title_field));
    end_in_order(rtype, title)
}

fn end_in_order(
    rtype: Result<Text, Refusal>,
    title: Result<Text, Refusal>,
) -> Result<ResourceName, Refusal>
    ensures { result ≡ end_in_order rtype title }
{
    Ok(ResourceName {
        rtype: rtype?,
        title: title?,
    })
}

fn relationship_of(index: u32, name: &str) -> Result<Relationship, Refusal>
    ensures { result ≡ relationship_of index name.now }
{
    match name {
        "contains" => Ok(Relationship::Contains),
        "before" => Ok(Relationship::Before),
        "required-by" => Ok(Relationship::RequiredBy),
        "notifies" => Ok(Relationship::Notifies),
        "subscription-of" => Ok(Relationship::SubscriptionOf),
        _ => Err(Refusal::BadRelationship { index }),
    }
}

/// The name of a relationship in the wire format.
pub fn relationship_name(relationship: Relationship) -> &'static str
    ensures { result.now ≡ relationship_name relationship }
{
    match relationship {
        Relationship::Contains => "contains",
        Relationship::Before => "before",
        Relationship::RequiredBy => "required-by",
        Relationship::Notifies => "notifies",
        Relationship::SubscriptionOf => "subscription-of",
    }
}

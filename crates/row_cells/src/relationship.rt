//! The names of relationships.
ghost use Rattle.std.specs.Prelude.{◌≡◌};
ghost use Rattle.table_spec.specs.wire_spec.Table.{relationship_name};

use table_spec::fleet_rows::{Edge, Relationship};

/// The name of a relationship in a payload.
pub(crate) fn relationship_name(relationship: Relationship) -> &'static str
    ensures { result.now ≡ relationship_name relationship }
{
    match relationship {
        Relationship::Contains => "contains",
        Relationship::Before => "before",
        Relationship::RequiredBy => "required-by",
        Relationship::Notifies => "notifies",
        Relationship::SubscriptionOf => "subscription-of",
    }
}

/// The name of an edge's relationship, with the lifetime of the edge.
pub(crate) fn edge_name<'a>(edge: &'a Edge) -> &'a str
    ensures { result.now ≡ relationship_name edge.now.relationship }
{
    relationship_name(edge.relationship)
}

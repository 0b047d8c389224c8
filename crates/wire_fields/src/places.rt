//! Makes the places of fields.
ghost use Rattle.std.specs.Prelude.{◌≡◌};
ghost use Rattle.wire_spec.specs.Table.{top, outer, inner};

use wire_spec::fleet_rows::{Field, Place};

/// A field of the payload itself, or of a nested object that is no list element.
pub fn top(field: Field) -> Place
    ensures { result ≡ top field }
{
    Place {
        field,
        outer: None,
        inner: None,
    }
}

/// An element of the list named by the field, or a field of such an element: a resource, an edge, a log or a metric.
pub fn outer(index: u32, field: Field) -> Place
    ensures { result ≡ outer index field }
{
    Place {
        field,
        outer: Some(index),
        inner: None,
    }
}

/// An element of a list inside another element, or a field of it: a tag or an event of a resource.
pub fn inner(index: u32, within: u32, field: Field) -> Place
    ensures { result ≡ inner index within field }
{
    Place {
        field,
        outer: Some(index),
        inner: Some(within),
    }
}

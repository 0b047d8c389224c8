//! Builds the left side of `in` from names.
ghost use Rattle.std.specs.Prelude.{◌≡◌, [], ◌∷◌, ◌++◌, IfOk, map};
ghost use Rattle.query_spec.specs.Parts as part;

use ast_tree::{Field, Fields, Name};
use std::alloc::{AllocError, Global};

/// The field with this name. `tag` and `node_state` are fields, but no columns.
#[tactic(auto, unfolding(query_spec::specs::Parts::field_named))]
pub fn field_named(name: Name) -> Field
    ensures { result ≡ part.field_named name }
{
    if name.text.as_str() == "tag" {
        Field::Tag(name.place)
    } else if name.text.as_str() == "node_state" {
        Field::NodeState(name.place)
    } else {
        Field::Column(name)
    }
}

/// Appends a name.
pub fn more(names: Vec<Name>, name: Name) -> Result<Vec<Name>, AllocError>
    ensures { IfOk result (λ all. all.items ≡ names.items ++ name ∷ []) }
{
    let mut names = names;
    names.push(name)?;
    Ok(names)
}

/// The fields with these names.
pub fn fields_of(alloc: Global, names: Vec<Name>) -> Result<Fields, AllocError>
    ensures { IfOk result (λ fields. fields ≡ map part.field_named names.items) }
{
    let mut fields = Fields::new(alloc);
    'names: for name in names {
        fields.push(field_named(name))?;
    }
    Ok(fields)
}

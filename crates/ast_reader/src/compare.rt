//! Reads the filters that compare.
ghost use Rattle.std.specs.Prelude.{◌≡◌, ◌+◌, ◌<◌, ◌≤◌, length};
ghost use Rattle.json_read.specs.text_spec.Json.{items_of, item, no_items};
ghost use Rattle.json_read.specs.json_tree.Tree.{json_of, jsons};
ghost use Rattle.query_spec.specs.Ast as ast;
ghost use Rattle.ast_tree.specs.Tree.{filter_of};
ghost use Rattle.ast_parts.specs.Gives.{Gives};

use ast_parts::{Elements, FormFault, elements_of, field, literal, pattern, refused, truth};
use ast_tree::Filter;
use json_read::json_tree::Json;
use query_spec::{Field, Op, Place};
use std::alloc::Global;

/// Reads a comparison after its operator.
pub(crate) fn compared(
    alloc: Global,
    op: Op,
    rest: &[Json],
    place: &Place,
) -> Result<Filter, FormFault>
    requires { length place.now < 127 }
    ensures { Gives filter_of result (ast.compared_at op place.now (items_of (jsons rest.now))) }
{
    match elements_of(rest) {
        Elements::Two(left, right) => comparison(alloc, op, left, right, place),
        _ => Err(refused(alloc, place)),
    }
}

// Drops the field if the right side can't be read.
fn let_field_go(_field: Field) {}

fn comparison(
    alloc: Global,
    op: Op,
    left: &Json,
    right: &Json,
    place: &Place,
) -> Result<Filter, FormFault>
    requires { length place.now < 127 }
    ensures { Gives filter_of result (ast.compared_at op place.now (item (json_of left.now) (item (json_of right.now) no_items))) }
{
    let first = place.within(alloc, 1)?;
    let second = place.within(alloc, 2)?;
    let field = field(alloc, left, &first)?;
    match literal(alloc, right, second) {
        Ok(literal) => Ok(Filter::Compare(op, field, literal)),
        Err(fault) => {
            let_field_go(field);
            Err(fault)
        }
    }
}

/// Reads the operands of `~`.
pub(crate) fn matched(alloc: Global, rest: &[Json], place: &Place) -> Result<Filter, FormFault>
    requires { length place.now < 127 }
    ensures { Gives filter_of result (ast.matched_at place.now (items_of (jsons rest.now))) }
{
    match elements_of(rest) {
        Elements::Two(left, right) => matching(alloc, left, right, place),
        _ => Err(refused(alloc, place)),
    }
}

fn matching(alloc: Global, left: &Json, right: &Json, place: &Place) -> Result<Filter, FormFault>
    requires { length place.now < 127 }
    ensures { Gives filter_of result (ast.matched_at place.now (item (json_of left.now) (item (json_of right.now) no_items))) }
{
    let first = place.within(alloc, 1)?;
    let second = place.within(alloc, 2)?;
    let field = field(alloc, left, &first)?;
    match pattern(alloc, right, second) {
        Ok(pattern) => Ok(Filter::Matches(field, pattern)),
        Err(fault) => {
            let_field_go(field);
            Err(fault)
        }
    }
}

/// Reads the operands of `null?`.
pub(crate) fn null_test(alloc: Global, rest: &[Json], place: &Place) -> Result<Filter, FormFault>
    requires { length place.now < 127 }
    ensures { Gives filter_of result (ast.null_at place.now (items_of (jsons rest.now))) }
{
    match elements_of(rest) {
        Elements::Two(left, right) => nullness(alloc, left, right, place),
        _ => Err(refused(alloc, place)),
    }
}

fn nullness(alloc: Global, left: &Json, right: &Json, place: &Place) -> Result<Filter, FormFault>
    requires { length place.now < 127 }
    ensures { Gives filter_of result (ast.null_at place.now (item (json_of left.now) (item (json_of right.now) no_items))) }
{
    let first = place.within(alloc, 1)?;
    let second = place.within(alloc, 2)?;
    let field = field(alloc, left, &first)?;
    match truth(right, second) {
        Ok(value) => Ok(Filter::IsNull(field, value)),
        Err(fault) => {
            let_field_go(field);
            Err(fault)
        }
    }
}

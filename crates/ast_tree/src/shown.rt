//! Describes what a level shows: output columns and their names.
ghost use Rattle.std.specs.Prelude.{◌≡◌};
ghost use Rattle.std.specs.List.{list_any};
ghost use Rattle.std.specs.Option.{option_copied};
ghost use Rattle.query_spec.specs.Check as check;
ghost use Rattle.query_spec.specs.Parts as part;
ghost use Rattle.query_spec.specs.Words.{function_name};

use crate::entity::{column_named, count_of_columns};
use query_spec::fleet_rows::Entity;
use query_spec::{Function, Name, Order, Place, Selected, Selection};

/// The name of an output column.
pub fn output_name(selected: &Selected) -> &str
    ensures { result.now ≡ part.output_name selected.now }
{
    match selected {
        Selected::Column(name) => name.text.as_str(),
        Selected::Rows => "count",
        Selected::Function(function, _) => function_name(*function),
    }
}

/// The name of the function, which is also the name of its output.
pub fn function_name(function: Function) -> &'static str
    ensures { result.now ≡ function_name function }
{
    match function {
        Function::Count => "count",
        Function::Sum => "sum",
        Function::Min => "min",
        Function::Max => "max",
    }
}

/// Whether the output is a function over a group of rows.
pub fn is_function(selected: &Selected) -> bool
    ensures { result ≡ part.is_function selected.now }
{
    match selected {
        Selected::Column(_) => false,
        Selected::Rows | Selected::Function(_, _) => true,
    }
}

fn has_function(shown: &[Selected]) -> bool
    ensures { result ≡ list_any part.is_function shown.now }
{
    for selected in shown {
        if is_function(selected) {
            return true;
        }
    }
    false
}

/// Whether rows are grouped: a function is shown, or there are columns to group by.
pub fn makes_groups(shown: &[Selected], group: &[Name]) -> bool
    ensures { result ≡ check.makes_groups shown.now group.now }
{
    has_function(shown) || !group.is_empty()
}

/// Whether an output has this name.
pub fn has_output(shown: &[Selected], name: &str) -> bool
    ensures { result ≡ check.has_output shown.now name.now }
{
    for selected in shown {
        if output_name(selected) == name {
            return true;
        }
    }
    false
}

/// The outputs in order. The list is empty if all columns are shown.
pub fn shown_list(shown: &Option<Selection>) -> &[Selected]
    ensures { result.now ≡ check.shown_list shown.now }
{
    match shown {
        None => &[],
        Some(selection) => selection.as_slice(),
    }
}

fn width(shown: &[Selected]) -> usize
    ensures { result ≡ check.width shown.now }
{
    let mut count = 0;
    for i in 0..shown.len() {
        if !has_output(&shown[i + 1..], output_name(&shown[i])) {
            count += 1;
        }
    }
    count
}

/// The number of output columns. A column that occurs twice counts once.
pub(crate) fn columns_shown(entity: Option<Entity>, shown: &Option<Selection>) -> usize
    ensures { result ≡ check.columns_shown entity shown.now }
{
    match shown {
        None => count_of_columns(entity),
        Some(selection) => width(selection.as_slice()),
    }
}

fn unknown_name(entity: Option<Entity>, name: &Name) -> Option<&Place>
    ensures { option_copied result ≡ check.unknown_name entity name.now }
{
    if column_named(entity, name.text.as_str()).is_some() {
        None
    } else {
        Some(&name.place)
    }
}

pub(crate) fn unknown_names(entity: Option<Entity>, names: &[Name]) -> Option<&Place>
    ensures { option_copied result ≡ check.unknown_names entity names.now }
{
    for name in names {
        if let Some(place) = unknown_name(entity, name) {
            return Some(place);
        }
    }
    None
}

fn unknown_selected(entity: Option<Entity>, selected: &Selected) -> Option<&Place>
    ensures { option_copied result ≡ check.unknown_selected entity selected.now }
{
    match selected {
        Selected::Column(name) => unknown_name(entity, name),
        Selected::Rows => None,
        Selected::Function(_, name) => unknown_name(entity, name),
    }
}

pub(crate) fn unknown_shown(entity: Option<Entity>, shown: &[Selected]) -> Option<&Place>
    ensures { option_copied result ≡ check.unknown_shown entity shown.now }
{
    for selected in shown {
        if let Some(place) = unknown_selected(entity, selected) {
            return Some(place);
        }
    }
    None
}

fn unknown_outputs<'a>(shown: &[Selected], orders: &'a [Order]) -> Option<&'a Place>
    ensures { option_copied result ≡ check.unknown_outputs shown.now orders.now }
{
    for order in orders {
        if !has_output(shown, order.column.text.as_str()) {
            return Some(&order.column.place);
        }
    }
    None
}

fn unknown_columns(entity: Option<Entity>, orders: &[Order]) -> Option<&Place>
    ensures { option_copied result ≡ check.unknown_columns entity orders.now }
{
    for order in orders {
        if let Some(place) = unknown_name(entity, &order.column) {
            return Some(place);
        }
    }
    None
}

pub(crate) fn unknown_orders<'a>(
    entity: Option<Entity>,
    shown: &[Selected],
    group: &[Name],
    orders: &'a [Order],
) -> Option<&'a Place>
    ensures { option_copied result ≡ check.unknown_orders entity shown.now group.now orders.now }
{
    if makes_groups(shown, group) {
        unknown_outputs(shown, orders)
    } else {
        unknown_columns(entity, orders)
    }
}

fn is_grouped(group: &[Name], name: &str) -> bool
    ensures { result ≡ check.is_grouped group.now name.now }
{
    for column in group {
        if column.text.as_str() == name {
            return true;
        }
    }
    false
}

fn ungrouped_one<'a>(group: &[Name], selected: &'a Selected) -> Option<&'a Place>
    ensures { option_copied result ≡ check.ungrouped_one group.now selected.now }
{
    match selected {
        Selected::Column(name) => {
            if is_grouped(group, name.text.as_str()) {
                None
            } else {
                Some(&name.place)
            }
        }
        Selected::Rows | Selected::Function(_, _) => None,
    }
}

fn first_ungrouped<'a>(group: &[Name], shown: &'a [Selected]) -> Option<&'a Place>
    ensures { option_copied result ≡ check.first_ungrouped group.now shown.now }
{
    for selected in shown {
        if let Some(place) = ungrouped_one(group, selected) {
            return Some(place);
        }
    }
    None
}

/// The place of the first shown column that isn't one of the columns that rows are grouped by.
pub(crate) fn ungrouped<'a>(group: &[Name], shown: &'a [Selected]) -> Option<&'a Place>
    ensures { option_copied result ≡ check.ungrouped group.now shown.now }
{
    if makes_groups(shown, group) {
        first_ungrouped(group, shown)
    } else {
        None
    }
}

//! Walks over a query in preorder to the first fault of the sought kind.
ghost use Rattle.std.specs.Prelude.{◌≡◌, None};
ghost use Rattle.std.specs.Option.{option_copied};
ghost use Rattle.query_spec.specs.Check as check;
ghost use Rattle.query_spec.specs.Query as spec;
ghost use Rattle.ast_tree.specs.Tree.{filter_of, filters};

use crate::entity::entity_of;
use crate::operand::{array_fault, compared_fault, operand_fault, operands_fault, sides_fault};
use crate::shown::{
    columns_shown, shown_list, ungrouped, unknown_names, unknown_orders, unknown_shown,
};
use crate::tree::{Clause, Filter, Level};
use query_spec::fleet_rows::Entity;
use query_spec::{Fields, Literals, Name, Order, Place, Selected, Sought};

fn entity_fault(sought: Sought, name: &Name) -> Option<&Place>
    ensures { option_copied result ≡ check.entity_fault sought name.now }
{
    match sought {
        Sought::Entity => {
            if entity_of(name.text.as_str()).is_some() {
                None
            } else {
                Some(&name.place)
            }
        }
        Sought::Field | Sought::Operand => None,
    }
}

fn shown_fault<'a>(
    sought: Sought,
    entity: Option<Entity>,
    shown: &'a [Selected],
    group: &[Name],
) -> Option<&'a Place>
    ensures { option_copied result ≡ check.shown_fault sought entity shown.now group.now }
{
    match sought {
        Sought::Entity => None,
        Sought::Field => unknown_shown(entity, shown),
        Sought::Operand => ungrouped(group, shown),
    }
}

fn unknown_paged<'a>(
    entity: Option<Entity>,
    shown: &[Selected],
    group: &'a [Name],
    orders: &'a [Order],
) -> Option<&'a Place>
    ensures { option_copied result ≡ check.first (check.unknown_names entity group.now) (check.unknown_orders entity shown.now group.now orders.now) }
{
    match unknown_names(entity, group) {
        Some(place) => Some(place),
        None => unknown_orders(entity, shown, group, orders),
    }
}

fn paged_fault<'a>(
    sought: Sought,
    entity: Option<Entity>,
    shown: &[Selected],
    group: &'a [Name],
    orders: &'a [Order],
) -> Option<&'a Place>
    ensures { option_copied result ≡ check.paged_fault sought entity shown.now group.now orders.now }
{
    match sought {
        Sought::Field => unknown_paged(entity, shown, group, orders),
        Sought::Entity | Sought::Operand => None,
    }
}

// The first fault of the sought kind in `in` over literals.
fn listed_fault<'a>(
    sought: Sought,
    entity: Option<Entity>,
    fields: &'a Fields,
    place: &'a Place,
    literals: &'a Literals,
) -> Option<&'a Place>
    ensures { option_copied result ≡ check.filter_fault sought entity (spec.in_list fields.now place.now literals.now) }
{
    if let Some(place) = operands_fault(sought, entity, fields.as_slice()) {
        return Some(place);
    }
    match sides_fault(sought, fields.as_slice(), place, 1) {
        Some(place) => Some(place),
        None => array_fault(sought, entity, fields.as_slice(), literals.as_slice()),
    }
}

#[cycle(walk)]
fn filter_fault(sought: Sought, entity: Option<Entity>, filter: &Filter) -> Option<&Place>
    ensures { option_copied result ≡ check.filter_fault sought entity (filter_of filter.now) }
{
    match filter {
        Filter::Compare(op, field, literal) => compared_fault(sought, entity, *op, field, literal),
        Filter::Matches(field, _) => operand_fault(sought, entity, field),
        Filter::IsNull(field, _) => operand_fault(sought, entity, field),
        Filter::InList(fields, place, literals) => {
            listed_fault(sought, entity, fields, place, literals)
        }
        Filter::InLevel(fields, place, level) => {
            within_fault(sought, entity, fields, place, level)
        }
        Filter::Subquery(name, clause) => subquery_fault(sought, name, clause),
        Filter::Not(operand) => filter_fault(sought, entity, operand.filter()),
        Filter::All(filters) => filters_fault(sought, entity, filters.as_slice()),
        Filter::Any(filters) => filters_fault(sought, entity, filters.as_slice()),
    }
}

#[cycle(walk)]
fn filters_fault(sought: Sought, entity: Option<Entity>, list: &[Filter]) -> Option<&Place>
    ensures { option_copied result ≡ check.filters_fault sought entity (spec.filters_of (filters list.now)) }
{
    for filter in list {
        if let Some(place) = filter_fault(sought, entity, filter) {
            return Some(place);
        }
    }
    None
}

#[cycle(walk)]
fn clause_fault(sought: Sought, entity: Option<Entity>, clause: &Clause) -> Option<&Place>
    ensures { option_copied result ≡ check.clause_fault sought entity clause.now }
{
    match clause.filter() {
        None => None,
        Some(filter) => filter_fault(sought, entity, filter),
    }
}

// The first fault of the sought kind in `subquery`.
#[cycle(walk)]
fn subquery_fault<'a>(sought: Sought, name: &'a Name, clause: &'a Clause) -> Option<&'a Place>
    ensures { option_copied result ≡ check.filter_fault sought None (spec.subquery name.now clause.now) }
{
    match entity_fault(sought, name) {
        Some(place) => Some(place),
        None => clause_fault(sought, entity_of(name.text.as_str()), clause),
    }
}

// The first fault of the sought kind in `in` over a level.
#[cycle(walk)]
fn within_fault<'a>(
    sought: Sought,
    entity: Option<Entity>,
    fields: &'a Fields,
    place: &'a Place,
    level: &'a Level,
) -> Option<&'a Place>
    ensures { option_copied result ≡ check.filter_fault sought entity (spec.in_level fields.now place.now level.now) }
{
    if let Some(place) = operands_fault(sought, entity, fields.as_slice()) {
        return Some(place);
    }
    match sides_fault(sought, fields.as_slice(), place, level_width(level)) {
        Some(place) => Some(place),
        None => level_fault(sought, level),
    }
}

fn level_width(level: &Level) -> usize
    ensures { result ≡ check.level_width level.now }
{
    let (name, shown, _, _, _) = level.parts();
    columns_shown(entity_of(name.text.as_str()), shown)
}

/// The place of the first fault of the sought kind.
#[cycle(walk)]
pub(crate) fn level_fault(sought: Sought, level: &Level) -> Option<&Place>
    ensures { option_copied result ≡ check.level_fault sought level.now }
{
    let (name, shown, clause, group, paging) = level.parts();
    let entity = entity_of(name.text.as_str());
    if let Some(place) = entity_fault(sought, name) {
        return Some(place);
    }
    if let Some(place) = shown_fault(sought, entity, shown_list(shown), group.as_slice()) {
        return Some(place);
    }
    match clause_fault(sought, entity, clause) {
        Some(place) => Some(place),
        None => paged_fault(
            sought,
            entity,
            shown_list(shown),
            group.as_slice(),
            paging.order.as_slice(),
        ),
    }
}

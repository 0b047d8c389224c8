//! Makes an answer from narrow rows, where it reads only columns that are seen by reference.
ghost use Rattle.std.specs.Prelude.{◌≡◌, false, IfOk, IfSome};
ghost use Rattle.std.specs.List.{list_any};
ghost use Rattle.level_answers.specs.Levels.{IsAnswered};
ghost use Rattle.query_engine.specs.Narrow.{IsNarrowFor, answer_makes, lines_as, name_makes, order_makes, selected_makes};
ghost use Rattle.level_answers.specs.declared.answer.Answered.TheVariants as answers;
ghost use Rattle.query_reading.specs.Narrow.{is_made};

use fleet_tables::fleet_rows::Entity;
use level_answers::{Answered, KeptRows, Lines, View, group_answer, is_referred, page_answer};
use pattern_port::Keys;
use query_plan::ast_tree::{makes_groups, shown_list};
use query_plan::query_spec::{Name, Order, Paging, Selected, Selection};
use std::alloc::{AllocError, Global};

// Whether the column would have to be made.
fn is_made(entity: Entity, name: &str) -> bool
    ensures { result ≡ is_made entity name.now }
{
    !is_referred(entity, name)
}

fn name_makes(entity: Entity, name: &Name) -> bool
    ensures { result ≡ name_makes entity name.now }
{
    is_made(entity, name.text.as_str())
}

fn selected_makes(entity: Entity, selected: &Selected) -> bool
    ensures { result ≡ selected_makes entity selected.now }
{
    match selected {
        Selected::Column(name) => name_makes(entity, name),
        Selected::Rows => false,
        Selected::Function(_, name) => name_makes(entity, name),
    }
}

fn some_selected_makes(entity: Entity, shown: &[Selected]) -> bool
    ensures { result ≡ list_any (selected_makes entity) shown.now }
{
    for selected in shown {
        if selected_makes(entity, selected) {
            return true;
        }
    }
    false
}

fn some_name_makes(entity: Entity, group: &[Name]) -> bool
    ensures { result ≡ list_any (name_makes entity) group.now }
{
    for name in group {
        if name_makes(entity, name) {
            return true;
        }
    }
    false
}

fn order_makes(entity: Entity, order: &Order) -> bool
    ensures { result ≡ order_makes entity order.now }
{
    name_makes(entity, &order.column)
}

fn some_order_makes(entity: Entity, orders: &[Order]) -> bool
    ensures { result ≡ list_any (order_makes entity) orders.now }
{
    for order in orders {
        if order_makes(entity, order) {
            return true;
        }
    }
    false
}

// Whether an answer that shows these outputs reads a column that would have to be made.
fn answer_makes(entity: Entity, shown: &[Selected], group: &[Name], orders: &[Order]) -> bool
    ensures { result ≡ answer_makes entity shown.now group.now orders.now }
{
    some_selected_makes(entity, shown)
        || some_name_makes(entity, group)
        || some_order_makes(entity, orders)
}

// The entity whose narrow rows suffice for the answer.
fn narrow_for(
    entity: Option<Entity>,
    shown: &Option<Selection>,
    group: &[Name],
    paging: &Paging,
) -> Option<Entity>
    ensures { IsNarrowFor entity shown.now group.now paging.now result }
{
    match entity {
        Some(entity) => match shown {
            Some(shown) => narrow_of(entity, shown.as_slice(), group, paging.order.as_slice()),
            None => None,
        },
        None => None,
    }
}

fn narrow_of(entity: Entity, shown: &[Selected], group: &[Name], orders: &[Order]) -> Option<Entity>
    ensures { IfSome result (λ e. (e ≡ entity) × (answer_makes entity shown.now group.now orders.now ≡ false)) }
{
    if answer_makes(entity, shown, group, orders) {
        None
    } else {
        Some(entity)
    }
}

// The rows from which the answer is made: copies of what is seen by reference, or whole rows.
fn lines_for(alloc: Global, narrow: Option<Entity>, rows: KeptRows<'_>) -> Result<Lines, AllocError>
    ensures { IfOk result (λ lines. lines ≡ lines_as narrow rows.entry) }
{
    match narrow {
        Some(entity) => rows.narrow_lines(alloc, entity),
        None => rows.into_lines(alloc),
    }
}

// The rows as they are seen for the answer: narrow or whole.
fn views_for<'a>(
    alloc: Global,
    narrow: Option<Entity>,
    rows: &'a KeptRows<'_>,
) -> Result<Vec<View<'a>>, AllocError>
    ensures { IfOk result (λ views. views.items ≡ lines_as narrow rows.now) }
{
    match narrow {
        Some(entity) => rows.views(alloc, entity, true),
        None => rows.views(alloc, Entity::Nodes, false),
    }
}

/// The answer from these selected rows of the entity. Columns that it doesn't read aren't made, as far as rows are seen by
/// reference without them.
pub(crate) fn answer_from<'q>(
    alloc: Global,
    keys: Keys,
    entity: Option<Entity>,
    shown: &'q Option<Selection>,
    group: &[Name],
    paging: &Paging,
    rows: KeptRows<'_>,
) -> Result<Answered<'q>, AllocError>
    ensures { IfOk result (IsAnswered entity shown.now group.now paging.now rows.entry) }
{
    let narrow = narrow_for(entity, shown, group, paging);
    if makes_groups(shown_list(shown), group) {
        let views = views_for(alloc, narrow, &rows)?;
        group_answer(alloc, keys, entity, shown, group, paging, views.as_slice())
    } else {
        let lines = lines_for(alloc, narrow, rows)?;
        page_answer(alloc, entity, shown, group, paging, lines)
    }
}

/// The selected rows, made whole.
pub(crate) fn whole_from<'q>(alloc: Global, rows: KeptRows<'_>) -> Result<Answered<'q>, AllocError>
    ensures { IfOk result (λ x. x ≡ answers.Rows rows.entry) }
{
    Ok(Answered::Rows(rows.into_lines(alloc)?))
}

//! Tells whether a filter reads only columns that are seen by reference.
ghost use Rattle.std.specs.Prelude.{◌≡◌, true, false};
ghost use Rattle.std.specs.List.{list_any};
ghost use Rattle.query_plan.specs.Made.{step_of};
ghost use Rattle.query_reading.specs.Narrow.{is_made, field_makes, step_makes, steps_make};

use fleet_tables::fleet_rows::Entity;
use query_plan::Step;
use query_plan::query_spec::Field;
use query_rows::Ready;
use row_views::is_referred;

fn is_made(entity: Entity, name: &str) -> bool
    ensures { result ≡ is_made entity name.now }
{
    !is_referred(entity, name)
}

// Whether the column that is read for the field would have to be made.
fn field_makes(entity: Entity, field: &Field) -> bool
    ensures { result ≡ field_makes entity field.now }
{
    match field {
        Field::Column(name) => is_made(entity, name.text.as_str()),
        Field::Parameter(_) => is_made(entity, "parameters"),
        Field::Fact(_) => is_made(entity, "certname"),
        Field::Tag(_) => is_made(entity, "tags"),
        Field::NodeState(_) => is_made(entity, "certname"),
    }
}

fn some_makes(entity: Entity, fields: &[Field]) -> bool
    ensures { result ≡ list_any (field_makes entity) fields.now }
{
    for field in fields {
        if field_makes(entity, field) {
            return true;
        }
    }
    false
}

fn step_makes(entity: Entity, step: &Step) -> bool
    ensures { result ≡ step_makes entity (step_of step.now) }
{
    match step {
        Step::Compares(_, field, _) => field_makes(entity, field),
        Step::TestsNull(field, _) => field_makes(entity, field),
        Step::Lists(fields, _) => some_makes(entity, fields),
        Step::Fits(field, _) => field_makes(entity, field),
        Step::Selects(fields, _) => some_makes(entity, fields),
        Step::SharesNode(_, _) => false,
        Step::Constant(_) => false,
        Step::Invert => false,
        Step::Both => false,
        Step::Either => false,
    }
}

fn ready_makes(entity: Entity, ready: &Ready) -> bool
    ensures { result ≡ step_makes entity ready.now }
{
    step_makes(entity, ready.step)
}

fn steps_make(entity: Entity, steps: &[Ready]) -> bool
    ensures { result ≡ steps_make entity steps.now }
{
    for ready in steps {
        if ready_makes(entity, ready) {
            return true;
        }
    }
    false
}

/// Whether narrow rows of the entity suffice for the steps.
pub(crate) fn reads_narrow(entity: Entity, steps: &[Ready]) -> bool
    ensures { result ≡ true → steps_make entity steps.now ≡ false }
{
    !steps_make(entity, steps)
}

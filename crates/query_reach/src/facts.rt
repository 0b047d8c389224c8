//! Lists the facts that the steps of a stage name.
ghost use Rattle.std.specs.Prelude.{◌≡◌, ◌++◌, IfOk, OnOk};
ghost use Rattle.query_plan.specs.Made.{step_of, steps_of};
ghost use Rattle.query_reach.specs.Reach.{field_facts, fields_facts};
ghost use Rattle.query_reach.specs.Pins.{step_facts, steps_facts};
ghost use Rattle.query_reach.specs.Seen.{texts_seen};

use ast_tree::fleet_rows::json_tree::Text;
use query_plan::Step;
use query_plan::query_spec::Field;
use std::alloc::{AllocError, Global};

fn push_field<'q>(field: &'q Field, names: &mut Vec<&'q Text>) -> Result<(), AllocError>
    ensures { OnOk result (texts_seen names.new.items ≡ texts_seen names.old.items ++ field_facts field.now) }
{
    match field {
        Field::Fact(name) => names.push(&name.text)?,
        Field::Column(_) => {}
        Field::Parameter(_) => {}
        Field::Tag(_) => {}
        Field::NodeState(_) => {}
    }
    Ok(())
}

fn push_fields<'q>(fields: &'q [Field], names: &mut Vec<&'q Text>) -> Result<(), AllocError>
    ensures { OnOk result (texts_seen names.new.items ≡ texts_seen names.old.items ++ fields_facts fields.now) }
{
    'walking: for field in fields {
        push_field(field, names)?;
    }
    Ok(())
}

fn push_step<'q>(step: &Step<'q>, names: &mut Vec<&'q Text>) -> Result<(), AllocError>
    ensures { OnOk result (texts_seen names.new.items ≡ texts_seen names.old.items ++ step_facts (step_of step.now)) }
{
    match step {
        Step::Compares(_, field, _) => push_field(*field, names),
        Step::TestsNull(field, _) => push_field(*field, names),
        Step::Lists(fields, _) => push_fields(*fields, names),
        Step::Fits(field, _) => push_field(*field, names),
        Step::Selects(fields, _) => push_fields(*fields, names),
        Step::SharesNode(_, _) => Ok(()),
        Step::Constant(_) => Ok(()),
        Step::Invert => Ok(()),
        Step::Both => Ok(()),
        Step::Either => Ok(()),
    }
}

/// The names of the facts that the steps name, as often as they do.
pub fn facts_of<'q>(alloc: Global, steps: &[Step<'q>]) -> Result<Vec<&'q Text>, AllocError>
    ensures { IfOk result (λ names. texts_seen names.items ≡ steps_facts (steps_of steps.now)) }
{
    let mut names = Vec::new(alloc);
    'walking: for step in steps {
        push_step(step, &mut names)?;
    }
    Ok(names)
}

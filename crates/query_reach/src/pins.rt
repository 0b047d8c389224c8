//! Reads off the steps of a stage which texts its rows show.
ghost use Rattle.std.specs.Prelude.{◌≡◌, ◌++◌, ◌∷◌, [], IfOk, OnOk, reverse};
ghost use Rattle.query_plan.specs.Made.{step_of, steps_of};
ghost use Rattle.query_plan.specs.query_spec.declared.parts.Field.TheVariants.{Column as ColumnOf};
ghost use Rattle.query_plan.specs.query_spec.declared.parts.Op.TheVariants.{Equal};
ghost use Rattle.query_reach.specs.Reach.{pin_of};
ghost use Rattle.query_reach.specs.Pins.{pin_act, step_pins};
ghost use Rattle.query_reach.specs.Seen.{pins_seen};

use ast_tree::fleet_rows::json_tree::Text;
use query_plan::Step;
use query_plan::query_spec::{Field, Name, Op, Scalar};
use std::alloc::{AllocError, Global};
use std::marker::Model;

/// The text that a row shows in a column.
#[derive(Drop)]
pub struct Pin<'q> {
    pub column: &'q Name,
    pub text: &'q Text,
}

/// Texts that a row shows in columns, in the order of the filter. Contracts see the list of the definition's pins.
#[derive(Drop)]
pub struct Pins<'q> {
    list: Vec<Pin<'q>>,
}

impl<'q> Model for Pins<'q> {
    ghost use Rattle.std.specs.Prelude.{List};
    ghost use Rattle.query_reach.specs.Reach.{Pin as PinOf};

    ghost Value = { List PinOf };

    ghost use Rattle.std.specs.Coded.{codes};

    ghost coded = { Prim.hlevel codes };

    ghost use Rattle.query_reach.specs.Seen.{pins_seen};

    ghost view = { λ a. pins_seen a.list.items };
}

impl<'q> Pins<'q> {
    /// No pins. It allocates no memory.
    pub fn none(alloc: Global) -> Pins<'q>
        ensures { result ≡ [] }
    {
        Pins {
            list: Vec::new(alloc),
        }
    }

    /// The pins in order.
    pub fn as_slice(&self) -> &[Pin<'q>]
        ensures { pins_seen result.now ≡ self.now }
    {
        self.list.as_slice()
    }

    // These pins, and then the others.
    fn and(mut self, other: Pins<'q>) -> Result<Pins<'q>, AllocError>
        ensures { IfOk result (λ pins. pins ≡ self.entry ++ other.entry) }
    {
        let Pins { mut list } = other;
        self.list.append(&mut list)?;
        Ok(self)
    }
}

fn one<'q>(alloc: Global, column: &'q Name, text: &'q Text) -> Result<Pins<'q>, AllocError>
    ensures { IfOk result (λ pins. pins ≡ record { column = column.now.text; text = text.now } ∷ []) }
{
    let mut list = Vec::new(alloc);
    list.push(Pin { column, text })?;
    Ok(Pins { list })
}

// What it demands that a column is a literal.
fn column_is<'q>(
    alloc: Global,
    column: &'q Name,
    literal: &'q Scalar,
) -> Result<Pins<'q>, AllocError>
    ensures { IfOk result (λ pins. pins ≡ pin_of Equal (ColumnOf column.now) literal.now) }
{
    match literal {
        Scalar::Text(text) => one(alloc, column, text),
        Scalar::Num(_) => Ok(Pins::none(alloc)),
        Scalar::Bool(_) => Ok(Pins::none(alloc)),
    }
}

fn field_is<'q>(
    alloc: Global,
    field: &'q Field,
    literal: &'q Scalar,
) -> Result<Pins<'q>, AllocError>
    ensures { IfOk result (λ pins. pins ≡ pin_of Equal field.now literal.now) }
{
    match field {
        Field::Column(column) => column_is(alloc, column, literal),
        Field::Parameter(_) => Ok(Pins::none(alloc)),
        Field::Fact(_) => Ok(Pins::none(alloc)),
        Field::Tag(_) => Ok(Pins::none(alloc)),
        Field::NodeState(_) => Ok(Pins::none(alloc)),
    }
}

// What a comparison demands where it holds.
fn compared<'q>(
    alloc: Global,
    op: Op,
    field: &'q Field,
    literal: &'q Scalar,
) -> Result<Pins<'q>, AllocError>
    ensures { IfOk result (λ pins. pins ≡ pin_of op field.now literal.now) }
{
    match op {
        Op::Equal => field_is(alloc, field, literal),
        Op::Less => Ok(Pins::none(alloc)),
        Op::AtMost => Ok(Pins::none(alloc)),
        Op::More => Ok(Pins::none(alloc)),
        Op::AtLeast => Ok(Pins::none(alloc)),
    }
}

fn push_none(alloc: Global, stack: &mut Vec<Pins<'_>>) -> Result<(), AllocError>
    ensures { OnOk result (reverse stack.new.items ≡ [] ∷ reverse stack.old.items) }
{
    stack.push(Pins::none(alloc))?;
    Ok(())
}

// What is demanded after a step, for each boolean on the stack where it is true.
fn pin_step<'q>(alloc: Global, step: &Step<'q>, stack: &mut Vec<Pins<'q>>) -> Result<(), AllocError>
    ensures { OnOk result (reverse stack.new.items ≡ pin_act (step_of step.now) (reverse stack.old.items)) }
{
    match step {
        Step::Compares(op, field, literal) => {
            stack.push(compared(alloc, *op, *field, *literal)?)?;
        }
        Step::TestsNull(_, _) => push_none(alloc, stack)?,
        Step::Lists(_, _) => push_none(alloc, stack)?,
        Step::Fits(_, _) => push_none(alloc, stack)?,
        Step::Selects(_, _) => push_none(alloc, stack)?,
        Step::SharesNode(_, _) => push_none(alloc, stack)?,
        Step::Constant(_) => push_none(alloc, stack)?,
        Step::Invert => {
            if let Some(_top) = stack.pop() {
                push_none(alloc, stack)?;
            }
        }
        Step::Both => {
            if let Some(b) = stack.pop() {
                if let Some(a) = stack.pop() {
                    stack.push(a.and(b)?)?;
                }
            }
        }
        Step::Either => {
            if let Some(_b) = stack.pop() {
                if let Some(_a) = stack.pop() {
                    push_none(alloc, stack)?;
                }
            }
        }
    }
    Ok(())
}

/// The texts that a row shows in columns, if the steps hold for it.
pub fn pins_of<'q>(alloc: Global, steps: &[Step<'q>]) -> Result<Pins<'q>, AllocError>
    ensures { IfOk result (λ pins. pins ≡ step_pins (steps_of steps.now)) }
{
    let mut stack = Vec::new(alloc);
    'walking: for step in steps {
        pin_step(alloc, step, &mut stack)?;
    }
    match stack.pop() {
        Some(pins) => Ok(pins),
        None => Ok(Pins::none(alloc)),
    }
}

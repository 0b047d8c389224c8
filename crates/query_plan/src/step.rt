//! Defines the steps of filters and the stages of a plan. They borrow from the query.
ghost use Rattle.std.specs.Prelude.{◌≡◌, [], ◌∷◌, ◌++◌, OnOk, OnErr};
ghost use Rattle.query_plan.specs.Made.{step_of, steps_of};

use ast_tree::fleet_rows::Entity;
use ast_tree::query_spec::{Field, Literal, Name, Op, Paging, Pattern, Scalar, Selection};
use std::alloc::{AllocError, Global};
use std::marker::Model;

/// An operation on the stack of booleans for one row.
#[derive(Drop)]
pub enum Step<'q> {
    /// Pushes whether the comparison holds.
    Compares(Op, &'q Field, &'q Scalar),
    /// Pushes whether the cell is null, if the boolean is true; otherwise whether it isn't.
    TestsNull(&'q Field, bool),
    /// Pushes whether the single cell equals some literal.
    Lists(&'q [Field], &'q [Literal]),
    /// Pushes whether the text matches the pattern with this number.
    Fits(&'q Field, usize),
    /// Pushes whether the cells are a row of the level with this number.
    Selects(&'q [Field], usize),
    /// Pushes whether a row of the level with this number, which has rows of the entity, belongs to the same node.
    SharesNode(Option<Entity>, usize),
    /// Pushes this boolean.
    Constant(bool),
    /// Negates the top.
    Invert,
    /// Replaces the top two by their conjunction.
    Both,
    /// Replaces the top two by their disjunction.
    Either,
}

/// Steps in order. Contracts see the list of the definition's steps.
#[derive(Drop)]
pub struct Steps<'q> {
    list: Vec<Step<'q>>,
}

impl<'q> Model for Steps<'q> {
    ghost use Rattle.std.specs.Prelude.{List};
    ghost use Rattle.query_plan.specs.Plan.{Step};

    ghost Value = { List Step };

    ghost use Rattle.std.specs.Coded.{codes};

    ghost coded = { Prim.hlevel codes };

    ghost use Rattle.query_plan.specs.Made.{steps_of};

    ghost view = { λ a. steps_of a.list.items };
}

impl<'q> Steps<'q> {
    /// No steps. It allocates no memory.
    pub fn new(alloc: Global) -> Steps<'q>
        ensures { result ≡ [] }
    {
        Steps {
            list: Vec::new(alloc),
        }
    }

    /// Appends a step. On an error the list is unchanged.
    pub fn push(&mut self, step: Step<'q>) -> Result<(), AllocError>
        ensures ok { OnOk result (self.new ≡ self.old ++ step_of step.entry ∷ []) }
        ensures err { OnErr result (self.new ≡ self.old) }
    {
        self.list.push(step)?;
        Ok(())
    }

    /// The steps in order.
    pub fn as_slice(&self) -> &[Step<'q>]
        ensures { steps_of result.now ≡ self.now }
    {
        self.list.as_slice()
    }
}

/// What is made from the selected rows of a level.
#[derive(Drop)]
pub enum Shape<'q> {
    /// Nothing: the rows are only looked up by certname.
    Whole,
    /// An answer: what is shown, the columns of the groups, and the paging.
    Answers(&'q Option<Selection>, &'q [Name], &'q Paging),
}

/// One level.
#[derive(Drop)]
pub struct Stage<'q> {
    pub entity: Option<Entity>,
    /// Whether its filter tests the state of nodes.
    pub state: bool,
    pub steps: Steps<'q>,
    pub shape: Shape<'q>,
}

/// The patterns of a query in preorder, and its levels, inner ones first.
#[derive(Drop)]
pub struct Plan<'q> {
    pub patterns: Vec<&'q Pattern>,
    pub stages: Vec<Stage<'q>>,
}

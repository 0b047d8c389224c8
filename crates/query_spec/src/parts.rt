//! Defines the parts of queries that contain no filter.

use crate::lists::Orders;
use crate::place::Place;
use fleet_rows::json_tree::{Number, Text};

/// The name of an entity, a column, a parameter or a fact, as written in the query.
#[derive(Drop)]
pub struct Name {
    pub text: Text,
    pub place: Place,
}

/// The regular expression of `~`, as written in the query.
#[derive(Drop)]
pub struct Pattern {
    pub text: Text,
    pub place: Place,
}

/// A value that a cell is compared with.
#[derive(Drop)]
pub enum Scalar {
    Text(Text),
    Num(Number),
    Bool(bool),
}

/// A value that a cell is compared with, and its place.
#[derive(Drop)]
pub struct Literal {
    pub value: Scalar,
    pub place: Place,
}

/// The comparison operators `=`, `<`, `<=`, `>` and `>=`.
#[derive(Clone, Copy, PartialEq, Eq, Debug)]
pub enum Op {
    Equal,
    Less,
    AtMost,
    More,
    AtLeast,
}

/// What a filter tests in a row.
#[derive(Drop)]
pub enum Field {
    Column(Name),
    /// The value of a resource's parameter.
    Parameter(Name),
    /// The value of a node's fact.
    Fact(Name),
    /// Each tag of a resource.
    Tag(Place),
    /// Whether the row's node is active.
    NodeState(Place),
}

/// The functions over the rows of a group.
#[derive(Clone, Copy, PartialEq, Eq, Debug)]
pub enum Function {
    Count,
    Sum,
    Min,
    Max,
}

/// One output: a column, or a function over a group of rows.
#[derive(Drop)]
pub enum Selected {
    Column(Name),
    /// The number of rows of the group: `count` without a column.
    Rows,
    /// A function of the cells of a column.
    Function(Function, Name),
}

/// A column that rows are sorted by, and its direction.
#[derive(Drop)]
pub struct Order {
    pub column: Name,
    pub descends: bool,
}

/// The order of the rows, the first row to return and the number of rows.
#[derive(Drop)]
pub struct Paging {
    pub order: Orders,
    pub offset: Option<u64>,
    pub limit: Option<u64>,
    /// Whether the total number of rows is asked for. Only a route's parameter asks for it, never the query's text.
    pub include_total: bool,
}

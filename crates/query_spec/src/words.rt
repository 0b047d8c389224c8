//! The head words of the AST's lists.

use crate::parts::Op;

/// The head words of filters.
#[derive(Clone, Copy, PartialEq, Eq, Debug)]
pub enum FilterWord {
    And,
    Or,
    Not,
    Compare(Op),
    Matches,
    IsNull,
    In,
    Subquery,
    Other,
}

/// The head words of fields that are lists.
#[derive(Clone, Copy, PartialEq, Eq, Debug)]
pub enum FieldWord {
    Parameter,
    Fact,
    Other,
}

/// The head words of the right side of `in`.
#[derive(Clone, Copy, PartialEq, Eq, Debug)]
pub enum InnerWord {
    Array,
    Extract,
    From,
    Other,
}

/// The head words of what may follow the entity of a query, except filters.
#[derive(Clone, Copy, PartialEq, Eq, Debug)]
pub enum PartWord {
    Extract,
    Limit,
    Offset,
    OrderBy,
    Other,
}

//! The kinds of faults that a walk over a query looks for.

/// Looks for the first unknown entity, the first unknown field, or the first bad operand.
#[derive(Clone, Copy, PartialEq, Eq, Debug)]
pub enum Sought {
    Entity,
    Field,
    Operand,
}

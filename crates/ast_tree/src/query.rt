//! Defines a whole query, and checks it.
ghost use Rattle.std.specs.Prelude.{◌≡◌, IfOk, MatchResult, Some};
ghost use Rattle.query_spec.specs.Check.{HasEntities, level_fault};
ghost use Rattle.ast_tree.specs.Checked.{IsChecked};
ghost use Rattle.query_spec.specs.declared.sought.Sought.TheVariants as seek;

use crate::tree::Level;
use crate::walk::level_fault;
use query_spec::{Path, Sought};
use std::alloc::{AllocError, Global};
use std::marker::Model;

/// A query: a level that names only entities. Contracts see the level.
#[derive(Drop)]
pub struct Query {
    level: Level,
}

impl Model for Query {
    ghost use Rattle.query_spec.specs.Query.{Level};

    ghost Value = { Level };

    ghost use Rattle.std.specs.Coded.{codes};
    ghost use Rattle.query_spec.specs.Code.{coded_level};

    ghost coded = { coded_level (Prim.hlevel codes) };

    ghost view = { λ a. a.level };

    ghost use Rattle.query_spec.specs.Check.{HasEntities};

    ghost invariant = { λ a. HasEntities a.level };
}

/// The place of the first fault of the sought kind. It takes no memory.
fn fault_path(sought: Sought, level: &Level) -> Option<Path>
    ensures { result ≡ level_fault sought level.now }
{
    match level_fault(sought, level) {
        None => None,
        Some(place) => Some(place.path()),
    }
}

impl Query {
    /// The query of a level, or the place of the first name in preorder that is no entity. It takes no memory.
    pub fn new(level: Level) -> Result<Query, Path>
        ensures { MatchResult result (λ query. (query ≡ level) × HasEntities level) (λ path. level_fault seek.Entity level ≡ Some path) }
    {
        match fault_path(Sought::Entity, &level) {
            Some(path) => Err(path),
            None => Ok(Query { level }),
        }
    }

    /// The outermost level.
    pub fn level(&self) -> &Level
        ensures level { result.now ≡ self.now }
        ensures entities { HasEntities self.now }
    {
        &self.level
    }

    /// A copy of the query, which shares no memory with it.
    pub fn copy(&self, alloc: Global) -> Result<Query, AllocError>
        ensures { IfOk result (λ query. query ≡ self.now) }
    {
        Ok(Query {
            level: self.level.copy(alloc)?,
        })
    }
}

/// Why a check refuses a query, with the place of the name or the operand.
#[derive(Drop)]
pub enum CheckFault {
    /// The entity lacks this field, or the output lacks this column.
    UnknownField(Path),
    /// An operand of a comparison is invalid, the sides of `in` differ in number, or a shown column isn't grouped.
    BadOperand(Path),
}

/// Refuses a query with an unknown field at the first in preorder. If all fields are known, refuses it at the first bad operand.
/// It takes no memory.
pub fn check(query: &Query) -> Result<(), CheckFault>
    ensures { IsChecked result query.now }
{
    if let Some(path) = fault_path(Sought::Field, query.level()) {
        return Err(CheckFault::UnknownField(path));
    }
    match fault_path(Sought::Operand, query.level()) {
        Some(path) => Err(CheckFault::BadOperand(path)),
        None => Ok(()),
    }
}

//! Reads the bytes of a text into a checked query.
ghost use Rattle.std.specs.Prelude.{◌≡◌, ◌≤◌};
ghost use Rattle.json_read.specs.text_spec.Json.{levels};
ghost use Rattle.json_read.specs.json_tree.Tree.{json_of};
ghost use Rattle.query_spec.specs.Answer as answer;
ghost use Rattle.ast_reader.specs.Answered.{Answers, AnsweredAs, GivesLevel, not_json};

use crate::body::{query, route};
use ast_parts::FormFault;
use ast_tree::{CheckFault, Level, Query, check};
use json_read::json_tree::Json;
use json_read::{ReadFault, read};
use query_spec::fleet_rows::Entity;
use query_spec::{MOST_QUERY, Path};
use std::alloc::Global;

/// Why a text is no query. Faults are reported in the order of the variants, and of one variant the first in preorder. A path
/// gives the number of the element in each array, from the outermost array inwards, from 0.
#[derive(Drop)]
pub enum AstFault {
    /// The text has more than 1,048,576 bytes.
    TooLong,
    /// The text is no JSON text (RFC 8259), or nests more than 127 levels. The bytes before offset `at` begin a JSON text. The
    /// byte at `at` is wrong there or opens level 128, or the text ends there too early.
    NotJson { at: usize },
    /// No form of the AST allows the value at this path.
    NotQuery(Path),
    /// No entity that a query may name has the name at this path.
    UnknownEntity(Path),
    /// The entity lacks this field, or the output lacks this column.
    UnknownField(Path),
    /// An operand of a comparison is invalid, the sides of `in` differ in number, or a shown column isn't grouped.
    BadOperand(Path),
    /// There was no memory.
    Memory,
}

fn checked(level: Level) -> Result<Query, AstFault>
    ensures { Answers result (answer.checked level) }
{
    match Query::new(level) {
        Err(path) => Err(AstFault::UnknownEntity(path)),
        Ok(query) => match check(&query) {
            Ok(()) => Ok(query),
            Err(CheckFault::UnknownField(path)) => Err(AstFault::UnknownField(path)),
            Err(CheckFault::BadOperand(path)) => Err(AstFault::BadOperand(path)),
        },
    }
}

// The result for the level that was read, or for the fault.
fn formed(read: Result<Level, FormFault>) -> Result<Query, AstFault>
    ensures { GivesLevel read result }
{
    match read {
        Ok(level) => checked(level),
        Err(FormFault::NoForm(place)) => Err(AstFault::NotQuery(place.path())),
        Err(FormFault::Memory) => Err(AstFault::Memory),
    }
}

fn query_of(alloc: Global, json: &Json) -> Result<Query, AstFault>
    requires { levels (json_of json.now) ≤ 127 }
    ensures { Answers result (answer.answer_of (answer.query (json_of json.now))) }
{
    formed(query(alloc, json))
}

fn filter_of_entity(alloc: Global, entity: Entity, json: &Json) -> Result<Query, AstFault>
    requires { levels (json_of json.now) ≤ 127 }
    ensures { Answers result (answer.answer_of (answer.route entity (json_of json.now))) }
{
    formed(route(alloc, entity, json))
}

fn not_json(fault: ReadFault) -> AstFault
    ensures { result ≡ not_json fault }
{
    match fault {
        ReadFault::NotJson { at } => AstFault::NotJson { at },
        ReadFault::TooDeep { at } => AstFault::NotJson { at },
        ReadFault::Memory => AstFault::Memory,
    }
}

/// The query that the text spells in the AST, or why it spells none.
pub fn read_ast(alloc: Global, text: &[u8]) -> Result<Query, AstFault>
    ensures { AnsweredAs answer.query text.now result }
{
    if text.len() > MOST_QUERY {
        return Err(AstFault::TooLong);
    }
    match read(alloc, text) {
        Ok(json) => query_of(alloc, &json),
        Err(fault) => Err(not_json(fault)),
    }
}

/// The query of the entity's rows that the text spells as a filter or an extract, or why it spells none.
pub fn read_filter(alloc: Global, entity: Entity, text: &[u8]) -> Result<Query, AstFault>
    ensures { AnsweredAs (answer.route entity) text.now result }
{
    if text.len() > MOST_QUERY {
        return Err(AstFault::TooLong);
    }
    match read(alloc, text) {
        Ok(json) => filter_of_entity(alloc, entity, &json),
        Err(fault) => Err(not_json(fault)),
    }
}

//! Answers queries in the AST, and queries that were read already.
ghost use Rattle.std.specs.Prelude.{◌≡◌, ℕ, List};
ghost use Rattle.ast_reader.specs.text_spec.Json.{Json};
ghost use Rattle.query_engine.specs.fleet_ports.Counts.{Counts};
ghost use Rattle.query_engine.specs.fleet_tables.Stands.{Stands};
ghost use Rattle.means_laws.specs.history_spec.Trace.{Trace};
ghost use Rattle.ast_reader.specs.query_spec.Answer as spelt;
ghost use Rattle.ast_reader.specs.query_spec.Answer.{AnswerOf};
ghost use Rattle.ast_reader.specs.query_spec.Ast.{Read};
ghost use Rattle.ast_reader.specs.query_spec.Query.{Level};
ghost use Rattle.ast_reader.specs.Answered.{AnsweredAs};
ghost use Rattle.means_laws.specs.means_spec.OutRows.{lines_text};
ghost use Rattle.means_laws.specs.means_spec.World as spec;
ghost use Rattle.means_laws.specs.paging_text.Shown.{written_text};
ghost use Rattle.query_engine.specs.Tables.{world_of};
ghost use Rattle.query_answer.specs.Told.{in_ast, unread_ast};
ghost use Rattle.query_answer.specs.Answers.{unpicked, IsWritten, MatchRows, MatchAnswer, IsPatternRefused};

use crate::refusal::QueryRefusal;
use ast_reader::ast_tree::Query;
use ast_reader::fleet_rows::Entity;
use ast_reader::json_tree::Bytes;
use ast_reader::{AstFault, read_ast, read_filter};
use means_laws::paging_text::write_rows;
use pattern_port::Patterns;
use query_engine::{Picked, QueryFault, Tables, select_uncounted};
use std::alloc::{AllocError, Global};

/// Why a text has no rows as its answer.
#[derive(Drop)]
pub enum AnswerFault {
    /// The query is refused.
    Refused(QueryRefusal),
    /// There was no memory.
    Memory,
}

fn unread(fault: AstFault) -> AnswerFault
    ensures { result ≡ unread_ast fault }
{
    match fault {
        AstFault::TooLong => AnswerFault::Refused(QueryRefusal::TooLong),
        AstFault::NotJson { at } => AnswerFault::Refused(QueryRefusal::NotJson { at }),
        AstFault::NotQuery(path) => AnswerFault::Refused(QueryRefusal::NotQuery(path)),
        AstFault::UnknownEntity(path) => AnswerFault::Refused(QueryRefusal::UnknownEntity(path)),
        AstFault::UnknownField(path) => AnswerFault::Refused(QueryRefusal::UnknownField(path)),
        AstFault::BadOperand(path) => AnswerFault::Refused(QueryRefusal::BadOperand(path)),
        AstFault::Memory => AnswerFault::Memory,
    }
}

fn unpicked(fault: QueryFault) -> AnswerFault
    ensures { result ≡ unpicked fault }
{
    match fault {
        QueryFault::BadPattern(path) => AnswerFault::Refused(QueryRefusal::BadPattern(path)),
        QueryFault::SumTooLarge(path) => AnswerFault::Refused(QueryRefusal::SumTooLarge(path)),
        QueryFault::Memory => AnswerFault::Memory,
    }
}

// The text of the selected rows.
fn written(alloc: Global, picked: Result<Picked, QueryFault>) -> Result<Bytes, AnswerFault>
    ensures { IsWritten picked result }
{
    match picked {
        Ok(picked) => match write_rows(alloc, &picked.rows) {
            Ok(text) => Ok(text),
            Err(_) => Err(AnswerFault::Memory),
        },
        Err(fault) => Err(unpicked(fault)),
    }
}

/// The text of the rows that a query means (RFC 8259): a list of objects, one for each row, with the columns in their order.
pub fn answer_query<P: Patterns>(
    alloc: Global,
    tables: &Tables,
    query: &Query,
    patterns: &mut P,
) -> Result<Bytes, AnswerFault>
    ensures same { (p t : List ℕ) → P.says patterns.new p t ≡ P.says patterns.old p t }

    // For the tables of a history the text prints the rows. For other tables it has null instead of a moment that can't be
    // printed.
    ensures answer { MatchRows (world_of tables.now (P.says patterns.old)) query.now (P.asked patterns.old) (P.asked patterns.new) written_text result }
    ensures stands { (history : Trace) → Stands tables.now history
        → MatchRows (spec.world_of tables.now.ttls history (P.says patterns.old)) query.now (P.asked patterns.old) (P.asked patterns.new) lines_text result }

    // `BadPattern` raises the count of refusals, up to 2^64 - 1. Any other result leaves the count unchanged.
    ensures cause { Counts (P.refusals patterns.old) (P.refusals patterns.new) (IsPatternRefused result) }
{
    written(alloc, select_uncounted(alloc, tables, query, patterns))
}

// The answer to a text with this result of reading it.
fn answered<P: Patterns>(
    alloc: Global,
    tables: &Tables,
    read: Result<Query, AstFault>,
    patterns: &mut P,
) -> Result<Bytes, AnswerFault>
    ensures same { (p t : List ℕ) → P.says patterns.new p t ≡ P.says patterns.old p t }
    ensures answer { (ast : Json → Read Level) (text : List ℕ) → AnsweredAs ast text read
        → MatchAnswer (world_of tables.now (P.says patterns.old)) (in_ast (AnswerOf ast text)) (P.asked patterns.old)
        (P.asked patterns.new) written_text result }
    ensures stands { (history : Trace) → Stands tables.now history → (ast : Json → Read Level) (text : List ℕ) → AnsweredAs ast text read
        → MatchAnswer (spec.world_of tables.now.ttls history (P.says patterns.old)) (in_ast (AnswerOf ast text)) (P.asked patterns.old)
        (P.asked patterns.new) lines_text result }
    ensures cause { Counts (P.refusals patterns.old) (P.refusals patterns.new) (IsPatternRefused result) }
{
    match read {
        Ok(query) => answer_query(alloc, tables, &query, patterns),
        Err(fault) => Err(unread(fault)),
    }
}

/// Answers a whole query in the AST with the text of its rows, or with the first reason why there are none.
pub fn answer_ast<P: Patterns>(
    alloc: Global,
    tables: &Tables,
    text: &[u8],
    patterns: &mut P,
) -> Result<Bytes, AnswerFault>
    ensures same { (p t : List ℕ) → P.says patterns.new p t ≡ P.says patterns.old p t }

    // The spelt query is answered. Each refusal is returned exactly if it applies: a reader's by the text, a pattern's if it is
    // the first refused one, a sum's if it overflows 128 bits.
    ensures answer { MatchAnswer (world_of tables.now (P.says patterns.old)) (in_ast (AnswerOf spelt.query text.now)) (P.asked patterns.old)
        (P.asked patterns.new) written_text result }
    ensures stands { (history : Trace) → Stands tables.now history
        → MatchAnswer (spec.world_of tables.now.ttls history (P.says patterns.old)) (in_ast (AnswerOf spelt.query text.now)) (P.asked patterns.old)
        (P.asked patterns.new) lines_text result }

    // `BadPattern` raises the count of refusals, up to 2^64 - 1. Any other result leaves the count unchanged.
    ensures cause { Counts (P.refusals patterns.old) (P.refusals patterns.new) (IsPatternRefused result) }
{
    answered(alloc, tables, read_ast(alloc, text), patterns)
}

/// Answers a filter or an extract of an entity's rows in the AST.
pub fn answer_filter<P: Patterns>(
    alloc: Global,
    tables: &Tables,
    entity: Entity,
    text: &[u8],
    patterns: &mut P,
) -> Result<Bytes, AnswerFault>
    ensures same { (p t : List ℕ) → P.says patterns.new p t ≡ P.says patterns.old p t }
    ensures answer { MatchAnswer (world_of tables.now (P.says patterns.old)) (in_ast (AnswerOf (spelt.route entity) text.now)) (P.asked patterns.old)
        (P.asked patterns.new) written_text result }
    ensures stands { (history : Trace) → Stands tables.now history
        → MatchAnswer (spec.world_of tables.now.ttls history (P.says patterns.old)) (in_ast (AnswerOf (spelt.route entity) text.now))
        (P.asked patterns.old) (P.asked patterns.new) lines_text result }
    ensures cause { Counts (P.refusals patterns.old) (P.refusals patterns.new) (IsPatternRefused result) }
{
    answered(alloc, tables, read_filter(alloc, entity, text), patterns)
}

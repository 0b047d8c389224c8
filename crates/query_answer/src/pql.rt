//! Answers queries in PQL, and queries in either language.
ghost use Rattle.std.specs.Prelude.{◌≡◌, ℕ, List};
ghost use Rattle.query_engine.specs.fleet_ports.Counts.{Counts};
ghost use Rattle.query_engine.specs.fleet_tables.Stands.{Stands};
ghost use Rattle.means_laws.specs.history_spec.Trace.{Trace};
ghost use Rattle.means_laws.specs.means_spec.OutRows.{lines_text};
ghost use Rattle.means_laws.specs.means_spec.World as spec;
ghost use Rattle.means_laws.specs.paging_text.Shown.{written_text};
ghost use Rattle.query_engine.specs.Tables.{world_of};
ghost use Rattle.query_answer.specs.Answers.{MatchAnswer, IsPatternRefused};
ghost use Rattle.query_answer.specs.Told.{in_pql, told_of, unread_pql};

use crate::answer::{AnswerFault, answer_ast, answer_query};
use crate::language::is_ast;
use crate::refusal::QueryRefusal;
use ast_reader::json_tree::Bytes;
use pattern_port::Patterns;
use pql_reader::{PqlFault, read_pql};
use query_engine::Tables;
use std::alloc::Global;

fn unread(fault: PqlFault) -> AnswerFault
    ensures { result ≡ unread_pql fault }
{
    match fault {
        PqlFault::TooLong => AnswerFault::Refused(QueryRefusal::TooLong),
        PqlFault::PqlBad { at } => AnswerFault::Refused(QueryRefusal::PqlBad { at }),
        PqlFault::UnknownEntity(path) => AnswerFault::Refused(QueryRefusal::UnknownEntity(path)),
        PqlFault::UnknownField(path) => AnswerFault::Refused(QueryRefusal::UnknownField(path)),
        PqlFault::BadOperand(path) => AnswerFault::Refused(QueryRefusal::BadOperand(path)),
        PqlFault::Memory => AnswerFault::Memory,
    }
}

/// Answers a query in PQL with the text of its rows, or with the first reason why there are none.
pub fn answer_pql<P: Patterns>(
    alloc: Global,
    tables: &Tables,
    text: &[u8],
    patterns: &mut P,
) -> Result<Bytes, AnswerFault>
    ensures same { (p t : List ℕ) → P.says patterns.new p t ≡ P.says patterns.old p t }

    // The spelt query is answered. Each refusal is returned exactly if it applies, as for `answer_ast`.
    ensures answer { MatchAnswer (world_of tables.now (P.says patterns.old)) (in_pql text.now) (P.asked patterns.old)
        (P.asked patterns.new) written_text result }
    ensures stands { (history : Trace) → Stands tables.now history
        → MatchAnswer (spec.world_of tables.now.ttls history (P.says patterns.old)) (in_pql text.now) (P.asked patterns.old)
        (P.asked patterns.new) lines_text result }
    ensures cause { Counts (P.refusals patterns.old) (P.refusals patterns.new) (IsPatternRefused result) }
{
    match read_pql(alloc, text) {
        Ok(query) => answer_query(alloc, tables, &query, patterns),
        Err(fault) => Err(unread(fault)),
    }
}

/// Answers a query in its language: the AST if the first byte after white space is `[`, otherwise PQL.
#[tactic(auto, using(crate::proofs::PqlAnswered::told_in_ast, crate::proofs::PqlAnswered::told_in_pql))]
pub fn answer_text<P: Patterns>(
    alloc: Global,
    tables: &Tables,
    text: &[u8],
    patterns: &mut P,
) -> Result<Bytes, AnswerFault>
    ensures same { (p t : List ℕ) → P.says patterns.new p t ≡ P.says patterns.old p t }
    ensures answer { MatchAnswer (world_of tables.now (P.says patterns.old)) (told_of text.now) (P.asked patterns.old)
        (P.asked patterns.new) written_text result }
    ensures stands { (history : Trace) → Stands tables.now history
        → MatchAnswer (spec.world_of tables.now.ttls history (P.says patterns.old)) (told_of text.now) (P.asked patterns.old)
        (P.asked patterns.new) lines_text result }
    ensures cause { Counts (P.refusals patterns.old) (P.refusals patterns.new) (IsPatternRefused result) }
{
    if is_ast(text) {
        answer_ast(alloc, tables, text, patterns)
    } else {
        answer_pql(alloc, tables, text, patterns)
    }
}

//! Reads the bytes of a text into a checked query.
ghost use Rattle.std.specs.Prelude.{◌≡◌, ◌≤◌, ◌+◌, List, drop, length};
ghost use Rattle.pql_spec.specs.Texts as text;
ghost use Rattle.pql_machine.specs.Machine as machine;
ghost use Rattle.pql_reader.specs.Answered.{Answers, Answered};
ghost use Rattle.pql_reader.specs.Goes as goes;
ghost use Rattle.pql_parts.specs.States.{state_of};

use crate::step::token_step;
use ast_tree::{CheckFault, Level, Path, Query, check};
use pql_parts::{Fault, Finished, Frames, State, let_state_go};
use query_spec::MOST_QUERY;
use std::alloc::Global;

/// Why a text is no query. Faults are reported in the order of the variants, and of one variant the first in preorder. A path has
/// one number: the index of the token, or of the first of several tokens, from 0.
#[derive(Drop)]
pub enum PqlFault {
    /// The text has more than 1,048,576 bytes.
    TooLong,
    /// The tokens before byte offset `at` begin a query, and no query continues with what follows: a token, a byte that begins no
    /// token, or the end of the text.
    PqlBad { at: usize },
    /// No entity that a query may name has this name.
    UnknownEntity(Path),
    /// The entity lacks this field, or the output lacks this column.
    UnknownField(Path),
    /// An operand of a comparison is invalid, the sides of `in` differ in number, or a shown column isn't grouped.
    BadOperand(Path),
    /// There was no memory.
    Memory,
}

/// Why reading stops before the query is complete.
#[derive(Drop)]
pub(crate) enum Stop {
    Bad { at: usize },
    Memory,
}

// The number of white-space bytes that the bytes begin with.
fn space_length(bytes: &[u8]) -> usize
    ensures value { result ≡ goes.space_length bytes.now }
    ensures within { result ≤ length bytes.now }
{
    let mut length = 0;
    for byte in bytes {
        if *byte != b' ' && *byte != b'\t' && *byte != b'\n' && *byte != b'\r' {
            return length;
        }
        length += 1;
    }
    length
}

// The bytes from this offset on.
fn behind(text: &[u8], at: usize) -> &[u8]
    requires { at ≤ length text.now }
    ensures bytes { result.now ≡ drop at text.now }
    ensures left { at + length result.now ≡ length text.now }
{
    &text[at..]
}

// The level, if the text may end in this state.
fn ended(state: State) -> Option<Level>
    ensures { (fs : List machine.Frame) → result ≡ machine.ended (state_of fs state) }
{
    match state {
        State::Complete(finished) => {
            let Finished { level, height: _ } = finished;
            Some(level)
        }
        other => {
            let_state_go(other);
            None
        }
    }
}

// The result if the text ends at this offset.
fn ends(state: State, at: usize) -> Result<Level, Stop>
    ensures { (fs : List machine.Frame) → goes.EndsAs (machine.ended (state_of fs state)) at result }
{
    match ended(state) {
        Some(level) => Ok(level),
        None => Err(Stop::Bad { at }),
    }
}

fn stopped_by(fault: Fault, at: usize) -> Stop
    ensures { result ≡ goes.stop_of fault at }
{
    match fault {
        Fault::Bad => Stop::Bad { at },
        Fault::Memory => Stop::Memory,
    }
}

// The level that the text spells, before it is checked.
fn read_level(alloc: Global, text: &[u8]) -> Result<Level, Stop>
    ensures { goes.Reads text.now result }
{
    let mut frames = Frames::new(alloc);
    let mut state = State::Start;
    let mut at = 0;
    let mut number = 0;
    'tokens: loop {
        let left = behind(text, at);
        let place = at + space_length(left);
        let is_end = place == text.len();
        if is_end {
            return ends(state, place);
        }
        let bytes = behind(text, place);
        match token_step(alloc, &mut frames, state, bytes, number) {
            Ok((next, length)) => {
                state = next;
                at = place + length;
                number += 1;
            }
            Err(fault) => return Err(stopped_by(fault, place)),
        }
    }
}

fn checked(level: Level) -> Result<Query, PqlFault>
    ensures { Answers result (text.checked level) }
{
    match Query::new(level) {
        Err(path) => Err(PqlFault::UnknownEntity(path)),
        Ok(query) => match check(&query) {
            Ok(()) => Ok(query),
            Err(CheckFault::UnknownField(path)) => Err(PqlFault::UnknownField(path)),
            Err(CheckFault::BadOperand(path)) => Err(PqlFault::BadOperand(path)),
        },
    }
}

/// The query that the text spells in PQL, or why it spells none.
pub fn read_pql(alloc: Global, text: &[u8]) -> Result<Query, PqlFault>
    ensures { Answered text.now result }
{
    let is_long = text.len() > MOST_QUERY;
    if is_long {
        return Err(PqlFault::TooLong);
    }
    match read_level(alloc, text) {
        Ok(level) => checked(level),
        Err(Stop::Bad { at }) => Err(PqlFault::PqlBad { at }),
        Err(Stop::Memory) => Err(PqlFault::Memory),
    }
}

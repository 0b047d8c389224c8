//! Advances the reader by one token.
ghost use Rattle.std.specs.Prelude.{◌≡◌, ◌<◌, ◌≤◌, ℕ, List, [], ◌∷◌, length, IfOk, Some};
ghost use Rattle.pql_spec.specs.declared.token.Token.{Token};
ghost use Rattle.pql_machine.specs.Least as least;
ghost use Rattle.pql_machine.specs.Machine as machine;
ghost use Rattle.pql_machine.specs.Verdict as verdict;
ghost use Rattle.pql_lexer.specs.Next.{IsNext, BeginsWith};
ghost use Rattle.pql_parts.specs.States.{column_of, state_of, Took};
ghost use Rattle.pql_reader.specs.Goes.{Stepped};
ghost use Rattle.query_spec.specs.Limits.{most_depth};

use crate::operand::mode_step;
use crate::page::stage_step;
use crate::region::{body_step, done_step};
use ast_tree::{Name, Selection};
use pql_lexer::next_token;
use pql_parts::{
    Column, Fault, Frames, Gone, Head, Shown, State, column_step, let_state_go, let_token_go, need,
};
use pql_spec::Token;
use query_spec::MOST_DEPTH;
use std::alloc::Global;

fn start(token: Token) -> Result<State, Fault>
    ensures { (fs : List machine.Frame) → Took fs result (machine.step machine.start token) }
{
    match token {
        Token::Word(entity) => Ok(State::Headed(entity)),
        other => {
            let_token_go(other);
            Err(Fault::Bad)
        }
    }
}

// Opens the braces of the outermost level, with no frames.
fn body(alloc: Global, frames: &mut Frames, entity: Name, shown: Option<Selection>) -> State
    ensures { state_of frames.new result ≡ machine.body (record { entity = entity; columns = shown }) [] }
{
    *frames = Frames::new(alloc);
    State::Body(Head { entity, shown })
}

fn headed(alloc: Global, frames: &mut Frames, entity: Name, token: Token) -> Result<State, Fault>
    ensures { Took frames.new result (machine.step (machine.headed entity) token) }
{
    match token {
        Token::OpenBracket(_) => { Ok(State::HeadColumns(entity, Shown::new(alloc), Column::Next)) }
        Token::OpenBrace => Ok(body(alloc, frames, entity, None)),
        other => {
            let_token_go(other);
            Err(Fault::Bad)
        }
    }
}

fn head_columns(entity: Name, shown: Shown, column: Column, token: Token) -> Result<State, Fault>
    ensures { (fs : List machine.Frame) → Took fs result (machine.step (machine.head_columns entity shown.list (column_of column)) token) }
{
    match column_step(shown, column, token) {
        Ok(Gone::Goes(shown, column)) => Ok(State::HeadColumns(entity, shown, column)),
        Ok(Gone::Ends(shown)) => Ok(State::HeadBrace(entity, shown)),
        Err(fault) => Err(fault),
    }
}

fn head_brace(
    alloc: Global,
    frames: &mut Frames,
    entity: Name,
    shown: Selection,
    token: Token,
) -> Result<State, Fault>
    ensures { Took frames.new result (machine.step (machine.head_brace entity shown) token) }
{
    match token {
        Token::OpenBrace => Ok(body(alloc, frames, entity, Some(shown))),
        other => {
            let_token_go(other);
            Err(Fault::Bad)
        }
    }
}

// The step of a token, regardless of depth.
fn step(alloc: Global, frames: &mut Frames, state: State, token: Token) -> Result<State, Fault>
    requires { least.need (state_of frames.old state) ≤ most_depth }
    ensures { Took frames.new result (machine.step (state_of frames.old state) token) }
{
    match state {
        State::Start => start(token),
        State::Headed(entity) => headed(alloc, frames, entity, token),
        State::HeadColumns(entity, shown, column) => head_columns(entity, shown, column, token),
        State::HeadBrace(entity, shown) => head_brace(alloc, frames, entity, shown, token),
        State::Body(head) => body_step(alloc, frames, head, token),
        State::Within(spot, mode) => mode_step(alloc, frames, spot, mode, token),
        State::Done(head, pending) => done_step(alloc, frames, head, pending, token),
        State::Paged(paged, stage) => stage_step(alloc, paged, stage, token),
        State::Complete(_) => {
            let_token_go(token);
            Err(Fault::Bad)
        }
    }
}

// The next state, if its least query isn't too deep.
#[tactic(auto, using(crate::proofs::AdmitLaws::admitted, crate::proofs::AdmitLaws::refused))]
fn kept(frames: &Frames, next: State) -> Result<State, Fault>
    ensures taken { (s : machine.State) (t : Token) → machine.step s t ≡ Some (state_of frames.now next)
        → Took frames.now result (verdict.admit most_depth s t) }
    ensures shallow { IfOk result (λ s. least.need (state_of frames.now s) ≤ most_depth) }
{
    if need(frames, &next) <= MOST_DEPTH {
        Ok(next)
    } else {
        let_state_go(next);
        Err(Fault::Bad)
    }
}

// The step of a token. Fails if no query of depth at most 100 continues with it.
fn admit(alloc: Global, frames: &mut Frames, state: State, token: Token) -> Result<State, Fault>
    requires { least.need (state_of frames.old state) ≤ most_depth }
    ensures taken { Took frames.new result (verdict.admit most_depth (state_of frames.old state) token) }
    ensures shallow { IfOk result (λ s. least.need (state_of frames.new s) ≤ most_depth) }
{
    match step(alloc, frames, state, token) {
        Ok(next) => kept(frames, next),
        Err(fault) => Err(fault),
    }
}

// The step of a token of this length, with the length.
fn admitted(
    alloc: Global,
    frames: &mut Frames,
    state: State,
    token: Token,
    length: usize,
) -> Result<(State, usize), Fault>
    requires { least.need (state_of frames.old state) ≤ most_depth }
    ensures stepped { (n : ℕ) (bytes : List ℕ) → IsNext n bytes token length → Stepped (state_of frames.old state) n bytes frames.new result }
    ensures shallow { IfOk result (λ r. least.need (state_of frames.new r.0) ≤ most_depth) }
    ensures length { IfOk result (λ r. r.1 ≡ length) }
{
    match admit(alloc, frames, state, token) {
        Ok(next) => Ok((next, length)),
        Err(fault) => Err(fault),
    }
}

// The step of a token that was found, with its length. Fails if none was found.
fn behind(
    alloc: Global,
    frames: &mut Frames,
    state: State,
    begins: Option<(Token, usize)>,
) -> Result<(State, usize), Fault>
    requires { least.need (state_of frames.old state) ≤ most_depth }
    ensures stepped { (n : ℕ) (bytes : List ℕ) → BeginsWith n bytes begins → Stepped (state_of frames.old state) n bytes frames.new result }
    ensures shallow { IfOk result (λ r. least.need (state_of frames.new r.0) ≤ most_depth) }
    ensures moves { (n : ℕ) (bytes : List ℕ) → BeginsWith n bytes begins → IfOk result (λ r. (0 < r.1) × (r.1 ≤ length bytes)) }
{
    match begins {
        None => {
            let_state_go(state);
            Err(Fault::Bad)
        }
        Some((token, size)) => admitted(alloc, frames, state, token, size),
    }
}

/// The step of the token that the bytes begin with, and its length in bytes.
pub(crate) fn token_step(
    alloc: Global,
    frames: &mut Frames,
    state: State,
    bytes: &[u8],
    number: usize,
) -> Result<(State, usize), Fault>
    requires { least.need (state_of frames.old state) ≤ most_depth }
    ensures stepped { Stepped (state_of frames.old state) number bytes.now frames.new result }
    ensures shallow { IfOk result (λ r. least.need (state_of frames.new r.0) ≤ most_depth) }
    ensures moves { IfOk result (λ r. (0 < r.1) × (r.1 ≤ length bytes.now)) }
{
    match next_token(alloc, bytes, number) {
        Ok(begins) => behind(alloc, frames, state, begins),
        Err(_) => {
            let_state_go(state);
            Err(Fault::Memory)
        }
    }
}

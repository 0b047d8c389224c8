//! Reads regions, the contents of braces and parentheses: their beginning, the tokens after an operand, and their end.
ghost use Rattle.std.specs.Prelude.{◌≡◌, List, [], ◌∷◌, ◌++◌, Some, None, IfOk};
ghost use Rattle.ast_tree.specs.Tree.{filter_of};
ghost use Rattle.query_spec.specs.Query as query;
ghost use Rattle.pql_spec.specs.Grammar as grammar;
ghost use Rattle.pql_machine.specs.Machine as machine;
ghost use Rattle.pql_parts.specs.Parts.{pending_of};
ghost use Rattle.pql_parts.specs.States.{head_of, owner_of, Took};

use crate::operand::{finish, operand_begins};
use crate::page::{empty_tail, from_order};
use ast_tree::{Filter, Name};
use pql_parts::{
    Built, Closed, Fault, Frame, Frames, Head, Mode, Owner, Paged, PagingStage, Pending, Spot,
    State, deeper, let_built_go, let_head_go, let_paged_go, let_right_go, let_spot_go,
    let_token_go,
};
use pql_spec::Token;
use std::alloc::{AllocError, Global};

// Whether the level may have groups: only if it lists columns.
fn may_group(head: &Head, owner: &Owner) -> bool
    ensures { (fs : List machine.Frame) → result ≡ machine.may_group (head_of head.now) (owner_of fs owner.now) }
{
    match owner {
        Owner::Outermost => head.shown.is_some(),
        Owner::Right(_) => true,
    }
}

// Reads a token after the filter of a level.
fn level_ends(
    alloc: Global,
    head: Head,
    owner: Owner,
    closed: Closed,
    token: Token,
) -> Result<State, Fault>
    ensures { (fs : List machine.Frame) → Took fs result (machine.level_ends (head_of head) (owner_of fs owner) closed.clause token) }
{
    let groups = may_group(&head, &owner);
    let paged = Paged {
        head,
        owner,
        closed,
        tail: empty_tail(alloc),
    };
    match token {
        Token::Group => {
            if groups {
                Ok(State::Paged(paged, PagingStage::GroupBy))
            } else {
                let_paged_go(paged);
                Err(Fault::Bad)
            }
        }
        Token::Order => from_order(alloc, paged, Token::Order),
        Token::Limit => from_order(alloc, paged, Token::Limit),
        Token::Offset => from_order(alloc, paged, Token::Offset),
        Token::CloseBrace => from_order(alloc, paged, Token::CloseBrace),
        other => {
            let_paged_go(paged);
            let_token_go(other);
            Err(Fault::Bad)
        }
    }
}

// Ends an implicit subquery at its closing brace.
fn implicit_ends(
    alloc: Global,
    spot: Spot,
    entity: Name,
    closed: Closed,
    token: Token,
) -> Result<State, Fault>
    ensures { (fs : List machine.Frame) → Took fs result (machine.clause_ends (head_of spot.head)
        (machine.implicit entity (pending_of spot.pending) spot.nots ∷ fs) closed.clause token) }
{
    match token {
        Token::CloseBrace => {
            let Closed { clause, height } = closed;
            let built = Built {
                filter: Filter::Subquery(entity, clause),
                height: deeper(height),
            };
            finish(alloc, spot, built)
        }
        other => {
            let_spot_go(spot);
            let_token_go(other);
            Err(Fault::Bad)
        }
    }
}

// Reads a token after the content of braces.
fn clause_ends(
    alloc: Global,
    frames: &mut Frames,
    head: Head,
    closed: Closed,
    token: Token,
) -> Result<State, Fault>
    ensures { Took frames.new result (machine.clause_ends (head_of head) frames.old closed.clause token) }
{
    match frames.pop() {
        None => level_ends(alloc, head, Owner::Outermost, closed, token),
        Some(Frame::Parens(pending, nots)) => {
            let_spot_go(Spot {
                head,
                pending,
                nots,
            });
            let_token_go(token);
            Err(Fault::Bad)
        }
        Some(Frame::Implicit(entity, pending, nots)) => {
            let spot = Spot {
                head,
                pending,
                nots,
            };
            implicit_ends(alloc, spot, entity, closed, token)
        }
        Some(Frame::Inner(right)) => { level_ends(alloc, head, Owner::Right(right), closed, token) }
    }
}

// Closes a parenthesis.
fn parens_end(alloc: Global, frames: &mut Frames, head: Head, built: Built) -> Result<State, Fault>
    ensures { Took frames.new result (machine.parens_end (head_of head) frames.old (filter_of built.filter)) }
{
    match frames.pop() {
        Some(Frame::Parens(pending, nots)) => {
            let spot = Spot {
                head,
                pending,
                nots,
            };
            finish(alloc, spot, built)
        }
        Some(Frame::Implicit(_, pending, nots)) => {
            let_spot_go(Spot {
                head,
                pending,
                nots,
            });
            let_built_go(built);
            Err(Fault::Bad)
        }
        Some(Frame::Inner(right)) => {
            let_head_go(head);
            let_right_go(right);
            let_built_go(built);
            Err(Fault::Bad)
        }
        None => {
            let_head_go(head);
            let_built_go(built);
            Err(Fault::Bad)
        }
    }
}

/// Reads a token after an opening brace.
pub(crate) fn body_step(
    alloc: Global,
    frames: &mut Frames,
    head: Head,
    token: Token,
) -> Result<State, Fault>
    ensures { Took frames.new result (machine.body_step (head_of head) frames.old token) }
{
    match token {
        Token::Word(name) => begins(alloc, frames, head, Token::Word(name)),
        Token::OpenBracket(place) => begins(alloc, frames, head, Token::OpenBracket(place)),
        Token::Bang => begins(alloc, frames, head, Token::Bang),
        Token::OpenParen => begins(alloc, frames, head, Token::OpenParen),
        Token::CloseBrace => clause_ends(alloc, frames, head, Closed::none(), Token::CloseBrace),
        Token::Group => clause_ends(alloc, frames, head, Closed::none(), Token::Group),
        Token::Order => clause_ends(alloc, frames, head, Closed::none(), Token::Order),
        Token::Limit => clause_ends(alloc, frames, head, Closed::none(), Token::Limit),
        Token::Offset => clause_ends(alloc, frames, head, Closed::none(), Token::Offset),
        other => {
            let_head_go(head);
            let_token_go(other);
            Err(Fault::Bad)
        }
    }
}

// Reads the first token of a region's first operand.
fn begins(alloc: Global, frames: &mut Frames, head: Head, token: Token) -> Result<State, Fault>
    ensures { Took frames.new result (machine.operand_begins (head_of head) frames.old machine.nothing 0 token) }
{
    let spot = Spot {
        head,
        pending: Pending::new(alloc),
        nots: 0,
    };
    operand_begins(alloc, frames, spot, token)
}

// The filter of braces that end.
fn closed(alloc: Global, pending: Pending) -> Result<Closed, AllocError>
    ensures { IfOk result (λ k. k.clause ≡ query.clause (machine.region (pending_of pending))) }
{
    Closed::of(alloc, pending.region()?)
}

// Closes braces after an operand.
fn region_closes(
    alloc: Global,
    frames: &mut Frames,
    head: Head,
    pending: Pending,
    token: Token,
) -> Result<State, Fault>
    ensures { Took frames.new result (machine.clause_ends (head_of head) frames.old (query.clause (machine.region (pending_of pending))) token) }
{
    match closed(alloc, pending) {
        Ok(closed) => clause_ends(alloc, frames, head, closed, token),
        Err(_) => {
            let_head_go(head);
            let_token_go(token);
            Err(Fault::Memory)
        }
    }
}

// Closes a parenthesis after an operand.
fn parens_close(
    alloc: Global,
    frames: &mut Frames,
    head: Head,
    pending: Pending,
) -> Result<State, Fault>
    ensures { Took frames.new result (machine.parens_end (head_of head) frames.old (machine.region (pending_of pending))) }
{
    match pending.region() {
        Ok(built) => parens_end(alloc, frames, head, built),
        Err(_) => {
            let_head_go(head);
            Err(Fault::Memory)
        }
    }
}

// Begins the next group at `or`.
fn group_begins(alloc: Global, head: Head, pending: Pending) -> Result<State, Fault>
    ensures { (fs : List machine.Frame) → Took fs result (Some
        (machine.within (head_of head) fs (record { any = pending.any.filters ++ grammar.join_all pending.all.filters ∷ []; all = [] }) 0 machine.operand)) }
{
    let spot = Spot {
        head,
        pending: pending.next_group(alloc)?,
        nots: 0,
    };
    Ok(State::Within(spot, Mode::Operand))
}

/// Reads a token after an operand.
pub(crate) fn done_step(
    alloc: Global,
    frames: &mut Frames,
    head: Head,
    pending: Pending,
    token: Token,
) -> Result<State, Fault>
    ensures { Took frames.new result (machine.done_step (head_of head) frames.old (pending_of pending) token) }
{
    match token {
        Token::And => {
            let spot = Spot {
                head,
                pending,
                nots: 0,
            };
            Ok(State::Within(spot, Mode::Operand))
        }
        Token::Or => group_begins(alloc, head, pending),
        Token::CloseParen => parens_close(alloc, frames, head, pending),
        Token::CloseBrace => region_closes(alloc, frames, head, pending, Token::CloseBrace),
        Token::Group => region_closes(alloc, frames, head, pending, Token::Group),
        Token::Order => region_closes(alloc, frames, head, pending, Token::Order),
        Token::Limit => region_closes(alloc, frames, head, pending, Token::Limit),
        Token::Offset => region_closes(alloc, frames, head, pending, Token::Offset),
        other => {
            let_spot_go(Spot {
                head,
                pending,
                nots: 0,
            });
            let_token_go(other);
            Err(Fault::Bad)
        }
    }
}

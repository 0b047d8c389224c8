//! Reads what follows the filter of a level: groups, orders, limit and offset, each at most once and in this order.
ghost use Rattle.std.specs.Prelude.{◌≡◌, ℕ, List, [], ◌∷◌, ◌++◌, Some, None, IfOk, option_map};
ghost use Rattle.ast_tree.specs.Tree.{filter_of};
ghost use Rattle.query_spec.specs.Ast.{order};
ghost use Rattle.pql_spec.specs.Grammar as grammar;
ghost use Rattle.pql_spec.specs.declared.token.Token.TheVariants as token;
ghost use Rattle.pql_machine.specs.Machine as machine;
ghost use Rattle.pql_parts.specs.Parts.{pending_of};
ghost use Rattle.pql_parts.specs.States.{head_of, owner_of, tail_of, stage_of, paged_step, Took};

use crate::operand::finish_of;
use ast_tree::{Columns, Filter, Level, Literal, Name, Order, Orders, Paging, Scalar, Selection};
use pql_parts::{
    Built, Closed, Fault, Finished, Head, Owner, Paged, PagingStage, Right, Spot, State, Tail,
    count_of, deeper, fields_of, let_paged_go, let_token_go,
};
use pql_spec::Token;
use std::alloc::{AllocError, Global};

// Drops the columns that were read if no query continues with the token.
fn let_columns_go(paged: Paged, _columns: Columns, _name: Name, token: Token) {
    let_paged_go(paged);
    let_token_go(token);
}

fn let_orders_go(paged: Paged, _orders: Orders, _name: Name, token: Token) {
    let_paged_go(paged);
    let_token_go(token);
}

/// No groups and no paging.
pub(crate) fn empty_tail(alloc: Global) -> Tail
    ensures { tail_of result ≡ grammar.empty }
{
    Tail {
        group: Columns::new(alloc),
        paging: Paging {
            order: Orders::new(alloc),
            offset: None,
            limit: None,
            include_total: false,
        },
    }
}

fn with_order(tail: Tail, order: Orders) -> Tail
    ensures { tail_of result ≡ grammar.with_order (tail_of tail) order }
{
    let Tail { group, paging } = tail;
    let Paging {
        order: _,
        offset,
        limit,
        include_total,
    } = paging;
    Tail {
        group,
        paging: Paging {
            order,
            offset,
            limit,
            include_total,
        },
    }
}

fn with_limit(tail: Tail, count: u64) -> Tail
    ensures { tail_of result ≡ grammar.with_limit (tail_of tail) count }
{
    let Tail { group, paging } = tail;
    let Paging {
        order,
        offset,
        limit: _,
        include_total,
    } = paging;
    Tail {
        group,
        paging: Paging {
            order,
            offset,
            limit: Some(count),
            include_total,
        },
    }
}

fn with_offset(tail: Tail, count: u64) -> Tail
    ensures { tail_of result ≡ grammar.with_offset (tail_of tail) count }
{
    let Tail { group, paging } = tail;
    let Paging {
        order,
        offset: _,
        limit,
        include_total,
    } = paging;
    Tail {
        group,
        paging: Paging {
            order,
            offset: Some(count),
            limit,
            include_total,
        },
    }
}

// The filter of `in` with this level on its right side.
fn among_rows(
    alloc: Global,
    left: Vec<Name>,
    entity: Name,
    shown: Selection,
    closed: Closed,
    tail: Tail,
) -> Result<Built, AllocError>
    ensures { IfOk result (λ b. filter_of b.filter ≡ grammar.among_rows left.items entity
        (grammar.level_with entity (Some shown) closed.clause (tail_of tail))) }
{
    let place = entity.place.copy(alloc)?;
    let fields = fields_of(alloc, left)?;
    let Closed { clause, height } = closed;
    let Tail { group, paging } = tail;
    let level = Level::new(entity, Some(shown), clause, group, paging);
    Ok(Built {
        filter: Filter::InLevel(fields, place, Box::new(alloc, level)?),
        height: deeper(height),
    })
}

// Ends the level on the right side of `in`.
fn right_done(
    alloc: Global,
    head: Head,
    right: Right,
    closed: Closed,
    tail: Tail,
) -> Result<State, Fault>
    ensures { (fs : List machine.Frame) → Took fs result (Some
        (machine.level_done (head_of head) (machine.right_of fs right.left.items right.entity right.shown (pending_of right.pending) right.nots)
        closed.clause (tail_of tail))) }
{
    let Right {
        left,
        entity,
        shown,
        pending,
        nots,
    } = right;
    let spot = Spot {
        head,
        pending,
        nots,
    };
    finish_of(
        alloc,
        spot,
        among_rows(alloc, left, entity, shown, closed, tail),
    )
}

// Ends the outermost level.
fn query_done(head: Head, closed: Closed, tail: Tail) -> State
    ensures { (fs : List machine.Frame) → Took fs (Ok result) (Some (machine.level_done (head_of head) machine.outermost closed.clause (tail_of tail))) }
{
    let Head { entity, shown } = head;
    let Closed { clause, height } = closed;
    let Tail { group, paging } = tail;
    let level = Level::new(entity, shown, clause, group, paging);
    State::Complete(Finished { level, height })
}

// Ends a level.
fn level_done(alloc: Global, paged: Paged) -> Result<State, Fault>
    ensures { (fs : List machine.Frame) → Took fs result (Some
        (machine.level_done (head_of paged.head) (owner_of fs paged.owner) paged.closed.clause (tail_of paged.tail))) }
{
    let Paged {
        head,
        owner,
        closed,
        tail,
    } = paged;
    match owner {
        Owner::Outermost => Ok(query_done(head, closed, tail)),
        Owner::Right(right) => right_done(alloc, head, right, closed, tail),
    }
}

// Reads a token after a part that follows a filter.
fn from_end(alloc: Global, paged: Paged, token: Token) -> Result<State, Fault>
    ensures { (fs : List machine.Frame) → Took fs result (machine.from_end (head_of paged.head) (owner_of fs paged.owner) paged.closed.clause
        (tail_of paged.tail) token) }
{
    match token {
        Token::CloseBrace => level_done(alloc, paged),
        other => {
            let_paged_go(paged);
            let_token_go(other);
            Err(Fault::Bad)
        }
    }
}

fn from_offset(alloc: Global, paged: Paged, token: Token) -> Result<State, Fault>
    ensures { (fs : List machine.Frame) → Took fs result (machine.from_offset (head_of paged.head) (owner_of fs paged.owner) paged.closed.clause
        (tail_of paged.tail) token) }
{
    match token {
        Token::Offset => Ok(State::Paged(paged, PagingStage::OffsetCount)),
        Token::CloseBrace => from_end(alloc, paged, Token::CloseBrace),
        other => {
            let_paged_go(paged);
            let_token_go(other);
            Err(Fault::Bad)
        }
    }
}

fn from_limit(alloc: Global, paged: Paged, token: Token) -> Result<State, Fault>
    ensures { (fs : List machine.Frame) → Took fs result (machine.from_limit (head_of paged.head) (owner_of fs paged.owner) paged.closed.clause
        (tail_of paged.tail) token) }
{
    match token {
        Token::Limit => Ok(State::Paged(paged, PagingStage::LimitCount)),
        Token::Offset => Ok(State::Paged(paged, PagingStage::OffsetCount)),
        Token::CloseBrace => from_end(alloc, paged, Token::CloseBrace),
        other => {
            let_paged_go(paged);
            let_token_go(other);
            Err(Fault::Bad)
        }
    }
}

/// Reads a token where orders may begin: after the groups or without any.
pub(crate) fn from_order(alloc: Global, paged: Paged, token: Token) -> Result<State, Fault>
    ensures { (fs : List machine.Frame) → Took fs result (machine.from_order (head_of paged.head) (owner_of fs paged.owner) paged.closed.clause
        (tail_of paged.tail) token) }
{
    match token {
        Token::Order => Ok(State::Paged(paged, PagingStage::OrderBy)),
        Token::Limit => Ok(State::Paged(paged, PagingStage::LimitCount)),
        Token::Offset => Ok(State::Paged(paged, PagingStage::OffsetCount)),
        Token::CloseBrace => from_end(alloc, paged, Token::CloseBrace),
        other => {
            let_paged_go(paged);
            let_token_go(other);
            Err(Fault::Bad)
        }
    }
}

fn group_by(alloc: Global, paged: Paged, token: Token) -> Result<State, Fault>
    ensures { (fs : List machine.Frame) → Took fs result (paged_step fs paged machine.group_by token) }
{
    match token {
        Token::By => Ok(State::Paged(paged, PagingStage::GroupNext(Columns::new(alloc)))),
        other => {
            let_paged_go(paged);
            let_token_go(other);
            Err(Fault::Bad)
        }
    }
}

fn group_next(paged: Paged, columns: Columns, token: Token) -> Result<State, Fault>
    ensures { (fs : List machine.Frame) → Took fs result (paged_step fs paged (machine.group_next columns) token) }
{
    match token {
        Token::Word(name) => Ok(State::Paged(paged, PagingStage::GroupBehind(columns, name))),
        other => {
            let_paged_go(paged);
            let_token_go(other);
            Err(Fault::Bad)
        }
    }
}

fn more_columns(columns: Columns, name: Name) -> Result<Columns, AllocError>
    ensures { IfOk result (λ cs. cs ≡ columns ++ name ∷ []) }
{
    let mut columns = columns;
    columns.push(name)?;
    Ok(columns)
}

fn with_group(tail: Tail, group: Columns) -> Tail
    ensures { tail_of result ≡ grammar.with_group (tail_of tail) group }
{
    let Tail { group: _, paging } = tail;
    Tail { group, paging }
}

// Ends the groups with one more column.
fn grouped(paged: Paged, columns: Columns, name: Name) -> Result<Paged, AllocError>
    ensures { IfOk result (λ p. (p.head ≡ paged.head) × (p.owner ≡ paged.owner) × (p.closed ≡ paged.closed)
        × (tail_of p.tail ≡ grammar.with_group (tail_of paged.tail) (columns ++ name ∷ []))) }
{
    match more_columns(columns, name) {
        Ok(group) => {
            let Paged {
                head,
                owner,
                closed,
                tail,
            } = paged;
            Ok(Paged {
                head,
                owner,
                closed,
                tail: with_group(tail, group),
            })
        }
        Err(fault) => {
            let_paged_go(paged);
            Err(fault)
        }
    }
}

fn group_ends(
    alloc: Global,
    paged: Paged,
    columns: Columns,
    name: Name,
    token: Token,
) -> Result<State, Fault>
    ensures { (fs : List machine.Frame) → Took fs result (machine.from_order (head_of paged.head) (owner_of fs paged.owner) paged.closed.clause
        (grammar.with_group (tail_of paged.tail) (columns ++ name ∷ [])) token) }
{
    let paged = grouped(paged, columns, name)?;
    from_order(alloc, paged, token)
}

fn next_column(paged: Paged, columns: Columns, name: Name) -> Result<State, Fault>
    ensures { (fs : List machine.Frame) → Took fs result (paged_step fs paged (machine.group_behind columns name) token.Comma) }
{
    match more_columns(columns, name) {
        Ok(columns) => Ok(State::Paged(paged, PagingStage::GroupNext(columns))),
        Err(_) => {
            let_paged_go(paged);
            Err(Fault::Memory)
        }
    }
}

fn group_behind(
    alloc: Global,
    paged: Paged,
    columns: Columns,
    name: Name,
    token: Token,
) -> Result<State, Fault>
    ensures { (fs : List machine.Frame) → Took fs result (paged_step fs paged (machine.group_behind columns name) token) }
{
    match token {
        Token::Comma => next_column(paged, columns, name),
        Token::Order => group_ends(alloc, paged, columns, name, Token::Order),
        Token::Limit => group_ends(alloc, paged, columns, name, Token::Limit),
        Token::Offset => group_ends(alloc, paged, columns, name, Token::Offset),
        Token::CloseBrace => group_ends(alloc, paged, columns, name, Token::CloseBrace),
        other => {
            let_columns_go(paged, columns, name, other);
            Err(Fault::Bad)
        }
    }
}

fn order_by(alloc: Global, paged: Paged, token: Token) -> Result<State, Fault>
    ensures { (fs : List machine.Frame) → Took fs result (paged_step fs paged machine.order_by token) }
{
    match token {
        Token::By => Ok(State::Paged(paged, PagingStage::OrderNext(Orders::new(alloc)))),
        other => {
            let_paged_go(paged);
            let_token_go(other);
            Err(Fault::Bad)
        }
    }
}

fn order_next(paged: Paged, orders: Orders, token: Token) -> Result<State, Fault>
    ensures { (fs : List machine.Frame) → Took fs result (paged_step fs paged (machine.order_next orders) token) }
{
    match token {
        Token::Word(name) => Ok(State::Paged(paged, PagingStage::OrderBehind(orders, name))),
        other => {
            let_paged_go(paged);
            let_token_go(other);
            Err(Fault::Bad)
        }
    }
}

fn more_orders(orders: Orders, column: Name, descends: bool) -> Result<Orders, AllocError>
    ensures { IfOk result (λ os. os ≡ orders ++ order column descends ∷ []) }
{
    let mut orders = orders;
    orders.push(Order { column, descends })?;
    Ok(orders)
}

// Ends the orders.
fn ordered(paged: Paged, orders: Orders) -> Paged
    ensures { (result.head ≡ paged.head) × (result.owner ≡ paged.owner) × (result.closed ≡ paged.closed)
        × (tail_of result.tail ≡ grammar.with_order (tail_of paged.tail) orders) }
{
    let Paged {
        head,
        owner,
        closed,
        tail,
    } = paged;
    Paged {
        head,
        owner,
        closed,
        tail: with_order(tail, orders),
    }
}

// Ends the orders with one more, and reads the token after them.
fn ordered_by(
    alloc: Global,
    paged: Paged,
    orders: Orders,
    column: Name,
    descends: bool,
    token: Token,
) -> Result<State, Fault>
    ensures { (fs : List machine.Frame) → Took fs result (machine.from_limit (head_of paged.head) (owner_of fs paged.owner) paged.closed.clause
        (grammar.with_order (tail_of paged.tail) (orders ++ order column descends ∷ [])) token) }
{
    match more_orders(orders, column, descends) {
        Ok(orders) => from_limit(alloc, ordered(paged, orders), token),
        Err(_) => {
            let_paged_go(paged);
            let_token_go(token);
            Err(Fault::Memory)
        }
    }
}

// Adds an order; another follows.
fn next_order(paged: Paged, orders: Orders, column: Name, descends: bool) -> Result<State, Fault>
    ensures { (fs : List machine.Frame) → Took fs result (Some
        (machine.paged (head_of paged.head) (owner_of fs paged.owner) paged.closed.clause (tail_of paged.tail)
        (machine.order_next (orders ++ order column descends ∷ [])))) }
{
    match more_orders(orders, column, descends) {
        Ok(orders) => Ok(State::Paged(paged, PagingStage::OrderNext(orders))),
        Err(_) => {
            let_paged_go(paged);
            Err(Fault::Memory)
        }
    }
}

fn order_behind(
    alloc: Global,
    paged: Paged,
    orders: Orders,
    name: Name,
    token: Token,
) -> Result<State, Fault>
    ensures { (fs : List machine.Frame) → Took fs result (paged_step fs paged (machine.order_behind orders name) token) }
{
    match token {
        Token::Comma => next_order(paged, orders, name, false),
        Token::Asc => Ok(State::Paged(paged, PagingStage::OrderDirected(orders, name, false))),
        Token::Desc => Ok(State::Paged(paged, PagingStage::OrderDirected(orders, name, true))),
        Token::Limit => ordered_by(alloc, paged, orders, name, false, Token::Limit),
        Token::Offset => ordered_by(alloc, paged, orders, name, false, Token::Offset),
        Token::CloseBrace => ordered_by(alloc, paged, orders, name, false, Token::CloseBrace),
        other => {
            let_orders_go(paged, orders, name, other);
            Err(Fault::Bad)
        }
    }
}

fn order_directed(
    alloc: Global,
    paged: Paged,
    orders: Orders,
    name: Name,
    descends: bool,
    token: Token,
) -> Result<State, Fault>
    ensures { (fs : List machine.Frame) → Took fs result (paged_step fs paged (machine.order_directed orders name descends) token) }
{
    match token {
        Token::Comma => next_order(paged, orders, name, descends),
        Token::Limit => ordered_by(alloc, paged, orders, name, descends, Token::Limit),
        Token::Offset => ordered_by(alloc, paged, orders, name, descends, Token::Offset),
        Token::CloseBrace => ordered_by(alloc, paged, orders, name, descends, Token::CloseBrace),
        other => {
            let_orders_go(paged, orders, name, other);
            Err(Fault::Bad)
        }
    }
}

// The count, if the literal is one.
fn count_in(literal: Literal) -> Option<u64>
    ensures { (f : ℕ → machine.State) → machine.with_count literal.value f ≡ option_map f result }
{
    let Literal { value, place: _ } = literal;
    match value {
        Scalar::Num(number) => count_of(&number),
        Scalar::Text(_) => None,
        Scalar::Bool(_) => None,
    }
}

fn limit_to(paged: Paged, count: u64) -> State
    ensures { (fs : List machine.Frame) → Took fs (Ok result)
        (Some (machine.paged (head_of paged.head) (owner_of fs paged.owner) paged.closed.clause
        (grammar.with_limit (tail_of paged.tail) count) machine.behind_limit)) }
{
    let Paged {
        head,
        owner,
        closed,
        tail,
    } = paged;
    let paged = Paged {
        head,
        owner,
        closed,
        tail: with_limit(tail, count),
    };
    State::Paged(paged, PagingStage::BehindLimit)
}

fn limit_read(paged: Paged, literal: Literal) -> Result<State, Fault>
    ensures { (fs : List machine.Frame) → Took fs result (paged_step fs paged machine.limit_count (token.Literal literal)) }
{
    match count_in(literal) {
        Some(count) => Ok(limit_to(paged, count)),
        None => {
            let_paged_go(paged);
            Err(Fault::Bad)
        }
    }
}

fn limit_count(paged: Paged, token: Token) -> Result<State, Fault>
    ensures { (fs : List machine.Frame) → Took fs result (paged_step fs paged machine.limit_count token) }
{
    match token {
        Token::Literal(literal) => limit_read(paged, literal),
        other => {
            let_paged_go(paged);
            let_token_go(other);
            Err(Fault::Bad)
        }
    }
}

fn offset_by(paged: Paged, count: u64) -> State
    ensures { (fs : List machine.Frame) → Took fs (Ok result)
        (Some (machine.paged (head_of paged.head) (owner_of fs paged.owner) paged.closed.clause
        (grammar.with_offset (tail_of paged.tail) count) machine.behind_offset)) }
{
    let Paged {
        head,
        owner,
        closed,
        tail,
    } = paged;
    let paged = Paged {
        head,
        owner,
        closed,
        tail: with_offset(tail, count),
    };
    State::Paged(paged, PagingStage::BehindOffset)
}

fn offset_read(paged: Paged, literal: Literal) -> Result<State, Fault>
    ensures { (fs : List machine.Frame) → Took fs result (paged_step fs paged machine.offset_count (token.Literal literal)) }
{
    match count_in(literal) {
        Some(count) => Ok(offset_by(paged, count)),
        None => {
            let_paged_go(paged);
            Err(Fault::Bad)
        }
    }
}

fn offset_count(paged: Paged, token: Token) -> Result<State, Fault>
    ensures { (fs : List machine.Frame) → Took fs result (paged_step fs paged machine.offset_count token) }
{
    match token {
        Token::Literal(literal) => offset_read(paged, literal),
        other => {
            let_paged_go(paged);
            let_token_go(other);
            Err(Fault::Bad)
        }
    }
}

/// Reads a token after the filter of a level.
pub(crate) fn stage_step(
    alloc: Global,
    paged: Paged,
    stage: PagingStage,
    token: Token,
) -> Result<State, Fault>
    ensures { (fs : List machine.Frame) → Took fs result (paged_step fs paged (stage_of stage) token) }
{
    match stage {
        PagingStage::GroupBy => group_by(alloc, paged, token),
        PagingStage::GroupNext(columns) => group_next(paged, columns, token),
        PagingStage::GroupBehind(columns, name) => group_behind(alloc, paged, columns, name, token),
        PagingStage::OrderBy => order_by(alloc, paged, token),
        PagingStage::OrderNext(orders) => order_next(paged, orders, token),
        PagingStage::OrderBehind(orders, name) => order_behind(alloc, paged, orders, name, token),
        PagingStage::OrderDirected(orders, name, descends) => {
            order_directed(alloc, paged, orders, name, descends, token)
        }
        PagingStage::LimitCount => limit_count(paged, token),
        PagingStage::BehindLimit => from_offset(alloc, paged, token),
        PagingStage::OffsetCount => offset_count(paged, token),
        PagingStage::BehindOffset => from_end(alloc, paged, token),
    }
}

//! The reader's states. They are the machine's states, but the frames are stored separately (`frames.rt`).
ghost use Rattle.std.specs.Prelude.{◌≡◌};
ghost use Rattle.query_spec.specs.Query.{level_height};
ghost use Rattle.pql_parts.specs.Heights.{capped};

use crate::build::{Closed, Pending};
use crate::column::{Column, let_column_go};
use crate::frames::Right;
use crate::shown::Shown;
use ast_tree::{Columns, Level, Literal, Literals, Name, Op, Orders, Paging, Place, Selection};

/// The outermost level.
#[derive(Drop)]
pub struct Head {
    pub entity: Name,
    pub shown: Option<Selection>,
}

/// The level whose paging is read.
#[derive(Drop)]
pub enum Owner {
    Outermost,
    Right(Right),
}

/// The groups and the paging read so far.
#[derive(Drop)]
pub struct Tail {
    pub group: Columns,
    pub paging: Paging,
}

/// The state after the filter of a level.
#[derive(Drop)]
pub struct Paged {
    pub head: Head,
    pub owner: Owner,
    pub closed: Closed,
    pub tail: Tail,
}

#[derive(Drop)]
pub enum PagingStage {
    GroupBy,
    GroupNext(Columns),
    GroupBehind(Columns, Name),
    OrderBy,
    OrderNext(Orders),
    OrderBehind(Orders, Name),
    OrderDirected(Orders, Name, bool),
    LimitCount,
    BehindLimit,
    OffsetCount,
    BehindOffset,
}

/// An operand that is being read, with the pending filters and the negations before it.
#[derive(Drop)]
pub struct Spot {
    pub head: Head,
    pub pending: Pending,
    pub nots: usize,
}

/// The state within an operand.
#[derive(Drop)]
pub enum Mode {
    Operand,
    Named(Name),
    CompareTo(Name, Op),
    DifferFrom(Name),
    MatchWith(Name),
    NullOrNot(Name),
    NotNull(Name),
    LeftNext(Vec<Name>),
    LeftBehind(Vec<Name>, Name),
    InExpected(Vec<Name>),
    Right(Vec<Name>),
    LiteralNext(Vec<Name>, Place, Literals),
    LiteralBehind(Vec<Name>, Place, Literals, Literal),
    InnerBracket(Vec<Name>, Name),
    InnerColumns(Vec<Name>, Name, Shown, Column),
    InnerBrace(Vec<Name>, Name, Selection),
}

/// A complete query, and the nesting depth of its filters.
#[derive(Drop)]
pub struct Finished {
    pub level: Level,
    pub height: usize,
    pub ghost exact: { height ≡ capped (level_height level) },
}

#[derive(Drop)]
pub enum State {
    Start,
    Headed(Name),
    HeadColumns(Name, Shown, Column),
    HeadBrace(Name, Selection),
    /// After an opening brace.
    Body(Head),
    Within(Spot, Mode),
    /// After an operand, the last of its group so far.
    Done(Head, Pending),
    Paged(Paged, PagingStage),
    Complete(Finished),
}

/// Drops values when no query continues with the token.
pub fn let_head_go(_head: Head) {}

pub fn let_paged_go(_paged: Paged) {}

pub fn let_spot_go(_spot: Spot) {}

fn let_stage_go(_stage: PagingStage) {}

fn let_mode_go(_mode: Mode) {}

fn let_level_go(_finished: Finished) {}

pub fn let_state_go(state: State) {
    match state {
        State::Start => {}
        State::Headed(_) => {}
        State::HeadColumns(_, shown, column) => let_column_go(shown, column),
        State::HeadBrace(_, _) => {}
        State::Body(head) => let_head_go(head),
        State::Within(spot, mode) => {
            let_spot_go(spot);
            let_mode_go(mode);
        }
        State::Done(head, pending) => {
            let_spot_go(Spot {
                head,
                pending,
                nots: 0,
            });
        }
        State::Paged(paged, stage) => {
            let_paged_go(paged);
            let_stage_go(stage);
        }
        State::Complete(finished) => let_level_go(finished),
    }
}

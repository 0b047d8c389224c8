//! Defines the states of the reader of PQL, and stores what is open around a filter.
//!
//! The states are those of `pql_machine` (`state.rt`), but what is open is stored in a list of its own (`frames.rt`), the innermost
//! last. Each list of filters stores its height (`build.rt`). From the heights [`need`] computes in a few steps whether the least
//! query of a state nests at most 100 levels; greater heights are all stored as 101.
//!
//! Columns are read here ([`column_step`]), since heads and right sides of `in` share them. Large values are dropped in functions of
//! their own (`let_state_go` and the others).
#![tactic(auto)]

mod build;
mod column;
mod count;
mod fault;
mod frames;
mod least;
mod shown;
mod sides;
mod state;

pub use build::{Arms, Built, Closed, Pending, deeper, let_built_go};
pub use column::{Column, Gone, column_step};
pub use count::count_of;
pub use fault::{Fault, let_token_go};
pub use frames::{Frame, Frames, Right, let_right_go};
pub use least::need;
pub use shown::Shown;
pub use sides::{field_named, fields_of, more};
pub use state::{
    Finished, Head, Mode, Owner, Paged, PagingStage, Spot, State, Tail, let_head_go, let_paged_go,
    let_spot_go, let_state_go,
};

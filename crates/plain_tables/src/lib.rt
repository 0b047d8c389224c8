//! What tests of tables share: what the definitions of histories say, as a plain and slow program, and rows as text. There is nothing
//! here but what tests use.
#![tactic(auto)]

mod events;
mod rows;
mod texts;
mod turns;

pub use events::{Applied, Event};
pub use rows::{payload_of, plain_rows};
pub use texts::{put_cell, put_moment, put_row, put_told, put_words};
pub use turns::{Turns, kinds_of};

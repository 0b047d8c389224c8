//! The calls of a turn lock: each hold of a pass is one call, which finds a list and appends entries to it.
//!
//! Other threads go on while a pass knows only what it has seen. So a pass knows its calls in every list that goes on from what it
//! has seen (`KnowsCalls` in `specs/Calls.antt`). The laws of this crate carry that through holds, splits and joins without looking
//! at the calls again. When all passes were joined and the lock is closed, the calls together appended each entry since the opening
//! exactly once.
//!
//! The laws hold for any entries and any calls (`Calling`). The crate has no code.
#![tactic(auto)]

mod laws;

pub use laws::{Calling, all_calls_append_all, passes_know_their_calls};

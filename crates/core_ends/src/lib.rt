//! States what ends the work on a core, and proves what each single call of a core does to a sequence of calls.
//!
//! `specs/Answers.antt` says which answers of a claim or a settle end the work, and how ([`WorkEnd`]). [`end_of_settle`] is that of
//! a settle, for all that work. `specs/Ends.antt` says what each end says of the core before the work and after it: which log went
//! down, which fault count rose, what is still pending.
//!
//! The files `Submits`, `Claims`, `Settles`, `Releases` and `Sweeps` of `proofs/` cover one call of a core each. Each has a
//! record of the clauses that matter here, and the lemma that one call is a sequence of one. `ClaimEnds` and `SettleEnds` show
//! what the end of one call says. `Later` shows that it goes on to hold of a longer sequence.
#![tactic(auto)]

mod ends;

pub use ends::{WorkEnd, end_of_settle};

// Re-exports for the crates above.
pub use command_core::{
    Claimed, Core, DownBy, Job, Keeper, LogKeeper, OpenCoreFault, Prepared, Settled, Submitted,
    Swept, Tally, Verdict, lay_core, open_core,
};
pub use core_course::Found;

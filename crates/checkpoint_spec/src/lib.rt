//! Defines checkpoints: the list in a table's checkpoint, and the table that a list leads to. This crate has no code that runs.
//!
//! A checkpoint keeps only what still counts: the lifetimes, the greatest moments of sweeps, and for each node its greatest
//! activity, its newest command of each kind except reports, and its kept reports. `specs/Histories.antt` defines it from a
//! history, `specs/Lists.antt` from a table. A list leads to a table by its marks first and then by its commands in order.
//!
//! The main guarantee: a checkpoint leads to the table of its history, and a checkpoint followed by more commands leads to the
//! table of the history with these commands. So a reader of the list needn't know where the checkpoint ends.
//!
//! Each public function has laws of `specs/Laws.antt` as its contract and an empty body.
#![tactic(auto)]

mod checkpoints;

pub use checkpoints::{
    a_checkpoint_goes_on, a_checkpoint_is_its_own, a_checkpoint_leads_to_the_table,
    a_table_lists_its_checkpoint,
};

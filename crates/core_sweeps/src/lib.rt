//! Sweeps the tables: expires nodes, purges them, or removes old reports.
//!
//! [`sweep`] keeps the record of a sweep in the store, and then sweeps the tables. After Ok the core stands for the history with
//! the sweep. At each moment within, the images of the disks stand for the history before, or for it and the sweep.
//! `specs/Sweeps.antt` says what each answer leaves.
//!
//! [`sweep`] has one clause, `does`: the record `CoreSweeps` (`specs/Call.antt`). Its fields `adds` and `writes` say exactly what
//! is added. StoreFault is counted (`cause`), and StoreDown counts two faults (`twice`). Spent comes only if the store has no room
//! (`spent`), and then always, unless memory is missing (`unspent`). A refusal leaves what is held (`stays`, `fault`).
#![tactic(auto)]

mod answers;
mod sweeping;

pub use answers::Swept;
pub use sweeping::sweep;

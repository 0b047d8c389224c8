//! Tests of parts of the core: pending commands (`supersede_core`), discarded ones (`retry_discard`), and the keeper of the store
//! (`fleet_keeper`), over disks in memory. Most cases are lines of text. There is nothing here but tests.
#![tactic(auto)]

#[cfg(test)]
mod discarded;
#[cfg(test)]
mod keeper_cases;
#[cfg(test)]
mod keepers;
#[cfg(test)]
mod plain;
#[cfg(test)]
mod queue;
#[cfg(test)]
mod queue_cases;
#[cfg(test)]
mod scripts;
#[cfg(test)]
mod trials;
#[cfg(test)]
mod waiting;

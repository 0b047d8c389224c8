//! Tests of `row_cells`, `fleet_tables` and `ttl_sweeps`: the rows of small fleets cell by cell, the edges of ranks, lifetimes
//! and limits, what tables list and what a list leads to, generated histories beside a plain program that goes by the
//! definitions, look-ups beside a filter of all rows, and inputs that are large. Most cases are lines of text (`play.rt`). There
//! is nothing here but tests.
#![tactic(auto)]

#[cfg(test)]
mod histories;
#[cfg(test)]
mod large;
#[cfg(test)]
mod lifetimes;
#[cfg(test)]
mod lists;
#[cfg(test)]
mod lookups;
#[cfg(test)]
mod packed;
#[cfg(test)]
mod play;
#[cfg(test)]
mod ranks;
#[cfg(test)]
mod reports;
#[cfg(test)]
mod small_fleet;

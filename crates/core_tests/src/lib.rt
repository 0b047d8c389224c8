//! Tests of the core over disks in memory: what an opening reads (`core_opening`), and the core itself (`command_core`). The cases are
//! lines of text, which `tried` of `test_support` reads. There is nothing here but tests.
#![tactic(auto)]

#[cfg(test)]
mod answers;
#[cfg(test)]
mod core_cases;
#[cfg(test)]
mod cores;
#[cfg(test)]
mod opening_cases;
#[cfg(test)]
mod openings;
#[cfg(test)]
mod trials;
#[cfg(test)]
mod worker;

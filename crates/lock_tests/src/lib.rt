//! Tests of the lock by which threads take turns (`turn_lock`). There is nothing here but tests.
#![tactic(auto)]

#[cfg(test)]
mod said;
#[cfg(test)]
mod turns;

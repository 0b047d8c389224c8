//! Tests of whole commands over streams, disks and a front in memory. There is nothing here but tests.
//!
//! Cases are lines of scripts, which [`rounds::play`] reads; `play.rt` says what each word does.
#![tactic(auto)]

#[cfg(test)]
mod ends;
#[cfg(test)]
mod faults;
#[cfg(test)]
mod files;
#[cfg(test)]
mod fleets;
#[cfg(test)]
mod gate;
#[cfg(test)]
mod large;
#[cfg(test)]
mod logs;
#[cfg(test)]
mod play;
#[cfg(test)]
mod queries;
#[cfg(test)]
mod rounds;
#[cfg(test)]
mod served;
#[cfg(test)]
mod shown;
#[cfg(test)]
mod statuses;
#[cfg(test)]
mod stops;
#[cfg(test)]
mod workers;

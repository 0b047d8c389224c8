//! Tests of payloads. There is nothing here but tests.
//!
//! - Wire formats (`fleet_rows`, `command_decode`): for each field, which values are taken, and at which place others are refused.
//!   What is refused before the fields are looked at: other versions, texts that are no object, level 128. Payloads that Puppet
//!   sent, and what is kept of them. Facts of 16 MiB, 100,000 facts, a catalog of 20,000 resources. Digests, compared with the
//!   examples of FIPS 180-4; columns by name; refusals in words.
#![tactic(auto)]

#[cfg(test)]
mod real_payloads;
#[cfg(test)]
mod rows;
#[cfg(test)]
mod wire_absent;
#[cfg(test)]
mod wire_changed;
#[cfg(test)]
mod wire_commands;
#[cfg(test)]
mod wire_large;
#[cfg(test)]
mod wire_taken;
#[cfg(test)]
mod wire_words;
#[cfg(test)]
mod wrong;

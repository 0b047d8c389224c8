//! Tests of `json_tree`, `json_read` and `stamp_time` by tables of given texts. There is nothing here but tests.
//!
//! - Texts are read as their values; other texts are refused at the first byte that no text continues. The kinds of case are
//!   those of RFC 8259.
//! - All texts up to length 5 of a dozen bytes, compared with a plain slow reader.
//! - Numbers, their values and their order; the order of values; which values are the same.
//! - Stamps, and what is printed at both ends of the range.
//! - Level 127 and level 128, and the largest text: 16 MiB, 127 levels, 100,000 members.
#![tactic(auto)]

#[cfg(test)]
mod limits;
#[cfg(test)]
mod numbers;
#[cfg(test)]
mod orders;
#[cfg(test)]
mod reading;
#[cfg(test)]
mod short_texts;
#[cfg(test)]
mod stamps;
#[cfg(test)]
mod values;
#[cfg(test)]
mod wrong;

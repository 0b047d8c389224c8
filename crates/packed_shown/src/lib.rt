//! Keeps in few bytes what rows show beside their commands: hashes, and the orders of rows.
//!
//! A hash is 40 hexadecimal digits. As a text it takes 80 bytes of memory, as a [`PackedHash`] 20, and [`PackedHashes`] keeps a list
//! of hashes in one piece. An order is a list of indices. A [`PackedOrder`] takes two bytes for each index if all are below 65,536.
//! Contracts see the digits and the indices, so a struct that holds packed values keeps its meaning.
//!
//! Costs: [`PackedOrder::at`] reads one index. [`PackedHash::digits`] and [`PackedHashes::digits`] write the digits of one hash.
#![tactic(auto)]

mod hash;
mod order;

pub use hash::{PackedHash, PackedHashes};
pub use order::PackedOrder;

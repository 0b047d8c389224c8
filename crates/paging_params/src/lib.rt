//! Reads the paging that a request's parameters ask for, after PuppetDB's query API v4, "Paging query results".
//!
//! [`read_paging`] reads `limit`, `offset`, `order_by` and `include_total` from [`Params`], whose values are texts of a URL or
//! JSON values of a body. It returns the paging of a query's rows, or the name of the first parameter with a bad value. Contracts
//! see parameters as a list of pairs; the last one with a name counts.
//!
//! The main guarantee: the paging is exactly the one that `specs/Paging.antt` defines, and a name is reported exactly if it is the
//! first bad one. The only other result is missing memory.
//!
//! The clause of [`read_paging`] is `paging` (`IsPagingOf`). It makes one search for each name, and one of the columns for each
//! sorted column.
#![tactic(auto)]

mod laws;
mod order;
mod params;
mod read;
mod value;

pub use laws::parameters_ask_for_one_paging;
pub use params::{Param, Params};
pub use read::{PagingFault, read_paging};

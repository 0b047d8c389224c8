//! Reads the paging of a query's answer.
ghost use Rattle.std.specs.Prelude.{Err};
ghost use Rattle.means_spec.specs.OutRows.{names_of};
ghost use Rattle.paging_params.specs.Params.{last_under};
ghost use Rattle.paging_params.specs.Paging.{IsPagingOf, checked_paging};
ghost use Rattle.paging_params.specs.Told.{Tells, IsRead};

use crate::order::read_orders;
use crate::params::Params;
use crate::value::{read_count, read_truth};
use ast_tree::Query;
use ast_tree::query_spec::{Orders, Paging};
use json_read::json_tree::Text;
use std::alloc::Global;

/// Why the parameters give no paging.
#[derive(Drop)]
pub enum PagingFault {
    /// The parameter with this name has a bad value.
    BadPaging(Text),
    /// There was no memory.
    Memory,
}

// The fault that the parameter with this name is bad.
fn bad(alloc: Global, name: &str) -> PagingFault
    ensures { Tells (Err result) (Err name.now) }
{
    match Text::from_str(alloc, name) {
        Ok(name) => PagingFault::BadPaging(name),
        Err(_) => PagingFault::Memory,
    }
}

// The paging of these parts, or the first part that is bad.
fn checked(
    alloc: Global,
    limit: Option<Option<u64>>,
    offset: Option<Option<u64>>,
    order: Option<Orders>,
    total: Option<Option<bool>>,
) -> Result<Paging, PagingFault>
    ensures { Tells result (checked_paging limit offset order total) }
{
    match (limit, offset, order, total) {
        (Some(limit), Some(offset), Some(order), Some(total)) => Ok(Paging {
            order,
            offset,
            limit,
            include_total: total.unwrap_or(false),
        }),
        (None, _, _, _) => Err(bad(alloc, "limit")),
        (_, None, _, _) => Err(bad(alloc, "offset")),
        (_, _, None, _) => Err(bad(alloc, "order_by")),
        (_, _, _, None) => Err(bad(alloc, "include_total")),
    }
}

/// The paging that the parameters ask for of a query's rows, or the first parameter that is bad.
///
/// `limit` and `offset` have only digits and are below 2^63. `order_by` is a JSON list of objects with an output column under
/// `field` and optionally `asc` or `desc` under `order`. `include_total` is `true` or `false`. A URL has each as a text, a body
/// as a JSON value. They are checked in this order, and other parameters are ignored.
pub fn read_paging(alloc: Global, query: &Query, pairs: &Params) -> Result<Paging, PagingFault>
    ensures paging { IsRead result (IsPagingOf (names_of query.now) (λ name. last_under name pairs.now)) }
{
    match read_orders(alloc, query.level(), pairs.last("order_by")) {
        Ok(orders) => checked(
            alloc,
            read_count(pairs.last("limit")),
            read_count(pairs.last("offset")),
            orders,
            read_truth(pairs.last("include_total")),
        ),
        Err(_) => Err(PagingFault::Memory),
    }
}

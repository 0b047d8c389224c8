//! The total order of values, and which values are the same.
use crate::wrong::{Wrong, holds};
use json_read::json_tree::{Json, order, same};
use json_read::{ReadFault, read};
use std::alloc::Global;
use std::cmp::Ordering;

fn value(alloc: Global, text: &str) -> Result<Json, ReadFault> {
    read(alloc, text.as_bytes())
}

// Values in their order. Those of one rank differ in the order of members alone.
static RISING: [(u32, &str); 35] = [
    (0, "null"),
    (1, "false"),
    (2, "true"),
    (3, "-1"),
    (4, "-0"),
    (5, "0"),
    (6, "0.10"),
    (7, "1e-1"),
    (8, "2"),
    (9, "10"),
    (10, "1e400"),
    (11, "1e401"),
    (12, "\"\""),
    (13, "\"1\""),
    (14, "\"10\""),
    (15, "\"B\""),
    (16, "\"a\""),
    (17, "\"é\""),
    (18, "[]"),
    (19, "[null]"),
    (20, "[null,null]"),
    (21, "[{\"a\":1,\"b\":2}]"),
    (21, "[{\"b\":2,\"a\":1}]"),
    (22, "[{\"b\":2,\"a\":1},0]"),
    (23, "[{\"a\":1,\"b\":3}]"),
    (24, "{}"),
    (25, "{\"a\":null}"),
    (26, "{\"a\":null,\"b\":9}"),
    (26, "{\"b\":9,\"a\":null}"),
    (27, "{\"c\":0,\"b\":9,\"a\":null}"),
    (28, "{\"b\":9,\"c\":1,\"a\":null}"),
    (29, "{\"c\":0,\"a\":null}"),
    (30, "{\"aa\":0,\"a\":[{\"y\":1,\"x\":2}]}"),
    (30, "{\"a\":[{\"x\":2,\"y\":1}],\"aa\":0}"),
    (31, "{\"b\":null}"),
];

fn are_ordered(alloc: Global, one: &str, other: &str, answer: Ordering) -> Result<bool, ReadFault> {
    let first = value(alloc, one)?;
    let second = value(alloc, other)?;
    Ok(order(&first, &second) == answer)
}

// Whether the value has this place among the others.
fn has_place(alloc: Global, one: &str, place: u32) -> Result<bool, ReadFault> {
    for (other_place, other) in RISING.iter() {
        if !are_ordered(alloc, one, other, place.cmp(other_place))? {
            return Ok(false);
        }
    }
    Ok(true)
}

fn each_place(alloc: Global) -> Result<(), Wrong> {
    for (at, (place, one)) in RISING.iter().enumerate() {
        holds(has_place(alloc, one, *place)?, at)?;
    }
    Ok(())
}

#[test]
fn each_value_sorts_behind_those_before_it(rt: HostRuntime) -> Result<(), Wrong> {
    each_place(rt.alloc())
}

static COMPARED: [(&str, &str, bool); 22] = [
    ("null", "null", true),
    ("null", "false", false),
    ("true", "true", true),
    ("true", "false", false),
    ("0.10", "1e-1", true),
    ("-0", "0", true),
    ("1e400", "1e400", true),
    ("1e400", "10e399", false),
    ("1", "\"1\"", false),
    ("\"a\"", "\"a\"", true),
    ("\"a\"", "\"A\"", false),
    ("[1,[2]]", "[1.0,[2.0]]", true),
    ("[1,2]", "[2,1]", false),
    ("[1]", "[1,1]", false),
    ("{\"a\":1,\"b\":[2]}", "{\"b\":[2.0],\"a\":1}", true),
    (
        "{\"b\":1,\"a\":{\"y\":0,\"x\":1}}",
        "{\"b\":1,\"a\":{\"x\":1,\"y\":0}}",
        true,
    ),
    ("{\"a\":1,\"b\":2}", "{\"a\":1,\"b\":3}", false),
    ("{\"a\":1,\"b\":2}", "{\"a\":1,\"c\":2}", false),
    ("{\"a\":1}", "{\"a\":1,\"b\":2}", false),
    ("{\"a\":1,\"b\":2}", "{\"a\":1}", false),
    ("{}", "[]", false),
    ("{}", "{}", true),
];

fn are_same(alloc: Global, one: &str, other: &str) -> Result<bool, ReadFault> {
    let first = value(alloc, one)?;
    let second = value(alloc, other)?;
    Ok(same(&first, &second))
}

fn each_two(alloc: Global) -> Result<(), Wrong> {
    for (at, (one, other, answer)) in COMPARED.iter().enumerate() {
        holds(are_same(alloc, one, other)? == *answer, at)?;
    }
    Ok(())
}

#[test]
fn values_are_the_same_whatever_the_order_of_members(rt: HostRuntime) -> Result<(), Wrong> {
    each_two(rt.alloc())
}

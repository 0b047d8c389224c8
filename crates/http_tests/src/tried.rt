//! Texts that are tried on a pattern, where another conjunct of the filter names the node.
use crate::play::play;
use crate::wrong::Wrong;
use std::alloc::{AllocError, Global};

// A hundred texts with commas between them. A number stands between the head and the tail of each.
fn hundred(alloc: Global, head: &str, tail: &str) -> Result<String, AllocError> {
    let mut text = String::new(alloc);
    for number in 100..200_u32 {
        let comma = if number == 100 { "" } else { "," };
        text.push_str(format!(in alloc; "{comma}{head}{number}{tail}")?.as_str())?;
    }
    Ok(text)
}

// Fifty nodes with a hundred facts each, all with the same value.
fn fifty_nodes(alloc: Global) -> Result<String, AllocError> {
    let values = hundred(alloc, "\"fact", "\":\"v\"")?;
    let mut fleet = String::new(alloc);
    for node in 0..50_u32 {
        let line = format!(in alloc;
            "facts {{\"certname\":\"node{node}\",\"environment\":\"production\",\"values\":{{{values}}},\"producer_timestamp\":\"2024-05-01T10:00:00Z\"}}\n"
        )?;
        fleet.push_str(line.as_str())?;
    }
    Ok(fleet)
}

// A query for the facts of one node, which tries at most a hundred texts.
fn one_node(alloc: Global) -> Result<String, AllocError> {
    let rows = hundred(
        alloc,
        r#"{"certname":"node7","environment":"production","name":"fact"#,
        r#"","value":"v"}"#,
    )?;
    format!(in alloc;
        "with tried=100\nask GET /pdb/query/v4/facts?query=[\"and\",[\"~\",\"value\",\"v\"],[\"=\",\"certname\",\"node7\"]]\nok [{rows}]"
    )
}

fn is_tried_on_one_node(alloc: Global) -> Result<(), Wrong> {
    let fleet = fifty_nodes(alloc)?;
    let case = one_node(alloc)?;
    play(alloc, fleet.as_str(), "", case.as_str())
}

#[test]
fn a_pattern_is_tried_on_the_facts_of_one_node(rt: HostRuntime) -> Result<(), Wrong> {
    is_tried_on_one_node(rt.alloc())
}

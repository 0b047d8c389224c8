//! Queries that read few rows are answered as those that read all rows: each two of many conjuncts, over facts, resources and nodes.
//! Patterns are tried on the rows in reach alone.
use crate::play::{Fleet, wrong_line};
use command_decode::fleet_rows::Kind;
use itoa::Buffer;
use std::alloc::{AllocError, Global};
use test_support::{add_words, parted};

const COMMANDS: &str =
    r#"facts {"certname":"a","environment":"production","values":{"k":"v","kernel":"Linux","n":1},"producer_timestamp":"2024-05-01T10:00:00Z"}
facts {"certname":"b","environment":"production","values":{"k":"w","n":2},"producer_timestamp":"2024-05-01T10:00:00Z"}
facts {"certname":"2024-05-01T10:00:00Z","environment":null,"values":{"2024-05-01T10:00:00Z":"v"},"producer_timestamp":"2024-05-01T10:00:00Z"}
catalog {"certname":"a","version":"1","environment":"production","producer_timestamp":"2024-05-01T10:00:00Z","resources":[{"type":"Class","title":"Ntp"},{"type":"Class","title":"Apache"},{"type":"File","title":"Ntp"}],"edges":[]}
catalog {"certname":"c","version":"1","environment":"production","producer_timestamp":"2024-05-01T10:00:00Z","resources":[{"type":"Class","title":"Ntp"}],"edges":[]}
deactivate {"certname":"d","producer_timestamp":"2024-05-01T10:00:00Z"}"#;

const CONJUNCTS: &str = r#"["=","certname","a"]
["=","certname","b"]
["=","certname","c"]
["=","certname","nowhere"]
["=","certname",1]
["=","certname","2024-05-01T10:00:00Z"]
["=","certname","2024-05-01T10:00:00.000Z"]
["not",["=","certname","a"]]
["or",["=","certname","a"],["=","certname","b"]]
["and",["=","certname","a"],["=","certname","b"]]
["and",["=","certname","a"],["=","certname","a"]]
["and",["=","certname","a"],["and",["=","certname","a"]]]
["or",["=","certname","a"]]
["and",["not",["not",["=","certname","a"]]]]
["~","certname","^[ab]$"]
["in","certname",["array",["a","c"]]]
["in","certname",["extract","certname",["select_facts",["and",["=","certname","a"],["=","name","k"]]]]]
["in","certname",["extract","certname",["select_resources",["and",["=","type","Class"],["=","title","Ntp"]]]]]
["subquery","facts",["=","name","n"]]
["null?","certname",false]
["=",["fact","k"],"v"]
["=",["fact","nothing"],"v"]
["null?",["fact","k"],true]
["and",["=",["fact","k"],"v"],["=",["fact","n"],1],["=",["fact","k"],"v"]]
["=","node_state","any"]"#;

const OF_FACTS: &str = r#"["=","name","k"]
["=","name","n"]
["=","name","nothing"]
["and",["=","name","k"],["=","name","n"]]
["not",["=","name","k"]]
["=","value","v"]
["and",["=","name","k"],["=","value","w"]]"#;

const OF_RESOURCES: &str = r#"["=","type","Class"]
["=","type","Nothing"]
["=","title","Ntp"]
["and",["=","type","Class"],["=","title","Ntp"]]
["and",["=","title","Ntp"],["=","type","File"]]
["and",["=","type","Class"],["=","type","File"]]
["and",["=","type","Class"],["=","title","Ntp"],["=","title","Apache"]]
["not",["=","type","Class"]]"#;

// Whether both ways of reading are told the same of two conjuncts.
fn ask_both(
    alloc: Global,
    fleet: &mut Fleet,
    entity: &str,
    one: &str,
    other: &str,
) -> Result<bool, AllocError> {
    let mut query = Vec::new(alloc);
    let head = [
        "[\"from\",\"",
        entity,
        "\",[\"and\",",
        one,
        ",",
        other,
        "]]",
    ];
    add_words(&mut query, &head)?;
    fleet.ask(query.as_slice())
}

// The same of one conjunct and each of the others, and the other way round.
fn ask_one(
    alloc: Global,
    fleet: &mut Fleet,
    entity: &str,
    one: &str,
    others: &str,
) -> Result<bool, AllocError> {
    let mut all = true;
    let mut rest = others;
    'others: for _ in 0..others.len() {
        let (other, more) = parted(rest, "\n");
        all &= ask_both(alloc, fleet, entity, one, other)?;
        all &= ask_both(alloc, fleet, entity, other, one)?;
        if more.is_empty() {
            break;
        }
        rest = more;
    }
    Ok(all)
}

// The same of each two of the conjuncts, and of each of them and one of those that the entity has for itself.
fn ask_each(alloc: Global, fleet: &mut Fleet, entity: &str, own: &str) -> Result<bool, AllocError> {
    let mut all = true;
    let mut rest = CONJUNCTS;
    'conjuncts: for _ in 0..CONJUNCTS.len() {
        let (one, more) = parted(rest, "\n");
        all &= ask_one(alloc, fleet, entity, one, rest)?;
        all &= ask_one(alloc, fleet, entity, one, own)?;
        if more.is_empty() {
            break;
        }
        rest = more;
    }
    Ok(all)
}

fn ask_all(alloc: Global, fleet: &mut Fleet) -> Result<bool, AllocError> {
    let facts = ask_each(alloc, fleet, "facts", OF_FACTS)?;
    let resources = ask_each(alloc, fleet, "resources", OF_RESOURCES)?;
    let nodes = ask_each(alloc, fleet, "nodes", "[\"null?\",\"expired\",true]")?;
    Ok(facts && resources && nodes)
}

fn is_told_so(alloc: Global, fleet: &mut Fleet) -> Result<bool, AllocError> {
    let applied = wrong_line(fleet, COMMANDS)?.is_none();
    Ok(applied && ask_all(alloc, fleet)?)
}

fn are_told_the_same(alloc: Global) -> Result<bool, AllocError> {
    let mut fleet = Fleet::new(alloc);
    let so = is_told_so(alloc, &mut fleet);
    drop(fleet);
    so
}

#[test]
fn reading_few_rows_tells_what_reading_all_rows_tells(rt: HostRuntime) -> Result<(), AllocError> {
    assert!(rt; are_told_the_same(rt.alloc())?);
    Ok(())
}

// Appends a hundred texts with commas between them. A number stands between the head and the tail of each.
fn add_hundred(out: &mut Vec<u8>, head: &str, tail: &str) -> Result<(), AllocError> {
    for number in 100..200_u32 {
        let comma = if number == 100 { "" } else { "," };
        add_words(out, &[comma, head, Buffer::new().format(number), tail])?;
    }
    Ok(())
}

// Facts of a node, a hundred with the same value.
fn payload_of(alloc: Global, node: u32) -> Result<Vec<u8>, AllocError> {
    let mut out = Vec::new(alloc);
    add_words(
        &mut out,
        &[
            "{\"certname\":\"node",
            Buffer::new().format(node),
            "\",\"environment\":\"production\",\"values\":{",
        ],
    )?;
    add_hundred(&mut out, "\"fact", "\":\"v\"")?;
    add_words(
        &mut out,
        &["},\"producer_timestamp\":\"2024-05-01T10:00:00Z\"}"],
    )?;
    Ok(out)
}

fn add_nodes(alloc: Global, fleet: &mut Fleet) -> Result<bool, AllocError> {
    let mut all = true;
    for node in 0..50_u32 {
        let payload = payload_of(alloc, node)?;
        all &= fleet.apply(Kind::Facts, 5, payload.as_slice())?;
    }
    Ok(all)
}

// The rows of one node.
fn rows_of_one(alloc: Global) -> Result<Vec<u8>, AllocError> {
    let mut out = Vec::new(alloc);
    add_words(&mut out, &["["])?;
    add_hundred(
        &mut out,
        r#"{"certname":"node7","environment":"production","name":"fact"#,
        r#"","value":"v"}"#,
    )?;
    add_words(&mut out, &["]"])?;
    Ok(out)
}

// What the nodes are asked, and how often the query tries a text.
const OF_ONE_NODE: &str = r#"ask ["from","facts",["and",["~","value","v"],["=","certname","node7"]]]
course ["from","facts",["and",["~","value","v"],["=","certname","node7"]]]
tells 100 read v;|tried v v;"#;

fn is_tried_in(alloc: Global, fleet: &mut Fleet) -> Result<bool, AllocError> {
    let (asked, rest) = parted(OF_ONE_NODE, "\n");
    let rows = rows_of_one(alloc)?;
    let added = add_nodes(alloc, fleet)?;
    let asked = wrong_line(fleet, asked)?.is_none();
    let told = fleet.has_told(rows.as_slice());
    let tried = wrong_line(fleet, rest)?.is_none();
    Ok(added && asked && told && tried)
}

fn is_tried_on_one_node(alloc: Global) -> Result<bool, AllocError> {
    let mut fleet = Fleet::new(alloc);
    let so = is_tried_in(alloc, &mut fleet);
    drop(fleet);
    so
}

#[test]
fn a_pattern_is_tried_on_the_facts_of_one_node(rt: HostRuntime) -> Result<(), AllocError> {
    assert!(rt; is_tried_on_one_node(rt.alloc())?);
    Ok(())
}

//! Large inputs, for which tables have to find memory. Contracts would allow any call to answer that memory lacks.
use crate::play::Fleet;
use command_decode::fleet_rows::Kind;
use std::alloc::{AllocError, Global};

// Appends the text, with six digits in the place of each bar. They descend as the number rises.
fn put_numbered(
    out: &mut Vec<u8>,
    alloc: Global,
    text: &str,
    number: u32,
) -> Result<(), AllocError> {
    let digits = format!(in alloc; "{}", 999_999u32.saturating_sub(number))?;
    for (place, part) in text.split('|').enumerate() {
        if place > 0 {
            out.extend_from_slice(digits.as_bytes())?;
        }
        out.extend_from_slice(part.as_bytes())?;
    }
    Ok(())
}

// Pieces with commas between them, in a text that goes on with them.
fn pieces(
    alloc: Global,
    front: &str,
    piece: &str,
    count: u32,
    end: &str,
) -> Result<Vec<u8>, AllocError> {
    let mut out = Vec::new(alloc);
    out.extend_from_slice(front.as_bytes())?;
    for number in 0..count {
        if number > 0 {
            out.push(b',')?;
        }
        put_numbered(&mut out, alloc, piece, number)?;
    }
    out.extend_from_slice(end.as_bytes())?;
    Ok(out)
}

const FACTS: &str = r#"{"certname":"a","producer_timestamp":"2024-05-01T10:00:00Z","values":{"#;

const CATALOG: &str =
    r#"{"certname":"a","producer_timestamp":"2024-05-01T10:00:00Z","version":"1","edges":[],"resources":["#;

const NODE: &str = r#"{"certname":"n|","producer_timestamp":"2024-05-01T10:00:00Z"}"#;

// Deactivations of nodes.
fn send_nodes(alloc: Global, fleet: &mut Fleet, count: u32) -> Result<bool, AllocError> {
    let mut are_sent = true;
    for number in 0..count {
        let mut payload = Vec::new(alloc);
        put_numbered(&mut payload, alloc, NODE, count - 1 - number)?;
        are_sent &= fleet.send(
            Kind::Deactivate,
            3 + number as u64,
            None,
            payload.as_slice(),
        );
    }
    Ok(are_sent)
}

const ROWS: &str = r#"count facts 100000
count resources 20000
count nodes 10001
row facts 0
| "a" null "f900000" 1
row facts 99999
| "a" null "f999999" 1
row resources 19999
| "a" null false null null {} "c5474b1926653b68ca336f40a43754c1e3187b97" [] "/999999" "File"
row nodes 1
| null null "n990000" 2024-05-01T10:00:00.000000000Z null null null null null null null null
end"#;

#[test]
fn large_inputs_find_memory(rt: HostRuntime) -> Result<(), AllocError> {
    let alloc = rt.alloc();
    let mut fleet = Fleet::new(alloc, None);
    let facts = pieces(alloc, FACTS, r#""f|":1"#, 100_000, "}}")?;
    assert!(rt; fleet.send(Kind::Facts, 1, None, facts.as_slice()));
    let catalog = pieces(
        alloc,
        CATALOG,
        r#"{"type":"File","title":"/|"}"#,
        20_000,
        "]}",
    )?;
    assert!(rt; fleet.send(Kind::Catalog, 2, None, catalog.as_slice()));
    assert!(rt; send_nodes(alloc, &mut fleet, 10_000)?);
    fleet.tables.prepare_all()?;
    fleet.play(&rt, ROWS)
}

//! The payloads of generated commands, and the texts of the rows that they show by the plain program.
use crate::events::{
    Applied, Event, deactivated, expired, greatest_sweeps, kept_reports, life, newest,
};
use crate::texts::{put_moment, put_words};
use fleet_rows::{Entity, Kind, sha1_hex};
use stamp_time::Moment;
use std::alloc::{AllocError, Global};

// The payload of each kind. A word between bars stands for what the command has.
const FACTS: &str =
    r#"{"certname":"|name|","producer_timestamp":"|stamp|","environment":|environment|,"values":{"n":|form|,"a":"x"}}"#;

const CATALOG: &str =
    r#"{"certname":"|name|","producer_timestamp":"|stamp|","environment":|environment|,"edges":[],"resources":[],"version":"|form|"}"#;

const REPORT: &str =
    r#"{"certname":"|name|","producer_timestamp":"|stamp|","environment":|environment|,"report_format":|form|,
    "status":|status|,"noop":|noop|,"logs":|logs|}"#;

const DEACTIVATION: &str = r#"{"certname":"|name|","producer_timestamp":"|stamp|"}"#;

const EXPIRATION: &str =
    r#"{"certname":"|name|","producer_timestamp":"|stamp|","expire":{"facts":|expires|}}"#;

// The canonical texts that hashes are made of.
const FACTSET_TEXT: &str =
    r#"{"certname":"|name|","environment":|environment|,"facts":{"a":"x","n":|form|},"producer":null,"producer_timestamp":"|stamp|"}"#;

const CATALOG_TEXT: &str = concat!(
    r#"{"catalog_uuid":null,"certname":"|name|","code_id":null,"edges":[],"environment":|environment|,"job_id":null,"#,
    r#""producer":null,"producer_timestamp":"|stamp|","resources":[],"transaction_uuid":null,"version":"|form|"}"#
);

const REPORT_TEXT: &str = concat!(
    r#"{"certname":"|name|","configuration_version":null,"end_time":null,"environment":|environment|,"logs":[{"a":1,"b":2}],"#,
    r#""metrics":[],"noop":|noop|,"producer":null,"producer_timestamp":"|stamp|","puppet_version":null,"report_format":|form|,"#,
    r#""resources":[],"start_time":null,"status":|status|,"transaction_uuid":null}"#
);

// The rows.
const FACTSET_ROW: &str =
    "\"|name|\" |environment| {\"n\":|form|,\"a\":\"x\"} \"|hash|\" null |stamp|\n";

const FACTS_ROWS: &str =
    "\"|name|\" |environment| \"a\" \"x\"\n\"|name|\" |environment| \"n\" |form|\n";

const CATALOG_ROW: &str =
    "null \"|name|\" null |environment| \"|hash|\" null null |stamp| null \"|form|\"\n";

const REPORT_ROW: &str =
    "\"|name|\" null null |environment| \"|hash|\" |logs| [] |noop| null |stamp| null |received| |form| [] null |status| null\n";

// What a node's row shows of a command of its own, and of its latest report.
const SOURCE: &str = "|environment| |stamp|";

const LATEST: &str = " \"|hash|\" |noop| |status| ";

/// The nodes, sorted by their bytes.
const NODES: [&str; 5] = ["B", "a", "a.b", "ab", "b"];

// What a command's form shows.
const ENVIRONMENTS: [&str; 2] = [r#""e""#, "null"];

const FORMS: [&str; 4] = ["0", "1", "2", "3"];

const EXPIRES: [&str; 2] = ["false", "true"];

const STATUSES: [&str; 3] = [r#""failed""#, r#""changed""#, "null"];

const NOOPS: [&str; 2] = ["true", "null"];

/// Two spellings of one log, which reports have in turn.
const LOGS: [&str; 2] = [r#"[{"a":1,"b":2}]"#, r#"[{"b":2,"a":1}]"#];

fn name(node: usize) -> &'static str {
    NODES[node % 5]
}

// What a command has for a word.
fn word_of(word: &str, x: &Applied) -> &'static str {
    match word {
        "name" => name(x.node),
        "environment" => ENVIRONMENTS[x.form % 2],
        "form" => FORMS[x.form % 4],
        "expires" => EXPIRES[x.form % 2],
        "status" => STATUSES[x.form % 3],
        "noop" => NOOPS[x.form % 2],
        _ => LOGS[(x.receipt % 2) as usize],
    }
}

fn put_nanos(out: &mut Vec<u8>, nanos: i64) -> Result<(), AllocError> {
    put_moment(out, Moment::from_nanosecond(nanos as i128))
}

// Appends a text with the words between its bars put in.
fn put_filled(out: &mut Vec<u8>, text: &str, x: &Applied, hash: &str) -> Result<(), AllocError> {
    for (place, part) in text.split('|').enumerate() {
        match part {
            "stamp" => put_nanos(out, x.stamp)?,
            "received" => put_nanos(out, x.received)?,
            "hash" => out.extend_from_slice(hash.as_bytes())?,
            _ if place % 2 == 0 => out.extend_from_slice(part.as_bytes())?,
            word => out.extend_from_slice(word_of(word, x).as_bytes())?,
        }
    }
    Ok(())
}

/// The payload of a command.
pub fn payload_of(alloc: Global, x: &Applied) -> Result<Vec<u8>, AllocError> {
    let text = match x.kind {
        Kind::Facts => FACTS,
        Kind::Catalog => CATALOG,
        Kind::Report => REPORT,
        Kind::Deactivate => DEACTIVATION,
        Kind::Expiration => EXPIRATION,
    };
    let mut payload = Vec::new(alloc);
    put_filled(&mut payload, text, x, "")?;
    Ok(payload)
}

// Appends a text that may have the hash of the canonical one.
fn put_hashed(
    out: &mut Vec<u8>,
    alloc: Global,
    canonical: &str,
    text: &str,
    x: &Applied,
) -> Result<(), AllocError> {
    let mut bytes = Vec::new(alloc);
    put_filled(&mut bytes, canonical, x, "")?;
    let hash = sha1_hex(alloc, bytes.as_slice())?;
    put_filled(out, text, x, hash.as_str())
}

// The row of the newest command, where there is one, and else this text.
fn put_newest(
    out: &mut Vec<u8>,
    alloc: Global,
    canonical: &str,
    text: &str,
    newest: Option<Applied>,
    none: &str,
) -> Result<(), AllocError> {
    match newest {
        Some(x) => put_hashed(out, alloc, canonical, text, &x),
        None => out.extend_from_slice(none.as_bytes()),
    }
}

fn put_nanos_or_null(out: &mut Vec<u8>, nanos: Option<i64>) -> Result<(), AllocError> {
    match nanos {
        Some(nanos) => put_nanos(out, nanos)?,
        None => out.extend_from_slice(b"null")?,
    }
    out.extend_from_slice(b" ")
}

// The row of a node that has commands, of which these are the reports that are kept.
fn put_node(
    out: &mut Vec<u8>,
    alloc: Global,
    node: usize,
    life: &[Applied],
    kept: &[Applied],
    expiry: Option<i64>,
) -> Result<(), AllocError> {
    let latest = newest(kept, Kind::Report);
    let (facts, catalog) = (newest(life, Kind::Facts), newest(life, Kind::Catalog));
    put_newest(out, alloc, "", SOURCE, catalog, "null null")?;
    put_words(out, &[" \"", name(node), "\" "])?;
    put_nanos_or_null(out, deactivated(life))?;
    put_nanos_or_null(out, expired(life, expiry))?;
    put_newest(out, alloc, "", SOURCE, facts, "null null")?;
    put_newest(out, alloc, REPORT_TEXT, LATEST, latest, " null null null ")?;
    put_newest(out, alloc, "", SOURCE, latest, "null null")?;
    out.extend_from_slice(b"\n")
}

fn put_reports(out: &mut Vec<u8>, alloc: Global, kept: &[Applied]) -> Result<(), AllocError> {
    for x in kept {
        put_hashed(out, alloc, REPORT_TEXT, REPORT_ROW, x)?;
    }
    Ok(())
}

// The rows of one node.
fn put_rows(
    out: &mut Vec<u8>,
    alloc: Global,
    entity: Entity,
    node: usize,
    events: &[Event],
    limit: Option<u32>,
) -> Result<(), AllocError> {
    let (expiry, retention) = greatest_sweeps(events);
    let life = life(alloc, events, node)?;
    let kept = kept_reports(alloc, life.as_slice(), retention, limit)?;
    let (life, kept) = (life.as_slice(), kept.as_slice());
    let facts = newest(life, Kind::Facts);
    let catalog = newest(life, Kind::Catalog);
    match entity {
        Entity::Nodes if life.is_empty() => Ok(()),
        Entity::Nodes => put_node(out, alloc, node, life, kept, expiry),
        Entity::Factsets => put_newest(out, alloc, FACTSET_TEXT, FACTSET_ROW, facts, ""),
        Entity::Facts => put_newest(out, alloc, "", FACTS_ROWS, facts, ""),
        Entity::Catalogs => put_newest(out, alloc, CATALOG_TEXT, CATALOG_ROW, catalog, ""),
        Entity::Reports => put_reports(out, alloc, kept),
        _ => Ok(()),
    }
}

/// The rows of an entity after these events, where at most so many reports of a node are kept.
pub fn plain_rows(
    alloc: Global,
    entity: Entity,
    events: &[Event],
    limit: Option<u32>,
) -> Result<Vec<u8>, AllocError> {
    let mut out = Vec::new(alloc);
    for node in 0..5 {
        put_rows(&mut out, alloc, entity, node, events, limit)?;
    }
    Ok(out)
}

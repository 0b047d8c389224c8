//! Spools that are whole, and spools that are cut or malformed. In the cases the bytes of a spool have escapes, as `add_bytes` of
//! `test_support` reads them, and what is said of it stands in quotes.
use crate::trials::try_all;
use spool_text::stamp_time::Moment;
use spool_text::{NextItem, Spool, SpoolReader};
use std::alloc::{AllocError, Global};
use std::str;
use test_support::{Notes, Pieces, bytes_of, count_of, gives, numbers_of, parts_of};

// The next item of a spool. No function above needs what the call ensures.
fn next_of(spool: &mut Spool<Pieces>) -> NextItem {
    spool.next_item(Moment::from_nanosecond(7))
}

// The next item of a source that is lent.
fn next_from(reader: &mut SpoolReader, source: &mut Pieces) -> NextItem {
    reader.next_item(source, Moment::from_nanosecond(7))
}

// What one item says.
fn said_of(alloc: Global, item: &NextItem) -> Result<String, AllocError> {
    match item {
        NextItem::Command(command) => {
            let payload = str::from_utf8(command.payload.as_slice()).unwrap_or("no text");
            format!(in alloc; "{:?} {} {payload};", command.kind, command.version)
        }
        NextItem::Sweep(kinds, moment) => format!(in alloc;
            "{} {} {} at {};",
            kinds.expire,
            kinds.purge,
            kinds.reports,
            moment.as_nanosecond()
        ),
        NextItem::End => String::from_str(alloc, "end"),
        NextItem::SpoolBad { at } => format!(in alloc; "bad at {at}"),
        NextItem::ReadFault => String::from_str(alloc, "fault"),
        NextItem::Memory => String::from_str(alloc, "memory"),
    }
}

fn is_last(item: &NextItem) -> bool {
    !matches!(item, NextItem::Command(_) | NextItem::Sweep(..))
}

// Appends what an item says and the mark, and tells whether it is the last one.
fn tell(alloc: Global, told: &mut String, item: NextItem, mark: &str) -> Result<bool, AllocError> {
    let said = said_of(alloc, &item);
    let last = is_last(&item);
    drop(item);
    told.push_str(said?.as_str())?;
    told.push_str(mark)?;
    Ok(last)
}

fn said_text(said: Result<(), AllocError>, told: String) -> Result<String, AllocError> {
    match said {
        Ok(()) => Ok(told),
        Err(fault) => Err(fault),
    }
}

// Appends what at most ten items say, up to the first answer that is none.
fn tell_all(alloc: Global, told: &mut String, spool: &mut Spool<Pieces>) -> Result<(), AllocError> {
    'items: for _ in 0..10 {
        if tell(alloc, told, next_of(spool), "")? {
            return Ok(());
        }
    }
    Ok(())
}

// What the items of this text say where it is cut to so many bytes, in pieces of at most so many, up to a call that fails.
fn all_items(
    alloc: Global,
    text: &str,
    len: u64,
    most: u64,
    fails_at: u64,
) -> Result<String, AllocError> {
    let mut bytes = bytes_of(alloc, text)?;
    bytes.truncate(len as usize);
    let mut told = String::new(alloc);
    let mut spool = Spool::new(alloc, Pieces::new(bytes, most as usize, fails_at));
    let said = tell_all(alloc, &mut told, &mut spool);
    drop(spool);
    said_text(said, told)
}

/// The least and the greatest number of bytes that a piece has, and the call that fails; the bytes of the spool, and what is said.
const SPOOLS: &str =
    r#"1 1000 0|replace_facts 5 2\n{}\nsweep expire,purge 1970-01-01T00:00:01Z\nstore_report 8 0\n\nreplace_catalog 0 3\na\nb\ndeactivate_node 4294967295 1\n\n\nsweep reports 1970-01-01T00:00:00.000000002z\nconfigure_expiration 1 2\n[]\n|"Facts 5 {};true true false at 1000000000;Report 8 ;Catalog 0 a\nb;Deactivate 4294967295 \n;false false true at 2;Expiration 1 [];end"
1 1 0||"end"
7 7 1|replace_facts 5 2\n{}\nsweep purge 1970-01-01T00:00:00Z\n|"fault"
7 7 3|replace_facts 5 2\n{}\nsweep purge 1970-01-01T00:00:00Z\n|"fault"
7 7 4|replace_facts 5 2\n{}\nsweep purge 1970-01-01T00:00:00Z\n|"Facts 5 {};fault"
7 7 9|replace_facts 5 2\n{}\nsweep purge 1970-01-01T00:00:00Z\n|"Facts 5 {};false true false at 0;fault""#;

/// Tries a whole spool in pieces of each of so many bytes.
pub(crate) fn try_spool(notes: &mut Notes, script: &str) {
    let ([numbers, text, wanted], _) = parts_of(script, "|");
    let [least, greatest, fails_at, _] = numbers_of(numbers);
    'pieces: for most in least..greatest.saturating_add(1) {
        notes.call = most;
        let told = all_items(notes.alloc, text, u64::MAX, most, fails_at);
        gives(notes, told, wanted);
    }
}

#[test]
fn items_and_faults_come_in_their_order_however_the_bytes_are_cut(
    rt: HostRuntime,
) -> Result<(), AllocError> {
    try_all(&rt, rt.alloc(), "spool", SPOOLS)
}

const NO_ITEMS: &str = r#"1000 1000 0|replace_facts 5 16777217\n{}\n|"bad at 0"
1000 1000 0|replace_facts 05 2\n{}\n|"bad at 0"
1000 1000 0|replace_facts 5 02\n{}\n|"bad at 0"
1000 1000 0|replace_facts 4294967296 2\n{}\n|"bad at 0"
1000 1000 0|replace_facts 5 2\n{}x|"bad at 0"
1000 1000 0|replace_facts 5  2\n{}\n|"bad at 0"
1000 1000 0|replace_facts 5 2 \n{}\n|"bad at 0"
1000 1000 0|replace_facts -5 2\n{}\n|"bad at 0"
1000 1000 0|replace_fact 5 2\n{}\n|"bad at 0"
1000 1000 0|\nreplace_facts 5 2\n{}\n|"bad at 0"
1000 1000 0|sweep purge,expire 1970-01-01T00:00:00Z\n|"bad at 0"
1000 1000 0|sweep  1970-01-01T00:00:00Z\n|"bad at 0"
1000 1000 0|sweep expire, 1970-01-01T00:00:00Z\n|"bad at 0"
1000 1000 0|sweep expire 1970-02-30T00:00:00Z\n|"bad at 0"
1000 1000 0|sweep expire 1970-01-01T00:00:00Z \n|"bad at 0"
1000 1000 0|sweep expire \xff\n|"bad at 0"
1000 1000 0|aaaaaaaaaaaaaaaaaaaaaaaaaaaaaaaaaaaaaaaaaaaaaaaaaaaaaaaaaaaaaaaaaaaaaaaaaaaaaaaaaaaaaaaaaaaaaaaaaaaaaaaaaaaaaaaaaaaaaaaaaaaaaaaaaaaaaaaaaaaaaaaaaaaaaaaaaaaaaaaaaaaaaaaaaaaaaaaaaaaaaaaaaaaaaaaaaaaaaaaaa|"bad at 0""#;

#[test]
fn what_has_not_the_form_of_an_item_is_bad_at_its_first_byte(
    rt: HostRuntime,
) -> Result<(), AllocError> {
    try_all(&rt, rt.alloc(), "spool", NO_ITEMS)
}

/// The least and the greatest number of bytes that are left of two items, the bytes of both, and what is said.
const CUTS: &str = r#"1 20|replace_facts 5 2\n{}\nsweep purge 1970-01-01T00:00:00Z\n|"bad at 0"
21 21|replace_facts 5 2\n{}\nsweep purge 1970-01-01T00:00:00Z\n|"Facts 5 {};end"
22 53|replace_facts 5 2\n{}\nsweep purge 1970-01-01T00:00:00Z\n|"Facts 5 {};bad at 21""#;

/// Tries a spool that is cut to each of so many bytes.
pub(crate) fn try_cuts(notes: &mut Notes, script: &str) {
    let ([numbers, text, wanted], _) = parts_of(script, "|");
    let [least, greatest, _, _] = numbers_of(numbers);
    'cuts: for len in least..greatest.saturating_add(1) {
        notes.call = len;
        let told = all_items(notes.alloc, text, len, 3, 0);
        gives(notes, told, wanted);
    }
}

#[test]
fn two_items_that_are_cut_are_bad_at_the_cut_one(rt: HostRuntime) -> Result<(), AllocError> {
    try_all(&rt, rt.alloc(), "cuts", CUTS)
}

// A report of so many bytes and a sweep behind it.
fn report_and_sweep(alloc: Global, size: usize) -> Result<Vec<u8>, AllocError> {
    let mut bytes = Vec::new(alloc);
    let head = format!(in alloc; "store_report 8 {size}\n")?;
    bytes.extend_from_slice(head.as_bytes())?;
    let len = bytes.len().saturating_add(size);
    bytes.resize(len, b'x')?;
    bytes.extend_from_slice(b"\nsweep purge 1970-01-01T00:00:00Z\n")?;
    Ok(bytes)
}

// Whether this is a report of so many bytes, received at that moment.
fn is_report(next: &NextItem, size: usize) -> bool {
    match next {
        NextItem::Command(command) => {
            let payload = command.payload.as_slice();
            command.received == Moment::from_nanosecond(7)
                && payload.len() == size
                && payload.iter().all(|byte| *byte == b'x')
        }
        _ => false,
    }
}

// Whether a report of so many bytes comes next.
fn begins(spool: &mut Spool<Pieces>, size: usize) -> bool {
    let first = next_of(spool);
    let is_so = is_report(&first, size);
    drop(first);
    is_so
}

// How many bytes the source has left.
fn left_in(spool: Spool<Pieces>) -> usize {
    let source = spool.into_source();
    source.left()
}

// Whether a report of so many bytes, in pieces of at most so many, comes first, how many bytes are left at the end, and what is said
// behind the report.
fn large_told(alloc: Global, size: u64, most: u64) -> Result<(bool, usize, String), AllocError> {
    let bytes = report_and_sweep(alloc, size as usize)?;
    let mut told = String::new(alloc);
    let mut spool = Spool::new(alloc, Pieces::new(bytes, most as usize, 0));
    let is_first = begins(&mut spool, size as usize);
    let said = tell_all(alloc, &mut told, &mut spool);
    let left = left_in(spool);
    match said {
        Ok(()) => Ok((is_first, left, told)),
        Err(fault) => Err(fault),
    }
}

/// How many bytes a report has, and the most that a piece has; what comes of it.
const LARGE: &str = r#"200000 1000|(true, 0, "false true false at 0;end")
200000 70000|(true, 0, "false true false at 0;end")
200000 1000000|(true, 0, "false true false at 0;end")
16777216 1000000|(true, 0, "false true false at 0;end")"#;

/// Tries a large payload.
pub(crate) fn try_large(notes: &mut Notes, numbers: &str, wanted: &str) {
    let [size, most, _, _] = numbers_of(numbers);
    let told = large_told(notes.alloc, size, most);
    gives(notes, told, wanted);
}

#[test]
fn a_large_payload_is_followed_by_the_next_item(rt: HostRuntime) -> Result<(), AllocError> {
    try_all(&rt, rt.alloc(), "large", LARGE)
}

/// The call of the source that fails, the bytes, and what is said by four calls, each with a comma behind it.
const ASKED_AGAIN: &str =
    r#"1|replace_facts 5 2\n{}\nsweep purge 1970-01-01T00:00:00Z\n|"fault,Facts 5 {};,false true false at 0;,end,"
0|x\n|"bad at 0,bad at 0,bad at 0,bad at 0,"
0|replace_facts 5 2\n{}x\n|"bad at 0,bad at 0,bad at 0,bad at 0,""#;

// Appends what four calls say.
fn tell_four(
    alloc: Global,
    told: &mut String,
    reader: &mut SpoolReader,
    source: &mut Pieces,
) -> Result<(), AllocError> {
    'calls: for _ in 0..4 {
        let _ = tell(alloc, told, next_from(reader, source), ",")?;
    }
    Ok(())
}

// What is said where the source is lent for each call.
fn said_by_four(alloc: Global, text: &str, fails_at: u64) -> Result<String, AllocError> {
    let bytes = bytes_of(alloc, text)?;
    let mut told = String::new(alloc);
    let mut source = Pieces::new(bytes, 1000, fails_at);
    let mut reader = SpoolReader::new(alloc);
    let said = tell_four(alloc, &mut told, &mut reader, &mut source);
    drop(reader);
    drop(source);
    said_text(said, told)
}

/// Tries a source that is lent, and asked again behind a refusal.
pub(crate) fn try_again(notes: &mut Notes, script: &str) {
    let ([fails_at, text, wanted], _) = parts_of(script, "|");
    let told = said_by_four(notes.alloc, text, count_of(fails_at));
    gives(notes, told, wanted);
}

#[test]
fn a_source_may_be_lent_and_asked_again_behind_a_refusal(
    rt: HostRuntime,
) -> Result<(), AllocError> {
    try_all(&rt, rt.alloc(), "again", ASKED_AGAIN)
}

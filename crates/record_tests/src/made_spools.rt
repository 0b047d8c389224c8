//! Spools that are made of a seed.
use crate::trials::try_all;
use port_memory::json_tree::Bytes;
use port_memory::{MemorySink, MemorySource, Numbers};
use spool_text::stamp_time::Moment;
use spool_text::{Made, NextItem, SpoolReader, make};
use std::alloc::{AllocError, Global};
use test_support::{Notes, count_of, gives, numbers, numbers_of, says};

/// The first four items of the seed 1, as `bench/make_made.py` writes them.
const FOUR: &[u8] =
    b"replace_facts 5 124\n{\"certname\":\"node24\",\"environment\":\"production\",\"values\":{\"k\":0},\"producer_timestamp\":\"2024-05-01T04:17:51Z\",\"producer\":\"m\"}\n\
replace_facts 5 123\n{\"certname\":\"node3\",\"environment\":\"production\",\"values\":{\"k\":1},\"producer_timestamp\":\"2024-05-01T22:00:38Z\",\"producer\":\"m\"}\n\
replace_catalog 9 323\n{\"certname\":\"node46\",\"version\":\"1\",\"environment\":\"production\",\"transaction_uuid\":null,\"catalog_uuid\":null,\"code_id\":null,\"job_id\":null,\"producer_timestamp\":\"2024-05-01T21:34:25Z\",\"producer\":\"m\",\"edges\":[],\"resources\":[{\"type\":\"Class\",\"title\":\"c2\",\"exported\":false,\"file\":null,\"line\":null,\"tags\":[\"class\"],\"parameters\":{}}]}\n\
store_report 8 343\n{\"certname\":\"node20\",\"environment\":\"production\",\"puppet_version\":\"8.0.0\",\"report_format\":12,\"configuration_version\":\"3\",\"start_time\":\"2024-05-01T08:16:21Z\",\"end_time\":\"2024-05-01T08:16:21Z\",\"producer_timestamp\":\"2024-05-01T08:16:21Z\",\"producer\":\"m\",\"noop\":false,\"status\":\"changed\",\"transaction_uuid\":null,\"resources\":[],\"logs\":[],\"metrics\":[]}\n";

/// The first item of the greatest seed.
const LAST: &[u8] =
    b"replace_facts 5 124\n{\"certname\":\"node38\",\"environment\":\"production\",\"values\":{\"k\":0},\"producer_timestamp\":\"2024-05-01T08:59:51Z\",\"producer\":\"m\"}\n";

// A sink of which that call fails; 0 is the number of no call.
fn sink(alloc: Global, fail: u64) -> MemorySink {
    MemorySink::new(alloc, numbers(alloc, fail, 1))
}

// Writes so many items of the seed.
fn make_into(alloc: Global, seed: u64, count: u64, out: &mut MemorySink) -> Made {
    make(alloc, seed, u32::try_from(count).unwrap_or(0), out)
}

// The answer, how many bytes the sink holds, and whether they are a front of the text.
fn told_of(answer: Made, held: &[u8], text: &[u8]) -> (Made, usize, bool) {
    (answer, held.len(), text.starts_with(held))
}

/// The seed, how many items, and the answer, how many bytes, and that the text of the seed begins with these.
const MADE: &str = "1 0|(Ok, 0, true)
1 1|(Ok, 145, true)
1 2|(Ok, 289, true)
1 4|(Ok, 998, true)
18446744073709551615 0|(Ok, 0, true)
18446744073709551615 1|(Ok, 145, true)";

/// Tries the items that a seed leads to.
pub(crate) fn try_made(notes: &mut Notes, numbers: &str, wanted: &str) {
    let [seed, count, _, _] = numbers_of(numbers);
    let mut out = sink(notes.alloc, 0);
    let answer = make_into(notes.alloc, seed, count, &mut out);
    let told = told_of(answer, out.held(), if seed == 1 { FOUR } else { LAST });
    drop(out);
    says(notes, told, wanted);
}

#[test]
fn a_seed_leads_to_these_items(rt: HostRuntime) -> Result<(), AllocError> {
    try_all(&rt, rt.alloc(), "made", MADE)
}

/// The call of the sink that fails while 400 items are written, in two pieces; the answer, how many bytes are out, and that they are a
/// front of all.
const FAULTS: &str = "0|(Ok, 100331, true)
1|(WriteFault, 0, true)
2|(WriteFault, 65828, true)";

/// Tries a sink that fails.
pub(crate) fn try_fault(notes: &mut Notes, call: &str, wanted: &str) {
    let mut all = sink(notes.alloc, 0);
    let mut out = sink(notes.alloc, count_of(call));
    let _ = make_into(notes.alloc, 1, 400, &mut all);
    let answer = make_into(notes.alloc, 1, 400, &mut out);
    let told = told_of(answer, out.held(), all.held());
    drop(all);
    drop(out);
    says(notes, told, wanted);
}

#[test]
fn a_front_goes_out_where_the_sink_fails(rt: HostRuntime) -> Result<(), AllocError> {
    try_all(&rt, rt.alloc(), "fault", FAULTS)
}

// Whether the next item is a command; none at the end, or where it is no item.
fn is_command(reader: &mut SpoolReader, source: &mut MemorySource) -> Option<bool> {
    match reader.next_item(source, Moment::from_nanosecond(7)) {
        NextItem::Command(_) => Some(true),
        NextItem::End => Some(false),
        _ => None,
    }
}

// How many commands the spool has, and 0 where it is none.
fn commands_in(reader: &mut SpoolReader, source: &mut MemorySource) -> u64 {
    let mut count: u64 = 0;
    'items: for _ in 0..1000 {
        match is_command(reader, source) {
            Some(true) => count = count.saturating_add(1),
            Some(false) => return count,
            None => return 0,
        }
    }
    0
}

fn count_commands(alloc: Global, spool: &[u8]) -> Result<u64, AllocError> {
    let mut source = MemorySource::new(Bytes::from_slice(alloc, spool)?, Numbers::new(alloc));
    let mut reader = SpoolReader::new(alloc);
    let count = commands_in(&mut reader, &mut source);
    drop(source);
    drop(reader);
    Ok(count)
}

/// Tries whether what is made can be read.
pub(crate) fn try_read(notes: &mut Notes, numbers: &str, wanted: &str) {
    let [seed, count, _, _] = numbers_of(numbers);
    let mut out = sink(notes.alloc, 0);
    let _ = make_into(notes.alloc, seed, count, &mut out);
    let told = count_commands(notes.alloc, out.held());
    drop(out);
    gives(notes, told, wanted);
}

#[test]
fn what_is_made_is_read(rt: HostRuntime) -> Result<(), AllocError> {
    try_all(&rt, rt.alloc(), "read", "7 400|400")
}

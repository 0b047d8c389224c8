//! Pending commands: what the list of them answers to the words of a case.
use crate::queue::{Queue, added, command, group};
use fleet_rows::Kind;
use std::alloc::{AllocError, Global};
use supersede_core::Pending;
use test_support::{Notes, count_of, gives, parted, parts_of, says};

fn least(pending: &Pending) -> Option<u64> {
    pending.least()
}

fn count(pending: &Pending) -> u32 {
    pending.count()
}

fn queued(pending: &Pending) -> u32 {
    pending.queued()
}

fn size(pending: &Pending) -> u64 {
    pending.size()
}

fn stamp_of(word: &str) -> i64 {
    word.parse::<i64>().unwrap_or(0)
}

// Adds a command, by its node if the word is of a kind, its stamp and its size. Its receipt, or none where there is no room.
fn add(
    alloc: Global,
    queue: &mut Queue,
    word: &str,
    text: &str,
) -> Result<Option<u64>, AllocError> {
    let ([node, stamp, size], _) = parts_of(text, " ");
    let kind = if word == "catalog" {
        Kind::Catalog
    } else {
        Kind::Facts
    };
    let node = (word != "single").then_some(count_of(node) as usize);
    let group = group(alloc, node, kind, stamp_of(stamp))?;
    added(alloc, queue, count_of(size) as usize, group)
}

// Adds as many commands of one group as there is room for, their stamps so far apart.
fn fill(alloc: Global, queue: &mut Queue, apart: i64) -> Result<bool, AllocError> {
    let sent = command(alloc, 100)?;
    for at in 0..262_144i64 {
        let group = group(alloc, Some(7), Kind::Facts, apart.wrapping_mul(at))?;
        if queue.add(sent.share()?, group)?.is_none() {
            return Ok(false);
        }
    }
    Ok(true)
}

// Looks at the list, and compares what is seen.
fn look(notes: &mut Notes, pending: &Pending, word: &str, wanted: &str) {
    match word {
        "least" => says(notes, least(pending), wanted),
        "count" => says(notes, count(pending), wanted),
        "queued" => says(notes, queued(pending), wanted),
        _ => says(notes, size(pending), wanted),
    }
}

// `facts`, `catalog` and `single` add a command of a node's facts or catalog, or of no group, with a stamp and a payload of so many bytes.
// `fill` adds 262,144 of one group. `mark`, `unmark`, `take` and `fail` stand for a claim, a release, an end and a failure.
fn answer(notes: &mut Notes, queue: &mut Queue, item: &str) {
    let alloc = notes.alloc;
    let (call, wanted) = parted(item.trim_ascii(), " = ");
    let (word, text) = parted(call, " ");
    match word {
        "fill" => gives(notes, fill(alloc, queue, stamp_of(text)), wanted),
        "mark" => says(notes, queue.mark(count_of(text)), wanted),
        "unmark" => says(notes, queue.unmark(count_of(text)), wanted),
        "take" => says(notes, queue.take(count_of(text)), wanted),
        "fail" => says(notes, queue.count_failure(count_of(text)), wanted),
        "least" | "count" | "queued" | "size" => look(notes, &queue.pending, word, wanted),
        _ => gives(notes, add(alloc, queue, word, text), wanted),
    }
}

fn answer_each(notes: &mut Notes, queue: &mut Queue, script: &str) {
    let mut rest = script;
    'items: for _ in 0..script.len() {
        let (item, more) = parted(rest, ";");
        answer(notes, queue, item);
        if more.is_empty() {
            return;
        }
        rest = more;
    }
}

/// Plays the words over an empty list.
pub(crate) fn try_queue(notes: &mut Notes, script: &str) {
    let mut queue = Queue::new(notes.alloc);
    answer_each(notes, &mut queue, script);
    drop(queue);
}

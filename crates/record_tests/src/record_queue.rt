//! The records of the queue's log.
ghost use Rattle.std.specs.Prelude.{IfOk};
ghost use Rattle.queue_records.specs.record_spec.Queue.{IsCommand, IsQueueRecord};

use crate::trials::try_all;
use itoa::Buffer;
use queue_records::fleet_rows::{Cause, Command, Kind};
use queue_records::json_tree::Bytes;
use queue_records::stamp_time::Moment;
use queue_records::{
    QueueRecord, dead_bytes, done_bytes, fail_bytes, held_bytes, read_queue, submit_bytes,
    write_queue,
};
use std::alloc::{AllocError, Global};
use std::fmt::Debug;
use test_support::{Notes, count_of, gives, numbers_of, parts_of, says};

/// Appends the word, and each number behind a blank.
pub(crate) fn put(text: &mut String, word: &str, numbers: &[u64]) -> Result<(), AllocError> {
    text.push_str(word)?;
    for number in numbers {
        text.push(' ')?;
        text.push_str(Buffer::new().format(*number))?;
    }
    Ok(())
}

/// Appends the value behind a blank.
pub(crate) fn put_value<T: Debug>(
    alloc: Global,
    text: &mut String,
    value: &T,
) -> Result<(), AllocError> {
    let said = format!(in alloc; " {value:?}")?;
    text.push_str(said.as_str())
}

fn put_command(alloc: Global, text: &mut String, command: &Command) -> Result<(), AllocError> {
    let said = format!(in alloc;
        " {:?} {} {} {}",
        command.kind,
        command.version,
        command.received.as_nanosecond(),
        command.payload.as_slice().len()
    )?;
    text.push_str(said.as_str())
}

// Appends what a record of a command says.
fn put_numbered(
    alloc: Global,
    text: &mut String,
    word: &str,
    numbers: &[u64],
    command: &Command,
) -> Result<(), AllocError> {
    put(text, word, numbers)?;
    put_command(alloc, text, command)
}

fn put_dead(
    alloc: Global,
    text: &mut String,
    receipt: u64,
    command: &Command,
    cause: &Cause,
) -> Result<(), AllocError> {
    put_numbered(alloc, text, "Dead", &[receipt], command)?;
    put_value(alloc, text, cause)
}

// Appends what a record says.
fn put_record(alloc: Global, text: &mut String, rec: &QueueRecord) -> Result<(), AllocError> {
    match rec {
        QueueRecord::Base(last) => put(text, "Base", &[*last]),
        QueueRecord::Held(receipt, attempts, shared) => put_numbered(
            alloc,
            text,
            "Held",
            &[*receipt, u64::from(*attempts)],
            shared.command(),
        ),
        QueueRecord::Dead(receipt, shared, cause) => {
            put_dead(alloc, text, *receipt, shared.command(), cause)
        }
        QueueRecord::Submit(receipt, shared) => {
            put_numbered(alloc, text, "Submit", &[*receipt], shared.command())
        }
        QueueRecord::Done(receipt) => put(text, "Done", &[*receipt]),
        QueueRecord::Superseded(receipt, by) => put(text, "Superseded", &[*receipt, *by]),
        QueueRecord::Refused(receipt, refusal) => {
            put(text, "Refused", &[*receipt])?;
            put_value(alloc, text, refusal)
        }
        QueueRecord::Fail(receipt, before, after) => {
            put(text, "Fail", &[*receipt, *before, *after])
        }
    }
}

/// What the record says that the bytes are; nothing where they are none.
pub(crate) fn words(alloc: Global, bytes: &[u8]) -> Result<String, AllocError> {
    let mut text = String::new(alloc);
    match read_queue(alloc, bytes)? {
        None => {}
        Some(rec) => {
            let said = put_record(alloc, &mut text, &rec);
            drop(rec);
            said?;
        }
    }
    Ok(text)
}

/// How the record is spelt that the bytes are; none where they are no record.
pub(crate) fn spelling(alloc: Global, bytes: &[u8]) -> Result<Option<Bytes>, AllocError> {
    match read_queue(alloc, bytes)? {
        None => Ok(None),
        Some(rec) => {
            let again = write_queue(alloc, &rec);
            drop(rec);
            Ok(Some(again?))
        }
    }
}

// A command with a payload of so many bytes. The number is no literal here, since a proof would compute the payload.
fn command(alloc: Global, nanos: i128, len: usize) -> Result<Command, AllocError>
    ensures { IfOk result (λ c. IsCommand c) }
{
    let received = Moment::from_nanosecond(nanos);
    let payload = Bytes::from_vec(vec![in alloc; b'x'; len]?);
    if !received.has_stamp() || payload.as_slice().len() >= 4_294_967_296 {
        return Err(AllocError);
    }
    Ok(Command {
        kind: Kind::Catalog,
        version: 9,
        received,
        payload,
    })
}

// One with a payload of 16 MiB.
fn longest(alloc: Global) -> Result<Command, AllocError>
    ensures { IfOk result (λ c. IsCommand c) }
{
    command(alloc, 1_714_557_600_000_000_000, 16_777_216)
}

// A record of it: a held command, a discarded one, or one that comes in.
fn record_of(alloc: Global, word: &str, command: &Command) -> Result<Bytes, AllocError>
    requires { IsCommand command.now }
{
    match word {
        "held" => held_bytes(alloc, 1, 15, command),
        "dead" => dead_bytes(alloc, 1, command, &Cause::Failures),
        _ => submit_bytes(alloc, 1, command),
    }
}

fn longest_record(alloc: Global, word: &str) -> Result<Bytes, AllocError> {
    let command = longest(alloc)?;
    let bytes = record_of(alloc, word, &command);
    drop(command);
    bytes
}

// Whether the bytes are a record, whose spelling they are.
fn is_record(alloc: Global, bytes: &[u8]) -> Result<bool, AllocError> {
    match spelling(alloc, bytes)? {
        Some(again) => Ok(again.as_slice() == bytes),
        None => Ok(false),
    }
}

// How many bytes there are, whether they are a record, and whether they are none without the last one.
fn told_of(alloc: Global, bytes: &[u8]) -> Result<(usize, bool, bool), AllocError> {
    match bytes {
        [front @ .., _last] => Ok((
            bytes.len(),
            is_record(alloc, bytes)?,
            spelling(alloc, front)?.is_none(),
        )),
        [] => Ok((0, false, false)),
    }
}

/// The same of a record of the longest payload.
pub(crate) fn longest_told(alloc: Global, word: &str) -> Result<(usize, bool, bool), AllocError> {
    let bytes = longest_record(alloc, word)?;
    let told = told_of(alloc, bytes.as_slice());
    drop(bytes);
    told
}

/// The records of a command of 16 MiB.
const LONGEST: &str = "held|(16777254, true, true)
dead|(16777251, true, true)
submitted|(16777250, true, true)";

#[test]
fn the_longest_payload_goes_both_ways(rt: HostRuntime) -> Result<(), AllocError> {
    try_all(&rt, rt.alloc(), "longest", LONGEST)
}

// Whether the record is spelt so.
fn is_written(alloc: Global, rec: QueueRecord, bytes: &[u8]) -> Result<bool, AllocError>
    requires { IsQueueRecord rec }
{
    let written = write_queue(alloc, &rec);
    drop(rec);
    Ok(written?.as_slice() == bytes)
}

fn is_done(alloc: Global, number: u64) -> Result<bool, AllocError> {
    is_written(alloc, QueueRecord::Done(number), &done_bytes(number))
}

fn is_fail(alloc: Global, before: u64, after: u64) -> Result<bool, AllocError> {
    let bytes = fail_bytes(1, before, after);
    is_written(alloc, QueueRecord::Fail(1, before, after), &bytes)
}

/// Tries the records of a known length with this number.
pub(crate) fn try_number(notes: &mut Notes, word: &str) {
    let number = count_of(word);
    let done = is_done(notes.alloc, number);
    gives(notes, done, "true");
    let fail = is_fail(notes.alloc, number, number / 2);
    gives(notes, fail, "true");
}

/// Numbers: 0, 1, 255, 256, and 2 to the power of 32 and of 63, and the greatest one.
const NUMBERS: &str = "0\n1\n255\n256\n4294967296\n9223372036854775808\n18446744073709551615";

/// Tries the bytes of a Done with the first number, and of a failure with the others.
pub(crate) fn try_short(notes: &mut Notes, script: &str) {
    let ([numbers, done, fail], _) = parts_of(script, "|");
    let [ended, receipt, before, after] = numbers_of(numbers);
    says(notes, done_bytes(ended), done);
    says(notes, fail_bytes(receipt, before, after), fail);
}

const SHORT: &str =
    "1 2 3 258|[4, 1, 0, 0, 0, 0, 0, 0, 0]|[7, 2, 0, 0, 0, 0, 0, 0, 0, 3, 0, 0, 0, 0, 0, 0, 0, 2, 1, 0, 0, 0, 0, 0, 0]";

#[test]
fn records_of_a_known_length_are_written_without_memory(rt: HostRuntime) -> Result<(), AllocError> {
    try_all(&rt, rt.alloc(), "number", NUMBERS)?;
    try_all(&rt, rt.alloc(), "short", SHORT)
}

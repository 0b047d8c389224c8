//! Encodes a record.
ghost use Rattle.std.specs.Prelude.{◌≡◌, ◌++◌, ◌∷◌, ◌<◌, ◌^◌, IfOk, OnOk};
ghost use Rattle.record_fields.specs.record_spec.declared.queue.QueueRecord.TheVariants as queue;
ghost use Rattle.record_fields.specs.record_spec.Parts.{long_text};
ghost use Rattle.record_fields.specs.record_spec.Queue.{queue_text, IsQueueRecord, IsCommand};
ghost use Rattle.record_fields.specs.record_spec.Refusals.{cause_bytes};

use crate::command::put_command;
use crate::refused::{put_cause, put_refusal};
use record_fields::fleet_rows::{Cause, Command, Refusal};
use record_fields::json_tree::Bytes;
use record_fields::record_spec::QueueRecord;
use record_fields::{put_u32, put_u64};
use std::alloc::{AllocError, Global};

// The room for a record's fields besides the payload. `Dead` has the most, 47 bytes.
const BESIDE: usize = 48;

// The tag and the receipt, with room for a payload of this length and all other fields.
fn begun(alloc: Global, tag: u8, receipt: u64, payload: usize) -> Result<Vec<u8>, AllocError>
    requires { payload < 2 ^ 32 }
    ensures { IfOk result (λ v. v.items ≡ tag ∷ long_text receipt) }
{
    let mut out = Vec::with_capacity(alloc, BESIDE + payload)?;
    out.push(tag)?;
    put_u64(&mut out, receipt)?;
    Ok(out)
}

/// The bytes of the record that a command is pending, with the number of times that the store failed on it.
pub fn held_bytes(
    alloc: Global,
    receipt: u64,
    attempts: u32,
    command: &Command,
) -> Result<Bytes, AllocError>
    requires few { attempts < 16 }
    requires command { IsCommand command.now }
    ensures { IfOk result (λ b. b ≡ queue_text (queue.Held receipt attempts command.now)) }
{
    let mut out = begun(alloc, 1, receipt, command.payload.as_slice().len())?;
    put_u32(&mut out, attempts)?;
    put_command(&mut out, command)?;
    Ok(Bytes::from_vec(out))
}

/// The bytes of the record that a command was discarded, and why.
pub fn dead_bytes(
    alloc: Global,
    receipt: u64,
    command: &Command,
    cause: &Cause,
) -> Result<Bytes, AllocError>
    requires { IsCommand command.now }
    ensures { IfOk result (λ b. b ≡ queue_text (queue.Dead receipt command.now cause.now)) }
{
    let mut out = begun(alloc, 2, receipt, command.payload.as_slice().len())?;
    put_command(&mut out, command)?;
    put_cause(&mut out, cause)?;
    Ok(Bytes::from_vec(out))
}

/// The bytes of the record that a command was received under this receipt.
pub fn submit_bytes(alloc: Global, receipt: u64, command: &Command) -> Result<Bytes, AllocError>
    requires { IsCommand command.now }
    ensures { IfOk result (λ b. b ≡ queue_text (queue.Submit receipt command.now)) }
{
    let mut out = begun(alloc, 3, receipt, command.payload.as_slice().len())?;
    put_command(&mut out, command)?;
    Ok(Bytes::from_vec(out))
}

fn number_bytes(alloc: Global, tag: u8, number: u64) -> Result<Bytes, AllocError>
    ensures { IfOk result (λ b. b ≡ tag ∷ long_text number) }
{
    let out = begun(alloc, tag, number, 0)?;
    Ok(Bytes::from_vec(out))
}

fn superseded_bytes(alloc: Global, receipt: u64, by: u64) -> Result<Bytes, AllocError>
    ensures { IfOk result (λ b. b ≡ queue_text (queue.Superseded receipt by)) }
{
    let mut out = begun(alloc, 5, receipt, 0)?;
    put_u64(&mut out, by)?;
    Ok(Bytes::from_vec(out))
}

fn refused_bytes(alloc: Global, receipt: u64, refusal: &Refusal) -> Result<Bytes, AllocError>
    ensures { IfOk result (λ b. b ≡ queue_text (queue.Refused receipt refusal.now)) }
{
    let mut out = begun(alloc, 6, receipt, 0)?;
    put_refusal(&mut out, refusal)?;
    Ok(Bytes::from_vec(out))
}

fn failure_bytes(alloc: Global, receipt: u64, before: u64, after: u64) -> Result<Bytes, AllocError>
    ensures { IfOk result (λ b. b ≡ queue_text (queue.Fail receipt before after)) }
{
    let mut out = begun(alloc, 7, receipt, 0)?;
    put_u64(&mut out, before)?;
    put_u64(&mut out, after)?;
    Ok(Bytes::from_vec(out))
}

/// The only encoding of the record.
pub fn write_queue(alloc: Global, rec: &QueueRecord) -> Result<Bytes, AllocError>
    requires { IsQueueRecord rec.now }
    ensures { IfOk result (λ b. b ≡ queue_text rec.now) }
{
    match rec {
        QueueRecord::Base(last) => number_bytes(alloc, 0, *last),
        QueueRecord::Held(receipt, attempts, shared) => {
            held_bytes(alloc, *receipt, *attempts, shared.command())
        }
        QueueRecord::Dead(receipt, shared, cause) => {
            dead_bytes(alloc, *receipt, shared.command(), cause)
        }
        QueueRecord::Submit(receipt, shared) => submit_bytes(alloc, *receipt, shared.command()),
        QueueRecord::Done(receipt) => number_bytes(alloc, 4, *receipt),
        QueueRecord::Superseded(receipt, by) => superseded_bytes(alloc, *receipt, *by),
        QueueRecord::Refused(receipt, refusal) => refused_bytes(alloc, *receipt, refusal),
        QueueRecord::Fail(receipt, before, after) => {
            failure_bytes(alloc, *receipt, *before, *after)
        }
    }
}

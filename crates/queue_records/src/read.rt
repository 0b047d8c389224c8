//! Decodes a record. Each field is read in place, and the payload is copied last.
ghost use Rattle.std.specs.Prelude.{◌≡◌, ℕ, IfOk, MatchOption};
ghost use Rattle.record_fields.specs.record_spec.declared.queue.QueueRecord.{QueueRecord};
ghost use Rattle.record_fields.specs.record_spec.Queue.{queue_text, IsQueueRecord};
ghost use Rattle.queue_records.specs.Reading.{queue_at, alone_at, held_at, dead_at, submit_at, superseded_at, refused_at, fail_at};

use crate::command::{own, take_command};
use crate::refused::{take_cause, take_refusal};
use record_fields::record_spec::QueueRecord;
use record_fields::{take_u32, take_u64};
use std::alloc::{AllocError, Global};

#[tactic(auto, unfolding(crate::specs::Reading::held_at))]
fn held_of(alloc: Global, bytes: &[u8]) -> Result<Option<QueueRecord>, AllocError>
    ensures { IfOk result (λ o. o ≡ held_at bytes.now) }
{
    let Some((receipt, rest)) = take_u64(bytes) else {
        return Ok(None);
    };
    let Some((attempts, rest)) = take_u32(rest) else {
        return Ok(None);
    };
    if attempts >= 16 {
        return Ok(None);
    }
    let Some((kind, version, received, payload, rest)) = take_command(rest) else {
        return Ok(None);
    };
    if !rest.is_empty() {
        return Ok(None);
    }
    Ok(Some(QueueRecord::Held(
        receipt,
        attempts,
        own(alloc, kind, version, received, payload)?,
    )))
}

#[tactic(auto, unfolding(crate::specs::Reading::dead_at))]
fn dead_of(alloc: Global, bytes: &[u8]) -> Result<Option<QueueRecord>, AllocError>
    ensures { IfOk result (λ o. o ≡ dead_at bytes.now) }
{
    let Some((receipt, rest)) = take_u64(bytes) else {
        return Ok(None);
    };
    let Some((kind, version, received, payload, rest)) = take_command(rest) else {
        return Ok(None);
    };
    let Some((cause, rest)) = take_cause(rest) else {
        return Ok(None);
    };
    if !rest.is_empty() {
        return Ok(None);
    }
    Ok(Some(QueueRecord::Dead(
        receipt,
        own(alloc, kind, version, received, payload)?,
        cause,
    )))
}

#[tactic(auto, unfolding(crate::specs::Reading::submit_at))]
fn submit_of(alloc: Global, bytes: &[u8]) -> Result<Option<QueueRecord>, AllocError>
    ensures { IfOk result (λ o. o ≡ submit_at bytes.now) }
{
    let Some((receipt, rest)) = take_u64(bytes) else {
        return Ok(None);
    };
    let Some((kind, version, received, payload, rest)) = take_command(rest) else {
        return Ok(None);
    };
    if !rest.is_empty() {
        return Ok(None);
    }
    Ok(Some(QueueRecord::Submit(receipt, own(alloc, kind, version, received, payload)?)))
}

// A number that ends the bytes.
#[tactic(auto, unfolding(crate::specs::Reading::alone_at))]
fn alone_of(bytes: &[u8]) -> Option<u64>
    ensures { result ≡ alone_at bytes.now }
{
    let (number, rest) = take_u64(bytes)?;
    rest.is_empty().then_some(number)
}

#[tactic(auto, unfolding(crate::specs::Reading::superseded_at))]
fn superseded_of(bytes: &[u8]) -> Option<QueueRecord>
    ensures { result ≡ superseded_at bytes.now }
{
    let (receipt, rest) = take_u64(bytes)?;
    let (by, rest) = take_u64(rest)?;
    rest.is_empty()
        .then_some(QueueRecord::Superseded(receipt, by))
}

#[tactic(auto, unfolding(crate::specs::Reading::refused_at))]
fn refused_of(bytes: &[u8]) -> Option<QueueRecord>
    ensures { result ≡ refused_at bytes.now }
{
    let (receipt, rest) = take_u64(bytes)?;
    let (refusal, rest) = take_refusal(rest)?;
    rest.is_empty()
        .then_some(QueueRecord::Refused(receipt, refusal))
}

#[tactic(auto, unfolding(crate::specs::Reading::fail_at))]
fn fail_of(bytes: &[u8]) -> Option<QueueRecord>
    ensures { result ≡ fail_at bytes.now }
{
    let (receipt, rest) = take_u64(bytes)?;
    let (before, rest) = take_u64(rest)?;
    let (after, rest) = take_u64(rest)?;
    rest.is_empty()
        .then_some(QueueRecord::Fail(receipt, before, after))
}

#[tactic(auto, unfolding(crate::specs::Reading::queue_at))]
fn queue_of(alloc: Global, bytes: &[u8]) -> Result<Option<QueueRecord>, AllocError>
    ensures { IfOk result (λ o. o ≡ queue_at bytes.now) }
{
    match bytes {
        [0, rest @ ..] => Ok(alone_of(rest).map(QueueRecord::Base)),
        [1, rest @ ..] => held_of(alloc, rest),
        [2, rest @ ..] => dead_of(alloc, rest),
        [3, rest @ ..] => submit_of(alloc, rest),
        [4, rest @ ..] => Ok(alone_of(rest).map(QueueRecord::Done)),
        [5, rest @ ..] => Ok(superseded_of(rest)),
        [6, rest @ ..] => Ok(refused_of(rest)),
        [7, rest @ ..] => Ok(fail_of(rest)),
        _ => Ok(None),
    }
}

/// The record that all of the bytes encode, or None if they encode none.
pub fn read_queue(alloc: Global, bytes: &[u8]) -> Result<Option<QueueRecord>, AllocError>
    // The result is that of the reader from left to right.
    ensures exact { IfOk result (λ o. o ≡ queue_at bytes.now) }

    // The bytes are the record's encoding. The result is None exactly if they encode no record.
    ensures found { IfOk result (λ o. MatchOption o ((r : QueueRecord) → IsQueueRecord r → bytes.now ≡ queue_text r → ⊥)
        (λ r. IsQueueRecord r × (bytes.now ≡ queue_text r))) }
{
    queue_of(alloc, bytes)
}

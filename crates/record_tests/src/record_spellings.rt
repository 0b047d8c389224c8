//! Both logs: each record is read from its bytes and written as them, other bytes are no record, and no record has a second spelling.
use crate::wrong::{Wrong, holds};
use crate::{record_queue, record_queue_texts, record_store, record_store_texts};
use queue_records::json_tree::Bytes;
use std::alloc::{AllocError, Global};

/// The log whose records are read.
#[derive(Clone, Copy)]
enum Log {
    Queue,
    Store,
}

fn spelling(log: Log, alloc: Global, bytes: &[u8]) -> Result<Option<Bytes>, AllocError> {
    match log {
        Log::Queue => record_queue::spelling(alloc, bytes),
        Log::Store => record_store::spelling(alloc, bytes),
    }
}

fn words(log: Log, alloc: Global, bytes: &[u8]) -> Result<String, AllocError> {
    match log {
        Log::Queue => record_queue::words(alloc, bytes),
        Log::Store => record_store::words(alloc, bytes),
    }
}

// Whether the bytes are a record that says this.
fn says(log: Log, alloc: Global, bytes: &[u8], wanted: &str) -> Result<bool, AllocError> {
    let words = words(log, alloc, bytes)?;
    Ok(words.as_str() == wanted)
}

// Whether the bytes are the spelling of the record that they are; none where they are no record.
fn verdict(log: Log, alloc: Global, bytes: &[u8]) -> Result<Option<bool>, AllocError> {
    match spelling(log, alloc, bytes)? {
        Some(again) => Ok(Some(again.as_slice() == bytes)),
        None => Ok(None),
    }
}

fn is_none(log: Log, alloc: Global, bytes: &[u8]) -> Result<bool, AllocError> {
    Ok(verdict(log, alloc, bytes)?.is_none())
}

// The byte at a place becomes each other one. Whether each text is no record, or one that is spelt so.
fn is_lawful_at(log: Log, alloc: Global, text: &mut [u8], at: usize) -> Result<bool, AllocError> {
    let mut lawful = true;
    'bytes: for _ in 0..255 {
        if let Some(place) = text.get_mut(at) {
            *place = place.wrapping_add(1);
        }
        lawful &= verdict(log, alloc, text)? != Some(false);
    }
    if let Some(place) = text.get_mut(at) {
        *place = place.wrapping_add(1);
    }
    Ok(lawful)
}

// Each byte of the text becomes another.
fn is_lawful_changed(log: Log, alloc: Global, text: &mut [u8]) -> Result<bool, AllocError> {
    let mut lawful = true;
    'places: for at in 0..text.len() {
        lawful &= is_lawful_at(log, alloc, text, at)?;
    }
    Ok(lawful)
}

// Whether each front of the text is no record.
fn is_none_cut(log: Log, alloc: Global, bytes: &[u8]) -> Result<bool, AllocError> {
    let mut none = true;
    'places: for at in 0..bytes.len() {
        none &= is_none(log, alloc, &bytes[..at])?;
    }
    Ok(none)
}

// Whether a byte that is changed, cut or added makes no second spelling.
fn has_no_second(log: Log, alloc: Global, bytes: &[u8]) -> Result<bool, AllocError> {
    let mut text = Vec::from_slice(alloc, bytes)?;
    let changed = is_lawful_changed(log, alloc, text.as_mut_slice())?;
    text.push(0)?;
    let longer = is_none(log, alloc, text.as_slice())?;
    drop(text);
    Ok(changed && longer && is_none_cut(log, alloc, bytes)?)
}

fn each_record(log: Log, alloc: Global, records: &[(&[u8], &str)]) -> Result<(), Wrong> {
    for (at, (bytes, wanted)) in records.iter().enumerate() {
        holds(says(log, alloc, bytes, wanted)?, at)?;
        holds(verdict(log, alloc, bytes)? == Some(true), at)?;
        holds(has_no_second(log, alloc, bytes)?, at)?;
    }
    Ok(())
}

#[test]
fn each_record_is_read_from_its_bytes_and_written_as_them_alone(
    rt: HostRuntime,
) -> Result<(), Wrong> {
    each_record(Log::Queue, rt.alloc(), record_queue_texts::RECORDS)?;
    each_record(Log::Store, rt.alloc(), record_store_texts::RECORDS)
}

fn each_other(log: Log, alloc: Global, others: &[&[u8]]) -> Result<(), Wrong> {
    for (at, bytes) in others.iter().enumerate() {
        holds(is_none(log, alloc, bytes)?, at)?;
    }
    Ok(())
}

#[test]
fn other_bytes_are_no_record(rt: HostRuntime) -> Result<(), Wrong> {
    each_other(Log::Queue, rt.alloc(), record_queue_texts::OTHERS)?;
    each_other(Log::Store, rt.alloc(), record_store_texts::OTHERS)
}

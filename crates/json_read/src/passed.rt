//! Skips values without building a tree. It keeps only the kinds of the open containers.
//!
//! Each clause says that some frames and some mode of the machine match the state of the code. They are those of the skipped
//! value, which the code never builds. They lie above one frame of the caller, so the skipped value is at level 1.
ghost use Rattle.std.specs.Prelude.{◌≡◌, ◌≢◌, ◌<◌, ◌≤◌, ◌+◌, ◌∷◌, ◌++◌, [], length, drop, slice_range, slice_index, IfOk, List, ℕ, IsTrue, ◌↔◌, false};
ghost use Rattle.json_machine.specs.text_spec.Json as spec;
ghost use Rattle.json_machine.specs.Machine as machine;
ghost use Rattle.json_machine.specs.Machine.{is_space, verdict, begins, opens, key_begins, closes, text_verdict};
ghost use Rattle.json_read.specs.Numbers.{state_of, IsFirst};
ghost use Rattle.json_read.specs.Passed.{IsStack, IsAt, IsOther, HasRoom, Closes, Begun, Passes, Skipped};
ghost use Rattle.json_read.specs.Strings.{IsStop};

use crate::escape::escape_end;
use crate::fault::ReadFault;
use crate::number::number_end;
use crate::plain::plain_end;
use crate::token::{owed_end, skip};
use json_tree::NumberState;
use std::alloc::Global;

#[derive(Clone, Copy)]
pub(crate) enum Kind {
    Array,
    Object,
}

#[derive(Clone, Copy)]
pub(crate) enum Stage {
    Value,
    FirstItem,
    FirstKey,
    NextKey,
    After,
}

fn is_after(stage: Stage) -> bool
    ensures { IsTrue result ↔ (stage ≡ Stage.After) }
{
    match stage {
        Stage::After => true,
        _ => false,
    }
}

// The offset after the closing quote of the string whose bytes begin at `start`.
fn string_end(bytes: &[u8], start: usize) -> Result<usize, usize>
    requires { start ≤ length bytes.now }
    ensures value { Closes bytes.now result (text_verdict machine.inside [] start (drop start bytes.now)) }
    ensures bound { IfOk result (λ end. (start < end) × (end ≤ length bytes.now)) }
{
    let mut at = plain_end(bytes, start)?;
    'escapes: while bytes[at] == b'\\' {
        let (_, end) = escape_end(bytes, at + 1)?;
        at = plain_end(bytes, end)?;
    }
    Ok(at + 1)
}

fn pass_string(bytes: &[u8], at: usize) -> Result<(Stage, usize), ReadFault>
    requires { at ≤ length bytes.now }
    ensures value { (fs : List machine.Frame) (depth : ℕ) → 0 < depth → Begun bytes.now fs depth result
        (verdict 127 fs (machine.string machine.inside []) at (drop at bytes.now)) }
    ensures bound { IfOk result (λ r. (at < r.1) × (r.1 ≤ length bytes.now)) }
    ensures after { IfOk result (λ r. r.0 ≡ Stage.After) }
{
    match string_end(bytes, at) {
        Ok(end) => Ok((Stage::After, end)),
        Err(at) => Err(ReadFault::NotJson { at }),
    }
}

fn pass_literal(bytes: &[u8], at: usize, owed: &[u8]) -> Result<(Stage, usize), ReadFault>
    requires { at ≤ length bytes.now }
    ensures value { (fs : List machine.Frame) (depth : ℕ) (j : spec.Json) → IsOther j
        → Begun bytes.now fs depth result (verdict 127 fs (machine.owed owed.now j) at (drop at bytes.now)) }
    ensures bound { IfOk result (λ r. (at ≤ r.1) × (r.1 ≤ length bytes.now)) }
    ensures after { IfOk result (λ r. r.0 ≡ Stage.After) }
{
    match owed_end(bytes, at, owed) {
        Ok(end) => Ok((Stage::After, end)),
        Err(at) => Err(ReadFault::NotJson { at }),
    }
}

fn pass_number(bytes: &[u8], start: usize, first: NumberState) -> Result<(Stage, usize), ReadFault>
    requires place { start < length bytes.now }
    requires first { IsFirst first (slice_index bytes.now start) }
    ensures value { (fs : List machine.Frame) (depth : ℕ) → Begun bytes.now fs depth result
        (verdict 127 fs (machine.number (state_of first) (slice_range bytes.now start (start + 1))) (start + 1) (drop (start + 1) bytes.now)) }
    ensures bound { IfOk result (λ r. (start < r.1) × (r.1 ≤ length bytes.now)) }
    ensures after { IfOk result (λ r. r.0 ≡ Stage.After) }
{
    match number_end(bytes, start, first) {
        Ok(end) => Ok((Stage::After, end)),
        Err(at) => Err(ReadFault::NotJson { at }),
    }
}

// A bracket or a brace at `at` opens a level, with `level` levels open.
fn open_array(level: usize, bytes: &[u8], at: usize) -> Result<(Stage, usize), ReadFault>
    requires place { at < length bytes.now }
    requires level { level ≤ 127 }
    ensures value { (fs : List machine.Frame) (depth : ℕ) → length fs ≡ level
        → Begun bytes.now fs depth result (opens 127 fs machine.first_item at (drop (at + 1) bytes.now)) }
    ensures bound { IfOk result (λ r. (at < r.1) × (r.1 ≤ length bytes.now)) }
    ensures opened { IfOk result (λ r. (r.0 ≡ Stage.FirstItem) × (level < 127)) }
{
    if level < 127 {
        Ok((Stage::FirstItem, at + 1))
    } else {
        Err(ReadFault::TooDeep { at })
    }
}

fn open_object(level: usize, bytes: &[u8], at: usize) -> Result<(Stage, usize), ReadFault>
    requires place { at < length bytes.now }
    requires level { level ≤ 127 }
    ensures value { (fs : List machine.Frame) (depth : ℕ) → length fs ≡ level
        → Begun bytes.now fs depth result (opens 127 fs machine.first_key at (drop (at + 1) bytes.now)) }
    ensures bound { IfOk result (λ r. (at < r.1) × (r.1 ≤ length bytes.now)) }
    ensures opened { IfOk result (λ r. (r.0 ≡ Stage.FirstKey) × (level < 127)) }
{
    if level < 127 {
        Ok((Stage::FirstKey, at + 1))
    } else {
        Err(ReadFault::TooDeep { at })
    }
}

// A value begins with `byte` at `at`, with `depth` of its containers open.
fn begin(depth: usize, bytes: &[u8], at: usize, byte: u8) -> Result<(Stage, usize), ReadFault>
    requires place { at < length bytes.now }
    requires byte { slice_index bytes.now at ≡ byte }
    requires depth { depth < 127 }
    requires text { depth ≡ 0 → byte ≢ 34 }
    ensures value { (fs : List machine.Frame) → length fs ≡ depth + 1 → Begun bytes.now fs depth result (begins 127 fs byte at (drop (at + 1) bytes.now)) }
    ensures bound { IfOk result (λ r. (at < r.1) × (r.1 ≤ length bytes.now)) }
    ensures room { IfOk result (λ r. HasRoom depth r.0) }
{
    match byte {
        b'[' => open_array(depth + 1, bytes, at),
        b'{' => open_object(depth + 1, bytes, at),
        b'"' => pass_string(bytes, at + 1),
        b'n' => pass_literal(bytes, at + 1, b"ull"),
        b't' => pass_literal(bytes, at + 1, b"rue"),
        b'f' => pass_literal(bytes, at + 1, b"alse"),
        b'-' => pass_number(bytes, at, NumberState::AfterMinus),
        b'0' => pass_number(bytes, at, NumberState::AfterZero),
        b'1'..=b'9' => pass_number(bytes, at, NumberState::InWhole),
        _ => Err(ReadFault::NotJson { at }),
    }
}

// `byte`, which is no white space, follows [.
fn first_item(
    kinds: &mut Vec<Kind>,
    bytes: &[u8],
    at: usize,
    byte: u8,
) -> Result<(Stage, usize), ReadFault>
    requires place { at < length bytes.now }
    requires black { is_space byte ≡ false }
    requires byte { slice_index bytes.now at ≡ byte }
    requires room { length kinds.old.items + 1 < 127 }
    ensures value { (base fs : List machine.Frame) → length base ≡ 1 → IsStack kinds.old.items fs
        → Passes bytes.now base kinds.new.items result (verdict 127 (fs ++ base) machine.first_item at (byte ∷ drop (at + 1) bytes.now)) }
    ensures bound { IfOk result (λ r. (at < r.1) × (r.1 ≤ length bytes.now)) }
    ensures room { IfOk result (λ r. HasRoom (length kinds.new.items) r.0) }
{
    if byte == b']' {
        return Ok((Stage::After, at + 1));
    }
    kinds.push(Kind::Array)?;
    begin(kinds.len(), bytes, at, byte)
}

// `byte`, which is no white space, follows {.
fn first_key(
    kinds: &mut Vec<Kind>,
    bytes: &[u8],
    at: usize,
    byte: u8,
) -> Result<(Stage, usize), ReadFault>
    requires place { at < length bytes.now }
    requires black { is_space byte ≡ false }
    requires room { length kinds.old.items + 1 < 127 }
    ensures value { (base fs : List machine.Frame) → IsStack kinds.old.items fs
        → Passes bytes.now base kinds.new.items result (verdict 127 (fs ++ base) machine.first_key at (byte ∷ drop (at + 1) bytes.now)) }
    ensures bound { IfOk result (λ r. (at < r.1) × (r.1 ≤ length bytes.now)) }
    ensures room { IfOk result (λ r. HasRoom (length kinds.new.items) r.0) }
{
    if byte == b'}' {
        return Ok((Stage::After, at + 1));
    }
    begin_key(kinds, bytes, at, byte)
}

// A key begins with `byte`.
fn begin_key(
    kinds: &mut Vec<Kind>,
    bytes: &[u8],
    at: usize,
    byte: u8,
) -> Result<(Stage, usize), ReadFault>
    requires place { at < length bytes.now }
    requires room { length kinds.old.items + 1 < 127 }
    ensures value { (base fs : List machine.Frame) (ms : List (List ℕ × spec.Json)) → IsStack kinds.old.items fs
        → Passes bytes.now base kinds.new.items result (key_begins 127 (fs ++ base) ms byte at (drop (at + 1) bytes.now)) }
    ensures bound { IfOk result (λ r. (at < r.1) × (r.1 ≤ length bytes.now)) }
    ensures room { IfOk result (λ r. HasRoom (length kinds.new.items) r.0) }
{
    if byte != b'"' {
        return Err(ReadFault::NotJson { at });
    }
    match string_end(bytes, at + 1) {
        Ok(end) => begin_member(kinds, bytes, end),
        Err(at) => Err(ReadFault::NotJson { at }),
    }
}

// After the key: white space and a colon.
fn begin_member(
    kinds: &mut Vec<Kind>,
    bytes: &[u8],
    end: usize,
) -> Result<(Stage, usize), ReadFault>
    requires place { end ≤ length bytes.now }
    requires room { length kinds.old.items + 1 < 127 }
    ensures value { (base fs : List machine.Frame) (ms : List (List ℕ × spec.Json)) (k : List ℕ) → IsStack kinds.old.items fs
        → Passes bytes.now base kinds.new.items result (verdict 127 (fs ++ base) (machine.colon ms k) end (drop end bytes.now)) }
    ensures bound { IfOk result (λ r. (end < r.1) × (r.1 ≤ length bytes.now)) }
    ensures room { IfOk result (λ r. HasRoom (length kinds.new.items) r.0) }
{
    let at = skip(bytes, end);
    if at == bytes.len() {
        return Err(ReadFault::NotJson { at });
    }
    if bytes[at] != b':' {
        return Err(ReadFault::NotJson { at });
    }
    kinds.push(Kind::Object)?;
    Ok((Stage::Value, at + 1))
}

// `byte` follows a value of the innermost container.
fn close(
    kinds: &mut Vec<Kind>,
    bytes: &[u8],
    at: usize,
    byte: u8,
) -> Result<(Stage, usize), ReadFault>
    requires place { at < length bytes.now }
    requires inside { 1 ≤ length kinds.old.items }
    requires room { length kinds.old.items < 127 }
    ensures value { (base fs : List machine.Frame) (j : spec.Json) → IsStack kinds.old.items fs
        → Passes bytes.now base kinds.new.items result (closes 127 (fs ++ base) j byte at (drop (at + 1) bytes.now)) }
    ensures bound { IfOk result (λ r. (at < r.1) × (r.1 ≤ length bytes.now)) }
    ensures room { IfOk result (λ r. HasRoom (length kinds.new.items) r.0) }
{
    match kinds.pop() {
        None => unreachable!(),
        Some(Kind::Array) => close_array(kinds, bytes, at, byte),
        Some(Kind::Object) => close_object(kinds, bytes, at, byte),
    }
}

fn close_array(
    kinds: &mut Vec<Kind>,
    bytes: &[u8],
    at: usize,
    byte: u8,
) -> Result<(Stage, usize), ReadFault>
    requires place { at < length bytes.now }
    requires room { length kinds.old.items + 1 < 127 }
    ensures value { (base fs : List machine.Frame) (js : List spec.Json) (j : spec.Json) → IsStack kinds.old.items fs
        → Passes bytes.now base kinds.new.items result (closes 127 (machine.in_array js ∷ (fs ++ base)) j byte at (drop (at + 1) bytes.now)) }
    ensures bound { IfOk result (λ r. (at < r.1) × (r.1 ≤ length bytes.now)) }
    ensures room { IfOk result (λ r. HasRoom (length kinds.new.items) r.0) }
{
    match byte {
        b',' => {
            kinds.push(Kind::Array)?;
            Ok((Stage::Value, at + 1))
        }
        b']' => Ok((Stage::After, at + 1)),
        _ => Err(ReadFault::NotJson { at }),
    }
}

fn close_object(
    kinds: &mut Vec<Kind>,
    bytes: &[u8],
    at: usize,
    byte: u8,
) -> Result<(Stage, usize), ReadFault>
    requires place { at < length bytes.now }
    requires room { length kinds.old.items + 1 < 127 }
    ensures value { (base fs : List machine.Frame) (ms : List (List ℕ × spec.Json)) (k : List ℕ) (j : spec.Json) → IsStack kinds.old.items fs
        → Passes bytes.now base kinds.new.items result (closes 127 (machine.in_object ms k ∷ (fs ++ base)) j byte at (drop (at + 1) bytes.now)) }
    ensures bound { IfOk result (λ r. (at < r.1) × (r.1 ≤ length bytes.now)) }
    ensures room { IfOk result (λ r. HasRoom (length kinds.new.items) r.0) }
{
    match byte {
        b',' => Ok((Stage::NextKey, at + 1)),
        b'}' => Ok((Stage::After, at + 1)),
        _ => Err(ReadFault::NotJson { at }),
    }
}

// What the stage skips from the byte at `at` on, which is no white space.
fn turn(
    kinds: &mut Vec<Kind>,
    stage: Stage,
    bytes: &[u8],
    at: usize,
) -> Result<(Stage, usize), ReadFault>
    requires place { at < length bytes.now }
    requires black { is_space (slice_index bytes.now at) ≡ false }
    requires room { HasRoom (length kinds.old.items) stage }
    requires inside { stage ≡ Stage.After → 1 ≤ length kinds.old.items }
    ensures value { (base fs : List machine.Frame) (m : machine.Mode) → length base ≡ 1 → IsStack kinds.old.items fs
        → IsAt (length kinds.old.items) stage m → Passes bytes.now base kinds.new.items result (verdict 127 (fs ++ base) m at (drop at bytes.now)) }
    ensures bound { IfOk result (λ r. (at < r.1) × (r.1 ≤ length bytes.now)) }
    ensures room { IfOk result (λ r. HasRoom (length kinds.new.items) r.0) }
{
    let byte = bytes[at];
    match stage {
        Stage::Value => begin(kinds.len(), bytes, at, byte),
        Stage::FirstItem => first_item(kinds, bytes, at, byte),
        Stage::FirstKey => first_key(kinds, bytes, at, byte),
        Stage::NextKey => begin_key(kinds, bytes, at, byte),
        Stage::After => close(kinds, bytes, at, byte),
    }
}

/// The offset after the value at `start`. The value is at level 1, is no text, and has no white space before it.
pub(crate) fn value_end(alloc: Global, bytes: &[u8], start: usize) -> Result<usize, ReadFault>
    requires place { start < length bytes.now }
    requires black { is_space (slice_index bytes.now start) ≡ false }
    requires other { slice_index bytes.now start ≢ 34 }
    ensures value { (base : List machine.Frame) → length base ≡ 1 → Skipped bytes.now base result
        (verdict 127 base machine.value start (drop start bytes.now)) }
    ensures bound { IfOk result (λ end. (start < end) × (end ≤ length bytes.now)) }
{
    let mut kinds = Vec::new(alloc);
    let (mut stage, mut at) = begin(0, bytes, start, bytes[start])?;
    'passing: while !(kinds.is_empty() && is_after(stage)) {
        let next = skip(bytes, at);
        if next == bytes.len() {
            return Err(ReadFault::NotJson { at: next });
        }
        let (later, end) = turn(&mut kinds, stage, bytes, next)?;
        stage = later;
        at = end;
    }
    Ok(at)
}

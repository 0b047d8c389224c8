//! Reads the beginning of a value: a scalar, or the bracket or brace of a container.
ghost use Rattle.std.specs.Prelude.{◌≡◌, ◌<◌, ◌≤◌, ◌+◌, suc, length, drop, slice_range, slice_index, IfOk, OnOk, List, ℕ, [], ◌∷◌, false, true};
ghost use Rattle.json_tree.specs.Tree.{json_of, pairs};
ghost use Rattle.json_machine.specs.text_spec.Json.{levels, members_of, members_levels, settled};
ghost use Rattle.json_machine.specs.Machine as machine;
ghost use Rattle.json_machine.specs.Machine.{verdict, begins, opens};
ghost use Rattle.json_read.specs.Numbers.{state_of, IsFirst};
ghost use Rattle.json_read.specs.Found.{mode_of, Found, FoundScalar, IsOpening, FitsMode};

use crate::fault::ReadFault;
use crate::number::{number_end, number_of};
use crate::stack::Mode;
use crate::string::string_at;
use crate::token::owed_end;
use json_tree::{Json, NumberState};
use std::alloc::Global;

#[inline(always)]
fn literal(bytes: &[u8], at: usize, owed: &[u8], json: Json) -> Result<(Json, usize), ReadFault>
    requires place { at ≤ length bytes.now }
    requires flat { levels (json_of json) ≡ 0 }
    ensures value { (fs : List machine.Frame) → FoundScalar bytes.now fs result (verdict 127 fs (machine.owed owed.now (json_of json)) at (drop at bytes.now)) }
    ensures bound { IfOk result (λ r. (at ≤ r.1) × (r.1 ≤ length bytes.now)) }
    ensures flat { IfOk result (λ r. levels (json_of r.0) ≡ 0) }
{
    match owed_end(bytes, at, owed) {
        Ok(end) => Ok((json, end)),
        Err(at) => Err(ReadFault::NotJson { at }),
    }
}

#[inline(always)]
fn string_value(alloc: Global, bytes: &[u8], at: usize) -> Result<(Json, usize), ReadFault>
    requires { at ≤ length bytes.now }
    ensures value { (fs : List machine.Frame) → FoundScalar bytes.now fs result (verdict 127 fs (machine.string machine.inside []) at (drop at bytes.now)) }
    ensures bound { IfOk result (λ r. (at ≤ r.1) × (r.1 ≤ length bytes.now)) }
    ensures flat { IfOk result (λ r. levels (json_of r.0) ≡ 0) }
{
    match string_at(alloc, bytes, at) {
        Ok((text, end)) => Ok((Json::Text(text), end)),
        Err(fault) => Err(fault),
    }
}

#[inline(always)]
fn number_value(
    alloc: Global,
    bytes: &[u8],
    start: usize,
    first: NumberState,
) -> Result<(Json, usize), ReadFault>
    requires place { start < length bytes.now }
    requires first { IsFirst first (slice_index bytes.now start) }
    ensures value { (fs : List machine.Frame) → FoundScalar bytes.now fs result
        (verdict 127 fs (machine.number (state_of first) (slice_range bytes.now start (start + 1))) (start + 1) (drop (start + 1) bytes.now)) }
    ensures bound { IfOk result (λ r. (start < r.1) × (r.1 ≤ length bytes.now)) }
    ensures flat { IfOk result (λ r. levels (json_of r.0) ≡ 0) }
{
    match number_end(bytes, start, first) {
        Ok(end) => {
            let number = number_of(alloc, bytes, start, end)?;
            Ok((Json::Num(number), end))
        }
        Err(at) => Err(ReadFault::NotJson { at }),
    }
}

// A bracket or a brace opens a level.
#[inline(always)]
fn open(depth: usize, bytes: &[u8], at: usize, mode: Mode) -> Result<(Mode, usize), ReadFault>
    requires place { at < length bytes.now }
    requires depth { depth ≤ 127 }
    requires fits { suc depth ≤ 127 → FitsMode depth mode }
    ensures value { (fs : List machine.Frame) → length fs ≡ depth → Found bytes.now fs result (opens 127 fs (mode_of mode) at (drop (at + 1) bytes.now)) }
    ensures bound { IfOk result (λ r. (at < r.1) × (r.1 ≤ length bytes.now)) }
    ensures fits { IfOk result (λ r. FitsMode depth r.0) }
{
    if depth < 127 {
        Ok((mode, at + 1))
    } else {
        Err(ReadFault::TooDeep { at })
    }
}

// A value begins with `byte` at `at`, which is no bracket or brace.
#[inline(always)]
pub(crate) fn scalar(
    alloc: Global,
    bytes: &[u8],
    at: usize,
    byte: u8,
) -> Result<(Json, usize), ReadFault>
    requires place { at < length bytes.now }
    requires byte { slice_index bytes.now at ≡ byte }
    requires other { ¬ IsOpening byte }
    ensures value { (fs : List machine.Frame) → FoundScalar bytes.now fs result (begins 127 fs byte at (drop (at + 1) bytes.now)) }
    ensures bound { IfOk result (λ r. (at < r.1) × (r.1 ≤ length bytes.now)) }
    ensures flat { IfOk result (λ r. levels (json_of r.0) ≡ 0) }
{
    match byte {
        b'"' => string_value(alloc, bytes, at + 1),
        b'n' => literal(bytes, at + 1, b"ull", Json::Null),
        b't' => literal(bytes, at + 1, b"rue", Json::Bool(true)),
        b'f' => literal(bytes, at + 1, b"alse", Json::Bool(false)),
        b'-' => number_value(alloc, bytes, at, NumberState::AfterMinus),
        b'0' => number_value(alloc, bytes, at, NumberState::AfterZero),
        b'1'..=b'9' => number_value(alloc, bytes, at, NumberState::InWhole),
        _ => Err(ReadFault::NotJson { at }),
    }
}

// A value begins with `byte` at `at`.
#[inline(never)]
pub(crate) fn begin_value(
    alloc: Global,
    depth: usize,
    bytes: &[u8],
    at: usize,
    byte: u8,
) -> Result<(Mode, usize), ReadFault>
    requires place { at < length bytes.now }
    requires byte { slice_index bytes.now at ≡ byte }
    requires depth { depth ≤ 127 }
    ensures value { (fs : List machine.Frame) → length fs ≡ depth → Found bytes.now fs result (begins 127 fs byte at (drop (at + 1) bytes.now)) }
    ensures bound { IfOk result (λ r. (at < r.1) × (r.1 ≤ length bytes.now)) }
    ensures fits { IfOk result (λ r. FitsMode depth r.0) }
{
    match byte {
        b'[' => open(depth, bytes, at, Mode::FirstItem),
        b'{' => open(depth, bytes, at, Mode::FirstKey),
        _ => match scalar(alloc, bytes, at, byte) {
            Ok((json, end)) => Ok((Mode::After(json), end)),
            Err(fault) => Err(fault),
        },
    }
}

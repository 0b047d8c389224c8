//! The reader: a loop over tokens, with a stack of the open containers.
//!
//! It follows the machine of `json_machine`. Each function returns a mode and an offset, and leaves a stack. Its clause says that
//! the machine's verdict from there equals the verdict from where it began. So no clause cites the bytes before. Members and
//! items that are scalars are read in loops of their own, in `run.rt`, which leave the stack alone. The main loop turns once
//! where a container begins and once after it. The length of the stack is the level, at most 127. `Fits` says that unfinished
//! containers leave room for the open levels around them, as `Items` and `Members` require.
//!
//! If you add a mode, add it to `stack.rt`, to `mode_of` of specs/Found and to `turn`.
ghost use Rattle.std.specs.Prelude.{◌≡◌, ◌<◌, ◌≤◌, ◌+◌, length, drop, slice_index, IfOk, OnOk, ℕ, [], false};
ghost use Rattle.json_machine.specs.text_spec.Json as spec;
ghost use Rattle.json_machine.specs.text_spec.JsonText.{Spells, NotJsonAt, TooDeepAt};
ghost use Rattle.json_tree.specs.Tree.{json_of};
ghost use Rattle.json_machine.specs.Machine as machine;
ghost use Rattle.json_machine.specs.Machine.{is_space, verdict};
ghost use Rattle.json_read.specs.Found.{frames_of, mode_of, Reads, Found, IsReadOf, Fits, FitsMode};

use crate::container::{close, first_item, first_key};
use crate::fault::ReadFault;
use crate::stack::{Frame, Mode, Spare};
use crate::token::skip;
use crate::value::begin_value;
use json_tree::Json;
use std::alloc::Global;

// What the mode reads from the byte at `at` on, which is no white space.
#[inline(always)]
fn turn(
    alloc: Global,
    frames: &mut Vec<Frame>,
    spare: &mut Spare,
    mode: Mode,
    bytes: &[u8],
    at: usize,
) -> Result<(Mode, usize), ReadFault>
    requires place { at < length bytes.now }
    requires black { is_space (slice_index bytes.now at) ≡ false }
    requires fits { Fits (frames_of frames.old.items) }
    requires mode { FitsMode (length frames.old.items) mode }
    ensures value { Found bytes.now (frames_of frames.new.items) result (verdict 127 (frames_of frames.old.items) (mode_of mode) at (drop at bytes.now)) }
    ensures bound { IfOk result (λ r. (at < r.1) × (r.1 ≤ length bytes.now)) }
    ensures fits { OnOk result (Fits (frames_of frames.new.items)) }
    ensures mode { IfOk result (λ r. FitsMode (length frames.new.items) r.0) }
{
    let byte = bytes[at];
    match mode {
        Mode::Value => begin_value(alloc, frames.len(), bytes, at, byte),
        Mode::FirstItem => first_item(alloc, frames, spare, bytes, at, byte),
        Mode::FirstKey => first_key(alloc, frames, spare, bytes, at, byte),
        Mode::After(json) => close(alloc, frames, spare, json, bytes, at, byte),
    }
}

// The text ends at `at`.
fn finish(frames: &[Frame], mode: Mode, at: usize) -> Result<Json, ReadFault>
    ensures { Reads result (verdict 127 (frames_of frames.now) (mode_of mode) at []) }
{
    if !frames.is_empty() {
        return Err(ReadFault::NotJson { at });
    }
    match mode {
        Mode::After(json) => Ok(json),
        _ => Err(ReadFault::NotJson { at }),
    }
}

/// Follows the machine over the bytes.
pub(crate) fn follow(alloc: Global, bytes: &[u8]) -> Result<Json, ReadFault>
    ensures { Reads result (verdict 127 [] machine.value 0 bytes.now) }
{
    let mut frames = Vec::new(alloc);
    let mut spare = Spare::new(alloc);
    let mut mode = Mode::Value;
    let mut at = 0;
    'reading: loop {
        let start = skip(bytes, at);
        if start == bytes.len() {
            return finish(frames.as_slice(), mode, start);
        }
        match turn(alloc, &mut frames, &mut spare, mode, bytes, start) {
            Ok((next, end)) => {
                mode = next;
                at = end;
            }
            Err(fault) => return Err(fault),
        }
    }
}

/// The value that a JSON text spells (RFC 8259), or the first offset at which no JSON text continues.
pub fn read(alloc: Global, bytes: &[u8]) -> Result<Json, ReadFault>
    ensures found { IfOk result (λ j. Spells bytes.now (json_of j)) }
    ensures only { (v : spec.Json) → Spells bytes.now v → IsReadOf v result }
    ensures not_json { (at : ℕ) → result ≡ Err (ReadFault.NotJson at) → NotJsonAt bytes.now at }
    ensures too_deep { (at : ℕ) → result ≡ Err (ReadFault.TooDeep at) → TooDeepAt bytes.now at }
{
    follow(alloc, bytes)
}

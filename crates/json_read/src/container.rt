//! Reads arrays and objects: their first item or key, the next one, and their end.
ghost use Rattle.std.specs.Prelude.{◌≡◌, ◌<◌, ◌≤◌, ◌+◌, suc, length, drop, slice_range, slice_index, IfOk, OnOk, List, ℕ, [], ◌∷◌, false, true};
ghost use Rattle.json_tree.specs.Tree.{json_of, pairs};
ghost use Rattle.json_machine.specs.text_spec.Json.{levels, items_of, items_levels, members_of, members_levels, settled};
ghost use Rattle.json_machine.specs.Machine as machine;
ghost use Rattle.json_machine.specs.Machine.{is_space, verdict, closes};
ghost use Rattle.json_read.specs.Found.{frames_of, Found, Fits, FitsMode};

use crate::fault::ReadFault;
use crate::run::{run_items, run_members};
use crate::stack::{Frame, Mode, Spare};
use crate::value::begin_value;
use json_tree::{Items, Json, Members, Text};
use std::alloc::{AllocError, Global};

#[inline(always)]
pub(crate) fn first_item(
    alloc: Global,
    frames: &mut Vec<Frame>,
    spare: &mut Spare,
    bytes: &[u8],
    at: usize,
    byte: u8,
) -> Result<(Mode, usize), ReadFault>
    requires place { at < length bytes.now }
    requires black { is_space byte ≡ false }
    requires byte { slice_index bytes.now at ≡ byte }
    requires fits { Fits (frames_of frames.old.items) }
    requires mode { suc (length frames.old.items) ≤ 127 }
    ensures value { Found bytes.now (frames_of frames.new.items) result
        (verdict 127 (frames_of frames.old.items) machine.first_item at (byte ∷ drop (at + 1) bytes.now)) }
    ensures bound { IfOk result (λ r. (at < r.1) × (r.1 ≤ length bytes.now)) }
    ensures fits { OnOk result (Fits (frames_of frames.new.items)) }
    ensures mode { IfOk result (λ r. FitsMode (length frames.new.items) r.0) }
{
    if byte == b']' {
        return Ok((Mode::After(Json::List(Items::new(alloc))), at + 1));
    }
    let items = spare.take_items(alloc);
    more_items(alloc, frames, spare, items, bytes, at)
}

#[inline(always)]
pub(crate) fn first_key(
    alloc: Global,
    frames: &mut Vec<Frame>,
    spare: &mut Spare,
    bytes: &[u8],
    at: usize,
    byte: u8,
) -> Result<(Mode, usize), ReadFault>
    requires place { at < length bytes.now }
    requires black { is_space byte ≡ false }
    requires byte { slice_index bytes.now at ≡ byte }
    requires fits { Fits (frames_of frames.old.items) }
    requires mode { suc (length frames.old.items) ≤ 127 }
    ensures value { Found bytes.now (frames_of frames.new.items) result
        (verdict 127 (frames_of frames.old.items) machine.first_key at (byte ∷ drop (at + 1) bytes.now)) }
    ensures bound { IfOk result (λ r. (at < r.1) × (r.1 ≤ length bytes.now)) }
    ensures fits { OnOk result (Fits (frames_of frames.new.items)) }
    ensures mode { IfOk result (λ r. FitsMode (length frames.new.items) r.0) }
{
    if byte == b'}' {
        return Ok((Mode::After(Json::Map(Members::new(alloc))), at + 1));
    }
    let members = spare.take_members(alloc);
    more_members(alloc, frames, spare, members, bytes, at)
}

// After a brace or comma: reads members up to the end of the object or up to a container value. For a container, it pushes the
// object.
#[inline(never)]
fn more_members(
    alloc: Global,
    frames: &mut Vec<Frame>,
    spare: &mut Spare,
    members: Vec<(Text, Json)>,
    bytes: &[u8],
    start: usize,
) -> Result<(Mode, usize), ReadFault>
    requires place { start ≤ length bytes.now }
    requires fits { Fits (frames_of frames.old.items) }
    requires mode { members_levels (members_of (pairs members.items)) + suc (length frames.old.items) ≤ 127 }
    ensures value { Found bytes.now (frames_of frames.new.items) result
        (verdict 127 (frames_of frames.old.items) (machine.next_key (pairs members.items)) start (drop start bytes.now)) }
    ensures bound { IfOk result (λ r. (start < r.1) × (r.1 ≤ length bytes.now)) }
    ensures fits { OnOk result (Fits (frames_of frames.new.items)) }
    ensures mode { IfOk result (λ r. FitsMode (length frames.new.items) r.0) }
{
    let mut members = members;
    match run_members(alloc, &mut members, bytes, start) {
        Ok((open, at)) => match open {
            None => {
                let object = object_of(alloc, spare, members)?;
                Ok((Mode::After(Json::Map(object)), at + 1))
            }
            Some(key) => {
                frames.push(Frame::Object(members, key))?;
                begin_value(alloc, frames.len(), bytes, at, bytes[at])
            }
        },
        Err(fault) => Err(fault),
    }
}

// After a bracket or comma: reads items up to the end of the array or up to a container. For a container, it pushes the array.
#[inline(never)]
fn more_items(
    alloc: Global,
    frames: &mut Vec<Frame>,
    spare: &mut Spare,
    items: Items,
    bytes: &[u8],
    start: usize,
) -> Result<(Mode, usize), ReadFault>
    requires place { start ≤ length bytes.now }
    requires fits { Fits (frames_of frames.old.items) }
    requires mode { items_levels (items_of items) + suc (length frames.old.items) ≤ 127 }
    ensures value { Found bytes.now (frames_of frames.new.items) result
        (verdict 127 (machine.in_array items ∷ frames_of frames.old.items) machine.value start (drop start bytes.now)) }
    ensures bound { IfOk result (λ r. (start < r.1) × (r.1 ≤ length bytes.now)) }
    ensures fits { OnOk result (Fits (frames_of frames.new.items)) }
    ensures mode { IfOk result (λ r. FitsMode (length frames.new.items) r.0) }
{
    let mut items = items;
    match run_items(alloc, &mut items, bytes, start) {
        Ok((true, at)) => {
            let (fitted, room) = items.fitted(alloc)?;
            spare.give_items(room)?;
            Ok((Mode::After(Json::List(fitted)), at + 1))
        }
        Ok((false, at)) => {
            frames.push(Frame::Array(items))?;
            begin_value(alloc, frames.len(), bytes, at, bytes[at])
        }
        Err(fault) => Err(fault),
    }
}

// The object of these members, in which keys may repeat.
#[inline(never)]
fn object_of(
    alloc: Global,
    spare: &mut Spare,
    list: Vec<(Text, Json)>,
) -> Result<Members, AllocError>
    requires { members_levels (members_of (pairs list.items)) ≤ 126 }
    ensures { IfOk result (λ ms. ms ≡ settled [] (pairs list.items)) }
{
    let mut done = json_tree::settle(alloc, list)?;
    let mut fitted = Vec::with_capacity(alloc, done.len())?;
    fitted.append(&mut done)?;
    spare.give_members(done)?;
    Ok(Members::from_pairs(fitted))
}

// `byte` follows an item of the innermost array.
#[inline(always)]
#[tactic(auto, using(crate::proofs::Frames::pushed_items))]
fn close_array(
    alloc: Global,
    frames: &mut Vec<Frame>,
    spare: &mut Spare,
    items: Items,
    json: Json,
    bytes: &[u8],
    at: usize,
    byte: u8,
) -> Result<(Mode, usize), ReadFault>
    requires place { at < length bytes.now }
    requires fits { Fits (machine.in_array items ∷ frames_of frames.old.items) }
    requires mode { levels (json_of json) + suc (length frames.old.items) ≤ 127 }
    ensures value { Found bytes.now (frames_of frames.new.items) result
        (closes 127 (machine.in_array items ∷ frames_of frames.old.items) (json_of json) byte at (drop (at + 1) bytes.now)) }
    ensures bound { IfOk result (λ r. (at < r.1) × (r.1 ≤ length bytes.now)) }
    ensures fits { OnOk result (Fits (frames_of frames.new.items)) }
    ensures mode { IfOk result (λ r. FitsMode (length frames.new.items) r.0) }
{
    let mut items = items;
    match byte {
        b',' => {
            items.push(json)?;
            more_items(alloc, frames, spare, items, bytes, at + 1)
        }
        b']' => {
            items.push(json)?;
            let (fitted, room) = items.fitted(alloc)?;
            spare.give_items(room)?;
            Ok((Mode::After(Json::List(fitted)), at + 1))
        }
        _ => Err(ReadFault::NotJson { at }),
    }
}

// `byte` follows the value of the innermost object's last key.
#[inline(always)]
fn close_object(
    alloc: Global,
    frames: &mut Vec<Frame>,
    spare: &mut Spare,
    members: Vec<(Text, Json)>,
    key: Text,
    json: Json,
    bytes: &[u8],
    at: usize,
    byte: u8,
) -> Result<(Mode, usize), ReadFault>
    requires place { at < length bytes.now }
    requires fits { Fits (machine.in_object (pairs members.items) key ∷ frames_of frames.old.items) }
    requires mode { levels (json_of json) + suc (length frames.old.items) ≤ 127 }
    ensures value { Found bytes.now (frames_of frames.new.items) result
        (closes 127 (machine.in_object (pairs members.items) key ∷ frames_of frames.old.items) (json_of json) byte at (drop (at + 1) bytes.now)) }
    ensures bound { IfOk result (λ r. (at < r.1) × (r.1 ≤ length bytes.now)) }
    ensures fits { OnOk result (Fits (frames_of frames.new.items)) }
    ensures mode { IfOk result (λ r. FitsMode (length frames.new.items) r.0) }
{
    let mut members = members;
    match byte {
        b',' => {
            members.push((key, json))?;
            more_members(alloc, frames, spare, members, bytes, at + 1)
        }
        b'}' => {
            members.push((key, json))?;
            let object = object_of(alloc, spare, members)?;
            Ok((Mode::After(Json::Map(object)), at + 1))
        }
        _ => Err(ReadFault::NotJson { at }),
    }
}

// `byte` follows the value `json`.
#[inline(always)]
pub(crate) fn close(
    alloc: Global,
    frames: &mut Vec<Frame>,
    spare: &mut Spare,
    json: Json,
    bytes: &[u8],
    at: usize,
    byte: u8,
) -> Result<(Mode, usize), ReadFault>
    requires place { at < length bytes.now }
    requires fits { Fits (frames_of frames.old.items) }
    requires mode { levels (json_of json) + length frames.old.items ≤ 127 }
    ensures value { Found bytes.now (frames_of frames.new.items) result
        (closes 127 (frames_of frames.old.items) (json_of json) byte at (drop (at + 1) bytes.now)) }
    ensures bound { IfOk result (λ r. (at < r.1) × (r.1 ≤ length bytes.now)) }
    ensures fits { OnOk result (Fits (frames_of frames.new.items)) }
    ensures mode { IfOk result (λ r. FitsMode (length frames.new.items) r.0) }
{
    match frames.pop() {
        None => Err(ReadFault::NotJson { at }),
        Some(Frame::Array(items)) => close_array(
            alloc, frames, spare, items, json, bytes, at, byte,
        ),
        Some(Frame::Object(members, key)) => {
            close_object(alloc, frames, spare, members, key, json, bytes, at, byte)
        }
    }
}

//! Reads the certname and the stamp of a payload in one pass. It keeps the last value of each of the two names in the outermost
//! object, and skips every other value.
ghost use Rattle.std.specs.Prelude.{◌≡◌, ◌≢◌, ◌<◌, ◌≤◌, ◌∷◌, ◌++◌, IfOk, Option, ℤ, None, [], codes, drop, length, slice_index};
ghost use Rattle.std.specs.Prelude.{List, ℕ, false, if◌then◌else◌, Some};
ghost use Rattle.std.specs.Str.{bytes_eq};
ghost use Rattle.json_machine.specs.text_spec.Json as spec;
ghost use Rattle.json_machine.specs.text_spec.JsonText.{Spells};
ghost use Rattle.json_machine.specs.text_spec.StampReader.{stamp_of};
ghost use Rattle.json_machine.specs.Machine as machine;
ghost use Rattle.json_machine.specs.Machine.{verdict, is_space};
ghost use Rattle.json_read.specs.Heads.{head_of, head_told, both, nonempty, stamp_in};
ghost use Rattle.json_read.specs.HeadSteps.{Heads, TextFound, MemberFound, Separated, Ended, Watches};

use crate::fault::ReadFault;
use crate::passed::value_end;
use crate::string::string_at;
use crate::token::skip;
use json_tree::Text;
use stamp_time::{Moment, read_stamp};
use std::alloc::{AllocError, Global};

// The last values of the two names so far.
#[derive(Drop)]
struct Watch {
    name: Option<Text>,
    moment: Option<Moment>,
}

/// The certname of a payload and the moment of its producer's stamp. It is Some exactly if the bytes are a JSON object with a
/// nonempty text at `certname` and a stamp at `producer_timestamp`. It builds no tree.
pub fn peek(alloc: Global, bytes: &[u8]) -> Result<Option<(Text, Moment)>, AllocError>
    ensures spelled { (v : spec.Json) → Spells bytes.now v → IfOk result (λ head. head ≡ head_of v) }
    ensures other { ((v : spec.Json) → ¬ Spells bytes.now v) → IfOk result (λ head. head ≡ None) }
{
    unfaulted(head(alloc, bytes))
}

fn unfaulted(
    found: Result<Option<(Text, Moment)>, ReadFault>,
) -> Result<Option<(Text, Moment)>, AllocError>
    ensures { (told : Option (List ℕ × ℤ)) → Heads found told → IfOk result (λ head. head ≡ told) }
{
    match found {
        Ok(head) => Ok(head),
        Err(ReadFault::NotJson { .. }) => Ok(None),
        Err(ReadFault::TooDeep { .. }) => Ok(None),
        Err(ReadFault::Memory) => Err(AllocError),
    }
}

fn head(alloc: Global, bytes: &[u8]) -> Result<Option<(Text, Moment)>, ReadFault>
    ensures { Heads result (head_told (verdict 127 [] machine.value 0 bytes.now)) }
{
    let start = skip(bytes, 0);
    if start == bytes.len() {
        return Ok(None);
    }
    if bytes[start] != b'{' {
        return Ok(None);
    }
    object_head(alloc, bytes, start + 1)
}

// Reads on after the brace of the outermost object.
fn object_head(
    alloc: Global,
    bytes: &[u8],
    start: usize,
) -> Result<Option<(Text, Moment)>, ReadFault>
    requires { start ≤ length bytes.now }
    ensures { Heads result (head_told (verdict 127 [] machine.first_key start (drop start bytes.now))) }
{
    let first = skip(bytes, start);
    if first == bytes.len() {
        return Ok(None);
    }
    if bytes[first] == b'}' {
        return Ok(None);
    }
    members_head(alloc, bytes, first)
}

// Reads on from where the first key of the outermost object begins.
fn members_head(
    alloc: Global,
    bytes: &[u8],
    start: usize,
) -> Result<Option<(Text, Moment)>, ReadFault>
    requires { start ≤ length bytes.now }
    ensures { Heads result (head_told (verdict 127 [] (machine.next_key []) start (drop start bytes.now))) }
{
    let mut watch = Watch {
        name: None,
        moment: None,
    };
    let mut at = start;
    'members: loop {
        let (key, text, end) = member(alloc, bytes, at)?;
        watch = keep(watch, key, text);
        let (more, next) = separator(bytes, end)?;
        if !more {
            ended(bytes, next)?;
            return Ok(both(watch.name, watch.moment));
        }
        at = next;
    }
}

// Takes note of the member with this key; `text` is its value if that is a text.
fn keep(watch: Watch, key: Text, text: Option<Text>) -> Watch
    ensures name { result.name ≡ (if bytes_eq (codes "certname") key then nonempty text else watch.name) }
    ensures moment { result.moment ≡ (if bytes_eq (codes "producer_timestamp") key then stamp_in text else watch.moment) }
{
    if "certname" == key.as_str() {
        Watch {
            name: name_of(text),
            moment: watch.moment,
        }
    } else if "producer_timestamp" == key.as_str() {
        Watch {
            name: watch.name,
            moment: moment_of(text),
        }
    } else {
        watch
    }
}

// The text, unless it is empty.
fn name_of(text: Option<Text>) -> Option<Text>
    ensures { result ≡ nonempty text }
{
    match text {
        Some(name) => {
            if name.as_str().is_empty() {
                None
            } else {
                Some(name)
            }
        }
        None => None,
    }
}

fn moment_of(text: Option<Text>) -> Option<Moment>
    ensures { result ≡ stamp_in text }
{
    match text {
        Some(stamp) => read_stamp(stamp.as_str()),
        None => None,
    }
}

fn both(name: Option<Text>, moment: Option<Moment>) -> Option<(Text, Moment)>
    ensures { result ≡ both name moment }
{
    match (name, moment) {
        (Some(name), Some(moment)) => Some((name, moment)),
        _ => None,
    }
}

// A member of the outermost object: its key, its value if that is a text, and the offset after it.
fn member(
    alloc: Global,
    bytes: &[u8],
    start: usize,
) -> Result<(Text, Option<Text>, usize), ReadFault>
    requires { start ≤ length bytes.now }
    ensures value { (ms : List (List ℕ × spec.Json)) → MemberFound bytes.now ms result (verdict 127 [] (machine.next_key ms) start (drop start bytes.now)) }
    ensures bound { IfOk result (λ r. (start < r.2) × (r.2 ≤ length bytes.now)) }
{
    let at = skip(bytes, start);
    if at == bytes.len() {
        return Err(ReadFault::NotJson { at });
    }
    if bytes[at] != b'"' {
        return Err(ReadFault::NotJson { at });
    }
    match string_at(alloc, bytes, at + 1) {
        Ok((key, end)) => with_key(key, member_value(alloc, bytes, end)),
        Err(fault) => Err(fault),
    }
}

fn with_key(
    key: Text,
    found: Result<(Option<Text>, usize), ReadFault>,
) -> Result<(Text, Option<Text>, usize), ReadFault>
    ensures value { (bytes : List ℕ) (ms : List (List ℕ × spec.Json)) (v : machine.Verdict) → TextFound bytes (machine.in_object ms key ∷ []) found v
        → MemberFound bytes ms result v }
    ensures bound { (start limit : ℕ) → IfOk found (λ r. (start < r.1) × (r.1 ≤ limit)) → IfOk result (λ r. (start < r.2) × (r.2 ≤ limit)) }
{
    match found {
        Ok((text, end)) => Ok((key, text, end)),
        Err(fault) => Err(fault),
    }
}

// Reads on after a key of the outermost object.
fn member_value(
    alloc: Global,
    bytes: &[u8],
    start: usize,
) -> Result<(Option<Text>, usize), ReadFault>
    requires { start ≤ length bytes.now }
    ensures value { (ms : List (List ℕ × spec.Json)) (k : List ℕ) → TextFound bytes.now (machine.in_object ms k ∷ []) result
        (verdict 127 [] (machine.colon ms k) start (drop start bytes.now)) }
    ensures bound { IfOk result (λ r. (start < r.1) × (r.1 ≤ length bytes.now)) }
{
    let at = skip(bytes, start);
    if at == bytes.len() {
        return Err(ReadFault::NotJson { at });
    }
    if bytes[at] != b':' {
        return Err(ReadFault::NotJson { at });
    }
    value_text(alloc, bytes, at + 1)
}

// A value at level 1: its text if it is one, and the offset after it.
fn value_text(alloc: Global, bytes: &[u8], start: usize) -> Result<(Option<Text>, usize), ReadFault>
    requires { start ≤ length bytes.now }
    ensures value { (base : List machine.Frame) → length base ≡ 1 → TextFound bytes.now base result
        (verdict 127 base machine.value start (drop start bytes.now)) }
    ensures bound { IfOk result (λ r. (start < r.1) × (r.1 ≤ length bytes.now)) }
{
    let at = skip(bytes, start);
    if at == bytes.len() {
        return Err(ReadFault::NotJson { at });
    }
    if bytes[at] == b'"' {
        return match string_at(alloc, bytes, at + 1) {
            Ok((text, end)) => Ok((Some(text), end)),
            Err(fault) => Err(fault),
        };
    }
    let end = value_end(alloc, bytes, at)?;
    Ok((None, end))
}

// After a member of the outermost object: whether another follows, and the offset after the comma or brace.
fn separator(bytes: &[u8], start: usize) -> Result<(bool, usize), ReadFault>
    requires { start ≤ length bytes.now }
    ensures value { (ms : List (List ℕ × spec.Json)) (k : List ℕ) (j : spec.Json)
        → Separated bytes.now ms k j result (verdict 127 (machine.in_object ms k ∷ []) (machine.owed [] j) start (drop start bytes.now)) }
    ensures bound { IfOk result (λ r. (start < r.1) × (r.1 ≤ length bytes.now)) }
{
    let at = skip(bytes, start);
    if at == bytes.len() {
        return Err(ReadFault::NotJson { at });
    }
    match bytes[at] {
        b',' => Ok((true, at + 1)),
        b'}' => Ok((false, at + 1)),
        _ => Err(ReadFault::NotJson { at }),
    }
}

// Checks that only white space follows the outermost value.
fn ended(bytes: &[u8], start: usize) -> Result<(), ReadFault>
    requires { start ≤ length bytes.now }
    ensures { (j : spec.Json) → Ended j result (verdict 127 [] (machine.owed [] j) start (drop start bytes.now)) }
{
    let at = skip(bytes, start);
    if at == bytes.len() {
        Ok(())
    } else {
        Err(ReadFault::NotJson { at })
    }
}

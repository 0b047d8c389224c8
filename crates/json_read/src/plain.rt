//! Reads the unescaped bytes of a string: ASCII characters from space on except quote and backslash, and characters of several
//! bytes in UTF-8 (RFC 8259 section 7, RFC 3629).
ghost use Rattle.std.specs.Prelude.{◌≡◌, ◌≢◌, ◌<◌, ◌≤◌, ◌+◌, ◌++◌, length, drop, map, slice_range, slice_index, IfOk, List, ℕ, IsTrue, ◌↔◌};
ghost use Rattle.std.specs.Simd.Lanes.{mask_l};
ghost use Rattle.json_machine.specs.Machine as machine;
ghost use Rattle.json_machine.specs.Machine.{text_step, text_verdict, lead};
ghost use Rattle.json_read.specs.Strings.{plain_of, plain_on, plain_found, IsStop, IsPlainAscii, is_other};

use std::simd::prelude::*;

// Between characters, or within one: how many bytes must follow, and which bytes may be next.
#[derive(Clone, Copy)]
pub(crate) enum Plain {
    Inside,
    Tail2,
    Tail1,
    Tail0,
    TailE0,
    TailEd,
    TailF0,
    TailF4,
}

fn lead(byte: u8) -> Option<Plain>
    ensures { (s : List ℕ) → lead byte s ≡ plain_on s byte result }
{
    match byte {
        0xC2..=0xDF => Some(Plain::Tail0),
        0xE0 => Some(Plain::TailE0),
        0xED => Some(Plain::TailEd),
        0xE1..=0xEF => Some(Plain::Tail1),
        0xF0 => Some(Plain::TailF0),
        0xF1..=0xF3 => Some(Plain::Tail2),
        0xF4 => Some(Plain::TailF4),
        _ => None,
    }
}

fn tail(low: u8, high: u8, next: Plain, byte: u8) -> Option<Plain>
    ensures { (s : List ℕ) → machine.tail_on low high (plain_of next) s byte ≡ plain_on s byte result }
{
    if byte >= low && byte <= high {
        Some(next)
    } else {
        None
    }
}

// One step within a character.
fn step(state: Plain, byte: u8) -> Option<Plain>
    requires { state ≢ Plain.Inside }
    ensures { (s : List ℕ) → text_step (plain_of state) s byte ≡ plain_on s byte result }
{
    match state {
        Plain::Inside => unreachable!(),
        Plain::Tail2 => tail(128, 191, Plain::Tail1, byte),
        Plain::Tail1 => tail(128, 191, Plain::Tail0, byte),
        Plain::Tail0 => tail(128, 191, Plain::Inside, byte),
        Plain::TailE0 => tail(160, 191, Plain::Tail0, byte),
        Plain::TailEd => tail(128, 159, Plain::Tail0, byte),
        Plain::TailF0 => tail(144, 191, Plain::Tail1, byte),
        Plain::TailF4 => tail(128, 143, Plain::Tail1, byte),
    }
}

fn is_inside(state: Plain) -> bool
    ensures { IsTrue result ↔ (state ≡ Plain.Inside) }
{
    match state {
        Plain::Inside => true,
        _ => false,
    }
}

#[inline(always)]
fn is_ascii_plain(byte: u8) -> bool
    ensures { IsTrue result ↔ IsPlainAscii byte }
{
    byte >= 32 && byte < 128 && byte != b'"' && byte != b'\\'
}

// One bit for each byte, set unless it is a plain ASCII character.
#[inline(always)]
fn others(v: u8x16) -> u64
    ensures { result ≡ mask_l (map is_other v) }
{
    (v.simd_eq(u8x16::splat(b'"'))
        | v.simd_eq(u8x16::splat(b'\\'))
        | v.simd_lt(u8x16::splat(32))
        | v.simd_ge(u8x16::splat(128))).to_bitmask()
}

// How many of the 16 bytes from `at` on are plain ASCII characters before the first other byte.
#[inline(always)]
fn plain_of_16(bytes: &[u8], at: usize) -> usize
    requires { at + 16 ≤ length bytes.now }
    ensures plain { (k : ℕ) → at ≤ k → k < at + result → IsPlainAscii (slice_index bytes.now k) }
    ensures bound { result ≤ 16 }
    ensures other { result < 16 → ¬ IsPlainAscii (slice_index bytes.now (at + result)) }
{
    let found = others(u8x16::from_slice(&bytes[at..]));
    if found == 0 {
        16
    } else {
        found.trailing_zeros() as usize
    }
}

// The offset after the plain ASCII characters from `start` on.
#[inline(always)]
fn ascii_end(bytes: &[u8], start: usize) -> usize
    requires { start ≤ length bytes.now }
    ensures value { (s : List ℕ) → text_verdict machine.inside s start (drop start bytes.now)
        ≡ text_verdict machine.inside (s ++ slice_range bytes.now start result) result (drop result bytes.now) }
    ensures bounds { (start ≤ result) × (result ≤ length bytes.now) }
    ensures other { result < length bytes.now → ¬ IsPlainAscii (slice_index bytes.now result) }
{
    let mut at = start;
    'chunks: while bytes.len() - at >= 16 {
        let plain = plain_of_16(bytes, at);
        at += plain;
        if plain < 16 {
            return at;
        }
    }
    'ascii: while at < bytes.len() && is_ascii_plain(bytes[at]) {
        at += 1;
    }
    at
}

// The offset after the character of several bytes at `start`, or the offset at which it goes wrong.
#[inline(never)]
fn character_end(bytes: &[u8], start: usize) -> Result<usize, usize>
    requires place { start < length bytes.now }
    requires other { ¬ IsStop (slice_index bytes.now start) }
    requires not_ascii { (32 ≤ slice_index bytes.now start) → (128 ≤ slice_index bytes.now start) }
    ensures value { (s : List ℕ) → text_verdict machine.inside s start (drop start bytes.now) ≡ plain_found bytes.now start s result }
    ensures bound { IfOk result (λ end. (start < end) × (end ≤ length bytes.now)) }
{
    let Some(first) = lead(bytes[start]) else {
        return Err(start);
    };
    let mut state = first;
    let mut at = start + 1;
    'tails: while at < bytes.len() && !is_inside(state) {
        match step(state, bytes[at]) {
            Some(next) => {
                state = next;
                at += 1;
            }
            None => return Err(at),
        }
    }
    if is_inside(state) { Ok(at) } else { Err(at) }
}

/// The offset of the first quote or backslash from `start` on, or the offset at which no string continues.
#[inline(always)]
pub(crate) fn plain_end(bytes: &[u8], start: usize) -> Result<usize, usize>
    requires { start ≤ length bytes.now }
    ensures value { (s : List ℕ) → text_verdict machine.inside s start (drop start bytes.now) ≡ plain_found bytes.now start s result }
    ensures bound { IfOk result (λ end. (start ≤ end) × (end < length bytes.now) × IsStop (slice_index bytes.now end)) }
{
    let mut at = ascii_end(bytes, start);
    'plain: while at < bytes.len() {
        if bytes[at] == b'"' || bytes[at] == b'\\' {
            return Ok(at);
        }
        match character_end(bytes, at) {
            Ok(end) => at = ascii_end(bytes, end),
            Err(at) => return Err(at),
        }
    }
    Err(at)
}

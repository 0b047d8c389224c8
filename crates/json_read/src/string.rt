//! Reads strings: a string without escapes is copied at once, any other is built piece by piece.
ghost use Rattle.std.specs.Prelude.{◌≡◌, ◌<◌, ◌≤◌, ◌++◌, [], length, drop, slice_index, IfOk, OnOk};
ghost use Rattle.std.specs.Char.{encode_utf8};
ghost use Rattle.json_machine.specs.Machine as machine;
ghost use Rattle.json_machine.specs.Machine.{text_verdict};
ghost use Rattle.json_read.specs.Strings.{IsStop, plain_pushed, text_found};

use crate::escape::escape_end;
use crate::fault::ReadFault;
use crate::plain::plain_end;
use json_tree::Text;
use std::alloc::{AllocError, Global};

// Appends a character in UTF-8.
fn push_code(out: &mut Vec<u8>, code: u32) -> Result<(), AllocError>
    requires { code < 1_114_112 }
    ensures { OnOk result (out.new.items ≡ out.old.items ++ encode_utf8 code) }
{
    if code < 128 {
        out.push(code as u8)?;
        Ok(())
    } else if code < 2048 {
        out.extend_from_slice(&[(192 + code / 64) as u8, (128 + code % 64) as u8])
    } else if code < 65_536 {
        out.extend_from_slice(&[
            (224 + code / 4096) as u8,
            (128 + (code / 64) % 64) as u8,
            (128 + code % 64) as u8,
        ])
    } else {
        out.extend_from_slice(&[
            (240 + code / 262_144) as u8,
            (128 + (code / 4096) % 64) as u8,
            (128 + (code / 64) % 64) as u8,
            (128 + code % 64) as u8,
        ])
    }
}

// Appends the plain bytes from `start` on, and gives the offset of the first quote or backslash.
fn push_plain(out: &mut Vec<u8>, bytes: &[u8], start: usize) -> Result<usize, ReadFault>
    requires { start ≤ length bytes.now }
    ensures value { plain_pushed bytes.now out.new.items result (text_verdict machine.inside out.old.items start (drop start bytes.now)) }
    ensures bound { IfOk result (λ end. (start ≤ end) × (end < length bytes.now) × IsStop (slice_index bytes.now end)) }
{
    match plain_end(bytes, start) {
        Ok(end) => {
            out.extend_from_slice(&bytes[start..end])?;
            Ok(end)
        }
        Err(at) => Err(ReadFault::NotJson { at }),
    }
}

// Appends the character of the escape whose backslash is before `start`, and the plain bytes after it.
fn push_escape(out: &mut Vec<u8>, bytes: &[u8], start: usize) -> Result<usize, ReadFault>
    requires { start ≤ length bytes.now }
    ensures value { plain_pushed bytes.now out.new.items result (text_verdict machine.escape out.old.items start (drop start bytes.now)) }
    ensures bound { IfOk result (λ end. (start < end) × (end < length bytes.now) × IsStop (slice_index bytes.now end)) }
{
    match escape_end(bytes, start) {
        Ok((code, end)) => {
            push_code(out, code)?;
            push_plain(out, bytes, end)
        }
        Err(at) => Err(ReadFault::NotJson { at }),
    }
}

// Bytes reserved for a string with an escape; most need no more.
const ROOM: usize = 256;

// `string_at` for a string with an escape, which is built piece by piece.
#[cold]
#[inline(never)]
fn escaped_at(alloc: Global, bytes: &[u8], start: usize) -> Result<(Text, usize), ReadFault>
    requires { start ≤ length bytes.now }
    ensures value { text_found bytes.now result (text_verdict machine.inside [] start (drop start bytes.now)) }
    ensures bound { IfOk result (λ r. (start ≤ r.1) × (r.1 ≤ length bytes.now)) }
{
    let mut out = Vec::with_capacity(alloc, ROOM)?;
    let mut at = push_plain(&mut out, bytes, start)?;
    'escapes: while bytes[at] == b'\\' {
        at = push_escape(&mut out, bytes, at + 1)?;
    }
    let text = Text::from_bytes(alloc, out.as_slice())?;
    Ok((text, at + 1))
}

/// The string whose bytes begin at `start`, after its opening quote, and the offset after its closing quote.
#[inline(always)]
pub(crate) fn string_at(
    alloc: Global,
    bytes: &[u8],
    start: usize,
) -> Result<(Text, usize), ReadFault>
    requires { start ≤ length bytes.now }
    ensures value { text_found bytes.now result (text_verdict machine.inside [] start (drop start bytes.now)) }
    ensures bound { IfOk result (λ r. (start ≤ r.1) × (r.1 ≤ length bytes.now)) }
{
    match plain_end(bytes, start) {
        Ok(end) => {
            if bytes[end] == b'\\' {
                return escaped_at(alloc, bytes, start);
            }
            let text = Text::from_part(alloc, bytes, start, end)?;
            Ok((text, end + 1))
        }
        Err(at) => Err(ReadFault::NotJson { at }),
    }
}

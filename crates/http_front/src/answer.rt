//! Writes answers as bytes.
ghost use Rattle.std.specs.Prelude.{◌≡◌, ◌++◌, decimal, IfOk, OnOk};
ghost use Rattle.fleet_ports.specs.Counts.{Counts};
ghost use Rattle.fleet_ports.specs.Streams.{Writes, IsFailed};
ghost use Rattle.http_spec.specs.Answers.{answer_text, memory_answer, reason_of, status_text, number_text, records_text, seen_text, close_text};

use fleet_ports::{Sink, Wrote, write_all};
use http_spec::Answer;
use http_spec::json_tree::Bytes;
use itoa::Buffer;
use std::alloc::{AllocError, Global};

/// Room for an answer without its body; the longest takes 206 bytes.
const HEAD_ROOM: usize = 256;

/// The bytes of the answer when memory runs out.
const MEMORY_ANSWER: &[u8] = b"HTTP/1.1 500 Internal Server Error\r\n\
Content-Type: application/json\r\nContent-Length: 25\r\nConnection: close\r\n\r\n{\"error\":\"out of memory\"}";

// The reason phrase of a status code (RFC 9110, section 15).
#[tactic(auto, unfolding(http_spec::specs::Answers::reason_of))]
fn reason(code: u16) -> &'static [u8]
    ensures { result.now ≡ reason_of code }
{
    match code {
        200 => b"OK",
        400 => b"Bad Request",
        404 => b"Not Found",
        405 => b"Method Not Allowed",
        411 => b"Length Required",
        413 => b"Content Too Large",
        431 => b"Request Header Fields Too Large",
        500 => b"Internal Server Error",
        503 => b"Service Unavailable",
        _ => b"",
    }
}

// Appends a number in decimal.
fn write_decimal(text: &mut Vec<u8>, number: u64) -> Result<(), AllocError>
    ensures { OnOk result (text.new.items ≡ text.old.items ++ decimal number) }
{
    let mut digits = Buffer::new();
    text.extend_from_slice(digits.format(number).as_bytes())
}

// Appends the status line.
fn write_status(text: &mut Vec<u8>, code: u16) -> Result<(), AllocError>
    ensures { OnOk result (text.new.items ≡ text.old.items ++ status_text code) }
{
    text.extend_from_slice(b"HTTP/1.1 ")?;
    write_decimal(text, u64::from(code))?;
    text.extend_from_slice(b" ")?;
    text.extend_from_slice(reason(code))?;
    text.extend_from_slice(b"\r\n")
}

// Appends a header field whose value is a number.
fn write_number(text: &mut Vec<u8>, name: &[u8], number: u64) -> Result<(), AllocError>
    ensures { OnOk result (text.new.items ≡ text.old.items ++ number_text name.now number) }
{
    text.extend_from_slice(name)?;
    write_decimal(text, number)?;
    text.extend_from_slice(b"\r\n")
}

// Appends the number of rows before paging, if there is one.
fn write_records(text: &mut Vec<u8>, records: Option<u64>) -> Result<(), AllocError>
    ensures { OnOk result (text.new.items ≡ text.old.items ++ records_text records) }
{
    match records {
        Some(number) => write_number(text, b"X-Records: ", number),
        None => Ok(()),
    }
}

// Appends how much was seen, if the answer includes it.
fn write_seen(text: &mut Vec<u8>, seen: Option<u64>) -> Result<(), AllocError>
    ensures { OnOk result (text.new.items ≡ text.old.items ++ seen_text seen) }
{
    match seen {
        Some(number) => write_number(text, b"X-Fleet-Seen: ", number),
        None => Ok(()),
    }
}

// Appends that the connection closes, if it does.
fn write_close(text: &mut Vec<u8>, close: bool) -> Result<(), AllocError>
    ensures { OnOk result (text.new.items ≡ text.old.items ++ close_text close) }
{
    if close {
        text.extend_from_slice(b"Connection: close\r\n")
    } else {
        Ok(())
    }
}

/// The bytes of an answer.
pub fn write_answer(alloc: Global, answer: &Answer) -> Result<Bytes, AllocError>
    ensures { IfOk result (λ bytes. bytes ≡ answer_text answer.now) }
{
    let body = answer.body.as_slice();
    let mut text = Vec::new(alloc);
    text.reserve(HEAD_ROOM + body.len())?;
    write_status(&mut text, answer.code)?;
    text.extend_from_slice(b"Content-Type: application/json\r\n")?;
    write_number(&mut text, b"Content-Length: ", body.len() as u64)?;
    write_records(&mut text, answer.records)?;
    write_seen(&mut text, answer.seen)?;
    write_close(&mut text, answer.close)?;
    text.extend_from_slice(b"\r\n")?;
    text.extend_from_slice(body)?;
    Ok(Bytes::from_vec(text))
}

/// Sends the answer for lack of memory, with code 500. It allocates nothing.
pub fn write_memory_answer<L: Sink + Drop>(link: &mut L) -> Wrote
    ensures bytes { Writes result (answer_text memory_answer) (L.held link.old) (L.held link.new) }
    ensures cause { Counts (L.fault_count link.old) (L.fault_count link.new) (IsFailed result) }
{
    write_all(link, MEMORY_ANSWER)
}

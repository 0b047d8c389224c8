//! What is read of a link, and cases of it.
//!
//! A case is lines that `step` of `test_support::Exchange` reads, for one link: `send` and `more` for what comes in, and `read` and
//! `reads` for what is read of it, where a `/` stands behind each request and each fault. A line `for A B ..` plays the case once for each
//! of these words, which stands for `<it>`. Numbers: `piece`, how many bytes come at once; `fails`, the read that fails; `most`, how
//! often the link is read, which else is three times.
use crate::wrong::{Wrong, holds};
use http_front::{HttpFault, Incoming, NextRequest, Request, next_request};
use std::alloc::{AllocError, Global};
use test_support::{Exchange, Pieces, parted, scenarios_of, turns_of};

/// One byte at once, seven, or all.
pub(crate) const PIECES: &str = "with piece=1\n\nwith piece=7\n\nwith piece=65536";

fn fault_word(fault: HttpFault) -> &'static str {
    match fault {
        HttpFault::BadHead => "bad head",
        HttpFault::BadLength => "bad length",
        HttpFault::HeadTooLarge => "head too large",
        HttpFault::NoLength => "length required",
        HttpFault::BodyTooLarge => "body too large",
    }
}

fn write_request(text: &mut Vec<u8>, request: &Request) -> Result<(), AllocError> {
    text.extend_from_slice(request.method.as_slice())?;
    text.extend_from_slice(b" ")?;
    text.extend_from_slice(request.target.as_slice())?;
    for head in request.headers.as_slice() {
        text.extend_from_slice(b" ")?;
        text.extend_from_slice(head.name.as_slice())?;
        text.extend_from_slice(b"=")?;
        text.extend_from_slice(head.value.as_slice())?;
    }
    text.extend_from_slice(b" [")?;
    text.extend_from_slice(request.body.as_slice())?;
    text.extend_from_slice(if request.ends { b"] ends" } else { b"]" })
}

// All that is read of a link, each answer before a `/`. The link isn't asked again once it is over, but for one call.
fn readings(alloc: Global, link: &mut Pieces, most: usize) -> Result<Vec<u8>, AllocError> {
    let mut incoming = Incoming::new(alloc);
    let mut text = Vec::new(alloc);
    for _ in 0..most {
        match next_request(&mut incoming, link) {
            NextRequest::Request(request) => write_request(&mut text, &request)?,
            NextRequest::Bad(fault) => text.extend_from_slice(fault_word(fault).as_bytes())?,
            NextRequest::Ended => text.extend_from_slice(b"ended")?,
            NextRequest::ReadFault => text.extend_from_slice(b"read fault")?,
            NextRequest::Memory => return Err(AllocError),
        }
        text.extend_from_slice(b"/")?;
    }
    Ok(text)
}

// Whether that is read of the link which is to be.
fn is_read(alloc: Global, exchange: &mut Exchange) -> Result<bool, AllocError> {
    let most = exchange.given.number(" most=", 3) as usize;
    let fails = exchange.given.number(" fails=", 0);
    let mut link = exchange.take_source(alloc);
    let read = readings(alloc, &mut link, most);
    let faults = link.faults();
    drop(link);
    Ok(read?.as_slice() == exchange.wanted.as_slice() && (faults > 0) == (fails > 0))
}

// Whether the case is so.
fn play_lines(alloc: Global, lines: &str) -> Result<bool, AllocError> {
    let mut exchange = Exchange::new(alloc);
    for line in lines.split('\n') {
        let (word, text) = parted(line, " ");
        if !exchange.step(alloc, word, text)? {
            return Ok(false);
        }
    }
    is_read(alloc, &mut exchange)
}

// The same for each word that its line `for` names.
fn play_case(alloc: Global, case: &str) -> Result<bool, AllocError> {
    let turns = turns_of(alloc, case)?;
    for turn in turns.as_slice() {
        if !play_lines(alloc, turn.as_str())? {
            return Ok(false);
        }
    }
    Ok(true)
}

/// Plays the cases, which empty lines part, with each of the heads in front, which are parted so too.
pub(crate) fn play(alloc: Global, heads: &str, cases: &str) -> Result<(), Wrong> {
    let all = scenarios_of(alloc, heads, cases)?;
    for (at, case) in all.as_slice().iter().enumerate() {
        holds(play_case(alloc, case.as_str())?, at)?;
    }
    Ok(())
}

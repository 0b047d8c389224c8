//! Sends answers.
ghost use Rattle.std.specs.Prelude.{◌≡◌, Some, None};
ghost use Rattle.routes_spec.specs.fleet_ports.Counts.{Counts};
ghost use Rattle.http_spec.specs.Answers.{answer_text, fault_code, fault_text};
ghost use Rattle.http_spec.specs.declared.answer.Answer.{Answer};
ghost use Rattle.http_routes.specs.Course.{IsSent, answer_in};

use fleet_ports::{Sink, Wrote, write_all};
use http_front::{write_answer, write_memory_answer};
use http_spec::{Answer, HttpFault};
use std::alloc::{AllocError, Global};

/// The result of sending an answer.
#[derive(Clone, Copy, PartialEq, Eq, Debug)]
pub enum Sent {
    /// The whole answer was sent.
    Whole,
    /// The answer that memory ran out was sent instead.
    Memory,
    /// Writing to the connection failed.
    Failed,
}

/// Sends the answer that memory ran out.
pub fn send_memory<K: Sink + Drop>(outgoing: &mut K) -> Sent
    ensures sent { IsSent result None (K.held outgoing.old) (K.held outgoing.new) }
    ensures cause { Counts (K.fault_count outgoing.old) (K.fault_count outgoing.new) (result ≡ Sent.Failed) }
{
    match write_memory_answer(outgoing) {
        Wrote::All => Sent::Memory,
        Wrote::Failed { .. } => Sent::Failed,
    }
}

// Sends the bytes of an answer.
fn send_bytes<K: Sink + Drop>(outgoing: &mut K, bytes: &[u8]) -> Sent
    ensures sent { (answer : Answer) → answer_text answer ≡ bytes.now → IsSent result (Some answer) (K.held outgoing.old) (K.held outgoing.new) }
    ensures cause { Counts (K.fault_count outgoing.old) (K.fault_count outgoing.new) (result ≡ Sent.Failed) }
{
    match write_all(outgoing, bytes) {
        Wrote::All => Sent::Whole,
        Wrote::Failed { .. } => Sent::Failed,
    }
}

fn send_answer<K: Sink + Drop>(alloc: Global, outgoing: &mut K, answer: &Answer) -> Sent
    ensures sent { IsSent result (Some answer.now) (K.held outgoing.old) (K.held outgoing.new) }
    ensures cause { Counts (K.fault_count outgoing.old) (K.fault_count outgoing.new) (result ≡ Sent.Failed) }
{
    match write_answer(alloc, answer) {
        Ok(bytes) => send_bytes(outgoing, bytes.as_slice()),
        Err(_) => send_memory(outgoing),
    }
}

/// Sends an answer. If the answer or the memory for its bytes is missing, it sends the answer that memory ran out.
pub fn send<K: Sink + Drop>(
    alloc: Global,
    outgoing: &mut K,
    answer: Result<Answer, AllocError>,
) -> Sent
    ensures sent { IsSent result (answer_in answer) (K.held outgoing.old) (K.held outgoing.new) }
    ensures cause { Counts (K.fault_count outgoing.old) (K.fault_count outgoing.new) (result ≡ Sent.Failed) }
{
    match answer {
        Ok(answer) => send_answer(alloc, outgoing, &answer),
        Err(_) => send_memory(outgoing),
    }
}

/// The text for a fault of the request's head.
pub fn fault_text(fault: HttpFault) -> &'static [u8]
    ensures { result.now ≡ fault_text fault }
{
    match fault {
        HttpFault::BadHead => b"bad head",
        HttpFault::BadLength => b"bad length",
        HttpFault::HeadTooLarge => b"head too large",
        HttpFault::NoLength => b"length required",
        HttpFault::BodyTooLarge => b"body too large",
    }
}

/// The status code for a fault of the request's head.
pub fn fault_code(fault: HttpFault) -> u16
    ensures { result ≡ fault_code fault }
{
    match fault {
        HttpFault::BadHead | HttpFault::BadLength => 400,
        HttpFault::HeadTooLarge => 431,
        HttpFault::NoLength => 411,
        HttpFault::BodyTooLarge => 413,
    }
}

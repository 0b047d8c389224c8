//! Makes the answers with an error or a UUID.
ghost use Rattle.std.specs.Prelude.{◌≡◌, ◌≢◌, ◌++◌, IfOk, None, codes};
ghost use Rattle.routes_spec.specs.query_answer.RefusalText.{refusal_text};
ghost use Rattle.routes_spec.specs.Answers.{done, error, submitted_answer, uuid_body};
ghost use Rattle.http_routes.specs.Uuids.{uuid_bytes};

use http_spec::Answer;
use json_tree::Bytes;
use routes_spec::{QueryRefusal, Submitted};
use std::alloc::{AllocError, Global};
use uuid::Uuid;

// The three pieces, concatenated.
fn joined(alloc: Global, first: &[u8], second: &[u8], third: &[u8]) -> Result<Bytes, AllocError>
    ensures { IfOk result (λ bytes. bytes ≡ first.now ++ second.now ++ third.now) }
{
    let mut text = Vec::from_slice(alloc, first)?;
    text.extend_from_slice(second)?;
    text.extend_from_slice(third)?;
    Ok(Bytes::from_vec(text))
}

/// The answer with this status code and this error. `ends` says whether it closes the connection.
pub fn error(alloc: Global, ends: bool, code: u16, text: &[u8]) -> Result<Answer, AllocError>
    ensures { IfOk result (λ answer. answer ≡ error ends code text.now) }
{
    Ok(Answer {
        code,
        records: None,
        seen: None,
        close: ends,
        body: joined(alloc, b"{\"error\":\"", text, b"\"}")?,
    })
}

/// The answer that tells why a query is refused.
pub(crate) fn refused(alloc: Global, ends: bool, why: &QueryRefusal) -> Result<Answer, AllocError>
    ensures { IfOk result (λ answer. answer ≡ error ends 400 (refusal_text why.now)) }
{
    let text = why.text(alloc)?;
    error(alloc, ends, 400, text.as_slice())
}

// The text that names a bad paging parameter.
fn paging_text(alloc: Global, name: &str) -> Result<Bytes, AllocError>
    ensures { IfOk result (λ text. text ≡ codes "bad paging " ++ name.now) }
{
    let mut text = Vec::from_slice(alloc, b"bad paging ")?;
    text.extend_from_slice(name.as_bytes())?;
    Ok(Bytes::from_vec(text))
}

/// The answer that names a bad paging parameter.
pub(crate) fn bad_paging(alloc: Global, ends: bool, name: &str) -> Result<Answer, AllocError>
    ensures { IfOk result (λ answer. answer ≡ error ends 400 (codes "bad paging " ++ name.now)) }
{
    let text = paging_text(alloc, name)?;
    error(alloc, ends, 400, text.as_slice())
}

// The UUID of a receipt: its number in the first and the last 32 bits.
fn uuid_of(receipt: u64) -> Uuid
    ensures { result ≡ uuid_bytes receipt }
{
    let b = receipt.to_be_bytes();
    Uuid::from_bytes([
        b[0], b[1], b[2], b[3], 0, 0, 0x80, 0, 0x80, 0, 0, 0, b[4], b[5], b[6], b[7],
    ])
}

// The answer to a command that was taken under this receipt.
#[tactic(auto, using(crate::proofs::UuidTexts::uuid_body_is))]
fn taken(alloc: Global, ends: bool, receipt: u64) -> Result<Answer, AllocError>
    ensures { IfOk result (λ answer. answer ≡ done ends None (uuid_body receipt)) }
{
    let mut buffer = Uuid::encode_buffer();
    let uuid = uuid_of(receipt);
    let text = uuid.hyphenated().encode_lower(&mut buffer);
    Ok(Answer {
        code: 200,
        records: None,
        seen: None,
        close: ends,
        body: joined(alloc, b"{\"uuid\":\"", text.as_bytes(), b"\"}")?,
    })
}

/// The answer to a posted command, from what `submit` answered. `ends` is that of the request.
pub fn answer_submitted(
    alloc: Global,
    ends: bool,
    submitted: Submitted,
) -> Result<Answer, AllocError>
    ensures told { IfOk result (λ told. told ≡ submitted_answer ends submitted) }
    ensures code { IfOk result (λ told. told.code ≢ 500) }
{
    match submitted {
        Submitted::Receipt(receipt) => taken(alloc, ends, receipt),
        Submitted::Full => error(alloc, ends, 503, b"queue full"),
        Submitted::QueueFault => error(alloc, ends, 503, b"queue fault"),
        Submitted::Spent => error(alloc, ends, 503, b"queue spent"),
        Submitted::Down => error(alloc, ends, 503, b"queue down"),
        Submitted::Memory => Err(AllocError),
    }
}

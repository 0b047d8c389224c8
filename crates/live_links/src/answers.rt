//! Makes the answers that only a live server gives.
ghost use Rattle.std.specs.Prelude.{◌≡◌, ◌≢◌, IfOk, None, codes};
ghost use Rattle.http_routes.specs.routes.Answers.{done};
ghost use Rattle.live_links.specs.Answers.{with_seen, swept_answer};

use core_ends::Swept;
use http_routes::error;
use http_spec::Answer;
use json_tree::Bytes;
use std::alloc::{AllocError, Global};

/// The same answer, which tells a number.
pub(crate) fn with_seen(answer: Answer, seen: u64) -> Answer
    ensures { result ≡ with_seen seen answer }
{
    let Answer {
        code,
        records,
        seen: _,
        close,
        body,
    } = answer;
    Answer {
        code,
        records,
        seen: Some(seen),
        close,
        body,
    }
}

// The answer to a sweep that was done.
fn swept(alloc: Global, ends: bool) -> Result<Answer, AllocError>
    ensures { IfOk result (λ answer. answer ≡ done ends None (codes "{\"swept\":true}")) }
{
    Ok(Answer {
        code: 200,
        records: None,
        seen: None,
        close: ends,
        body: Bytes::from_vec(Vec::from_slice(alloc, b"{\"swept\":true}")?),
    })
}

/// The answer to a sweep, from what `sweep` answered. `ends` is that of the request.
pub(crate) fn answer_swept(alloc: Global, ends: bool, came: Swept) -> Result<Answer, AllocError>
    ensures told { IfOk result (λ told. told ≡ swept_answer ends came) }
    ensures code { IfOk result (λ told. told.code ≢ 500) }
{
    match came {
        Swept::Ok => swept(alloc, ends),
        Swept::StoreFault => error(alloc, ends, 503, b"store fault"),
        Swept::StoreDown => error(alloc, ends, 503, b"store down"),
        Swept::Spent => error(alloc, ends, 503, b"spent"),
        Swept::Down => error(alloc, ends, 503, b"core down"),
        Swept::Memory => Err(AllocError),
    }
}

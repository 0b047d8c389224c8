//! Words and what they ask for. In the cases each word stands behind a slash.
use crate::trials::try_all;
use program_words::json_tree::Text;
use program_words::{Request, query_of, read_words};
use std::alloc::{AllocError, Global};

/// Words, and others that spell the same request.
const SAME: &str = "/show|/show/--
/init|/init/7/14/14
/init/1/2/3/4|/init/1/--/2/3/4
/run/8/2024-05-02T00:00:00Z|/run/--/8/2024-05-02T00:00:00Z
/run/8/2024-05-02T00:00:00Z|/run/8/--/2024-05-02T00:00:00Z
/run/8/2024-05-02T00:00:00Z/--serve/8080/--links/1|/run/--links/1/8/2024-05-02T00:00:00Z/--serve=8080
/run/8/2024-05-02T00:00:00Z/--serve/8080/--links/1|/run/--serve=8080/--links=1/--/8/2024-05-02T00:00:00Z
/run/8/2024-05-02T00:00:00Z/--serve/65535|/run/8/--serve/65535/2024-05-02T00:00:00Z/--links/4294967295
/run/64/2024-05-02T00:00:00Z/--serve/1|/run/--serve/1/--/64/2024-05-02T00:00:00Z
/serve/8080/2024-05-02T00:00:00Z|/serve/--links/4294967295/8080/2024-05-02T00:00:00Z
/serve/8080/2024-05-02T00:00:00Z/--links=2|/serve/8080/--links/2/2024-05-02T00:00:00Z/--
/sweep/expire,reports/2024-05-02T00:00:00Z|/sweep/expire,reports/--/2024-05-02T00:00:00Z
/compact|/compact/--
/discards|/discards/--
/payload/0|/payload/--/0
/payload/18446744073709551615|/payload/18446744073709551615/--
/query/|/query/--/
/query/--/-x|/query/x
/query/--/--|/query/x
/query/--/--serve=1|/query/x
/query/a=b|/query/x
/make/1/0|/make/--/1/0
/make/0/1000000|/make/0/--/1000000";

#[test]
fn options_stand_anywhere(rt: HostRuntime) -> Result<(), AllocError> {
    try_all(&rt, rt.alloc(), "same", SAME)
}

/// Words that spell nothing. The first case has no word, and the second one an empty word.
const USAGE: &str = "
/
/--
/--/show
/--help
/help
/Show
/show/x
/show/--help
/show/--/--
/show/--serve/1
/init/7
/init/7/14
/init/7/14/3651
/init/7/14/14/1/1
/init/--links=1
/run/0/2024-05-02T00:00:00Z
/run/65/2024-05-02T00:00:00Z
/run/01/2024-05-02T00:00:00Z
/run/+1/2024-05-02T00:00:00Z
/run/-1/2024-05-02T00:00:00Z
/run/1
/run/1/now
/run/1/2024-05-02T00:00:00Z/x
/run/1/2024-05-02T00:00:00Z/-x
/run/1/2024-05-02T00:00:00Z/-
/run/1/2024-05-02T00:00:00Z/--links/1
/run/1/2024-05-02T00:00:00Z/--links=1
/run/1/2024-05-02T00:00:00Z/--serve
/run/1/2024-05-02T00:00:00Z/--serve=
/run/1/2024-05-02T00:00:00Z/--serve/0
/run/1/2024-05-02T00:00:00Z/--serve/65536
/run/1/2024-05-02T00:00:00Z/--serve/080
/run/1/2024-05-02T00:00:00Z/--serve/-1
/run/1/2024-05-02T00:00:00Z/--serve/--links=1
/run/1/2024-05-02T00:00:00Z/--serve=1=2
/run/1/2024-05-02T00:00:00Z/--serve=1/--serve=1
/run/1/2024-05-02T00:00:00Z/--serve=1/--links/1/--links/1
/run/1/2024-05-02T00:00:00Z/--serve=1/--links=0
/run/1/2024-05-02T00:00:00Z/--serve=1/--links=4294967296
/run/1/2024-05-02T00:00:00Z/--ser=1
/run/1/2024-05-02T00:00:00Z/--serves=1
/run/1/--/2024-05-02T00:00:00Z/--serve=1
/run/1/2024-05-02T00:00:00Z/--serve/--/1
/--serve=1/run/1/2024-05-02T00:00:00Z
/serve/2024-05-02T00:00:00Z
/serve/0/2024-05-02T00:00:00Z
/serve/1/2024-05-02T00:00:00Z/--serve=1
/serve/1/2024-05-02T00:00:00Z/--links/1/--links/1
/serve/65536/2024-05-02T00:00:00Z
/sweep/purge,expire/2024-05-02T00:00:00Z
/sweep//2024-05-02T00:00:00Z
/compact/2024-05-02T00:00:00Z
/compact/--links=1
/payload/18446744073709551616
/query/-x
/query/-
/make/1/1000001";

#[test]
fn other_words_spell_nothing(rt: HostRuntime) -> Result<(), AllocError> {
    try_all(&rt, rt.alloc(), "usage", USAGE)
}

/// The words of a query, and its text.
const QUERIES: &str = r#"/query/a b|"text a b"
/query/--/-x|"text -x"
/query/x/--|"text x"
/query/--/--|"text --"
/query/-x|"no query"
/query/--serve=1/x|"no query"
/show/x|"no query""#;

#[test]
fn a_text_stands_behind_its_command(rt: HostRuntime) -> Result<(), AllocError> {
    try_all(&rt, rt.alloc(), "query", QUERIES)
}

/// Words, and the number of workers, the port and how many links are served; 0 where none is told.
const NUMBERS: &str = "/run/64/2024-05-02T00:00:00Z|(64, 0, 0)
/run/1/2024-05-02T00:00:00Z/--serve/65535|(1, 65535, 4294967295)
/run/2/--links=3/2024-05-02T00:00:00Z/--serve=4|(2, 4, 3)
/serve/5/2024-05-02T00:00:00Z/--links/6|(0, 5, 6)";

#[test]
fn numbers_are_those_of_the_words(rt: HostRuntime) -> Result<(), AllocError> {
    try_all(&rt, rt.alloc(), "numbers", NUMBERS)
}

// The words, of which each stands behind a slash.
fn listed(alloc: Global, text: &str) -> Result<Vec<Text>, AllocError> {
    let mut words = Vec::new(alloc);
    for (place, word) in text.split('/').enumerate() {
        if place > 0 {
            words.push(Text::from_str(alloc, word)?)?;
        }
    }
    Ok(words)
}

fn asked_by(alloc: Global, words: &[Text]) -> Result<Option<Request>, AllocError> {
    match read_words(alloc, words) {
        Ok(request) => Ok(request),
        Err(_) => Err(AllocError),
    }
}

/// What the words ask for.
pub(crate) fn told_request(alloc: Global, words: &str) -> Result<Option<Request>, AllocError> {
    let words = listed(alloc, words)?;
    let request = asked_by(alloc, words.as_slice());
    drop(words);
    request
}

/// Whether both spell a request, and the same.
pub(crate) fn spell_the_same(alloc: Global, words: &str, others: &str) -> Result<bool, AllocError> {
    let request = told_request(alloc, words)?;
    Ok(request.is_some() && request == told_request(alloc, others)?)
}

// The text that they ask, or that they ask none.
fn text_of(alloc: Global, words: &[Text]) -> Result<String, AllocError> {
    match query_of(alloc, words) {
        Ok(Some(text)) => format!(in alloc; "text {text}"),
        Ok(None) => String::from_str(alloc, "no query"),
        Err(_) => Err(AllocError),
    }
}

/// The text of the query that the words ask.
pub(crate) fn query_text(alloc: Global, words: &str) -> Result<String, AllocError> {
    let words = listed(alloc, words)?;
    let text = text_of(alloc, words.as_slice());
    drop(words);
    text
}

// The number of workers, the port and how many links are served; 0 where none is told.
fn numbers_in(request: Request) -> (u32, u16, u32) {
    match request {
        Request::Run {
            workers,
            serving: Some(serving),
            ..
        } => (workers, serving.port, serving.links),
        Request::Run { workers, .. } => (workers, 0, 0),
        Request::Serve { serving, .. } => (0, serving.port, serving.links),
        _ => (0, 0, 0),
    }
}

/// The numbers in the words.
pub(crate) fn told_numbers(alloc: Global, words: &str) -> Result<(u32, u16, u32), AllocError> {
    match told_request(alloc, words)? {
        Some(request) => Ok(numbers_in(request)),
        None => Ok((0, 0, 0)),
    }
}

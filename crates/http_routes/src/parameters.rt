//! Reads the parameters of a URL.
ghost use Rattle.std.specs.Prelude.{◌≡◌, IfOk, option_copied};
ghost use Rattle.paging_params.specs.Params.{last_under};
ghost use Rattle.routes_spec.specs.Parameters.{decoded, parameters_of};
ghost use Rattle.routes_spec.specs.Routes.{query_of};

use crate::paths::query_of;
use form_urlencoded::{decode, raw_pairs};
use http_spec::Request;
use json_tree::Text;
use std::alloc::{AllocError, Global};

// Decodes a name or a value.
fn decoded(alloc: Global, bytes: &[u8]) -> Result<Text, AllocError>
    ensures { IfOk result (λ text. text ≡ decoded bytes.now) }
{
    let text = decode(alloc, bytes)?;
    Text::from_str(alloc, text.as_str())
}

// The names and values of a URL's query, in order.
fn parameters(alloc: Global, query: &[u8]) -> Result<Vec<(Text, Text)>, AllocError>
    ensures { IfOk result (λ list. list.items ≡ parameters_of query.now) }
{
    let mut list = Vec::new(alloc);
    for (name, value) in raw_pairs(query) {
        list.push((decoded(alloc, name)?, decoded(alloc, value)?))?;
    }
    Ok(list)
}

/// The names and values in the URL of a request.
pub fn parameters_in(alloc: Global, request: &Request) -> Result<Vec<(Text, Text)>, AllocError>
    ensures { IfOk result (λ list. list.items ≡ parameters_of (query_of request.now.target)) }
{
    let query = query_of(request.target.as_slice());
    let list = parameters(alloc, query)?;
    Ok(list)
}

/// The last value with this name.
pub fn last_under<'a>(list: &'a [(Text, Text)], name: &str) -> Option<&'a Text>
    ensures { option_copied result ≡ last_under name.now list.now }
{
    let mut found = None;
    for pair in list {
        if pair.0.as_str() == name {
            found = Some(&pair.1);
        }
    }
    found
}

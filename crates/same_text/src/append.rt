//! Appends the text that is equal for values that are the same.
ghost use Rattle.std.specs.Prelude.{◌≡◌, ◌++◌, OnOk, true};
ghost use Rattle.json_tree.specs.text_spec.Json as spec;
ghost use Rattle.json_tree.specs.text_spec.Order.{same};
ghost use Rattle.json_tree.specs.Tree.{json_of};
ghost use Rattle.same_text.specs.Alike.{same_text};

use crate::alike::alike;
use json_tree::{Json, append_canonical, append_quoted};
use std::alloc::{AllocError, Global};

/// Appends the text of a value. It takes O(n log n) steps for a value of n bytes.
#[tactic(auto, using(crate::proofs::AlikeLaws::one_text))]
pub fn append_same(alloc: Global, out: &mut Vec<u8>, json: &Json) -> Result<(), AllocError>
    ensures text { OnOk result (out.new.items ≡ out.old.items ++ same_text (json_of json.now)) }

    // Values that are the same have the same text.
    ensures same { (other : spec.Json) → same (json_of json.now) other ≡ true → same_text (json_of json.now) ≡ same_text other }
{
    match json {
        Json::Text(text) => append_quoted(out, text.as_str()),
        _ => append_alike(alloc, out, json),
    }
}

fn append_alike(alloc: Global, out: &mut Vec<u8>, json: &Json) -> Result<(), AllocError>
    ensures { OnOk result (out.new.items ≡ out.old.items ++ same_text (json_of json.now)) }
{
    let made = alike(alloc, json)?;
    append_canonical(alloc, out, &made)
}

//! Reads the tags of a resource.
ghost use Rattle.std.specs.Prelude.{◌≡◌, IfOk, IfSome};
ghost use Rattle.wire_fields.specs.text_spec.Json.{array, items_of};
ghost use Rattle.wire_fields.specs.text_spec.Compact.{text_cmp};
ghost use Rattle.wire_fields.specs.fleet_rows.Texts.{sorted_texts};
ghost use Rattle.wire_fields.specs.wire_spec.Table.{each_from};
ghost use Rattle.wire_fields.specs.Answers.{Gives, GivesBy};
ghost use Rattle.wire_fields.specs.wire_spec.Counted.{IsCounted};
ghost use Rattle.wire_catalog.specs.InOrder.{tag, tags_of};
ghost use Rattle.wire_catalog.specs.Ends.{ends_with};

use std::alloc::{AllocError, Global};
use std::cmp::Ordering;
use wire_fields::fleet_rows::{Field, Names};
use wire_fields::json_tree::{Items, Text};
use wire_fields::{WireFault, inner, text};

/// The tags of the resource at this index, distinct and sorted by their bytes, or the first refusal.
pub(crate) fn tags(alloc: Global, index: u32, list: Option<Items>) -> Result<Names, WireFault>
    requires { IfSome list (λ js. IsCounted (array (items_of js))) }
    ensures { Gives result (tags_of index list) }
{
    match list {
        None => Ok(Names::new(alloc)),
        Some(items) => {
            let texts = each_tag(alloc, index, items)?;
            Ok(sorted(alloc, texts)?)
        }
    }
}

fn each_tag(alloc: Global, index: u32, items: Items) -> Result<Vec<Text>, WireFault>
    requires { IsCounted (array (items_of items)) }
    ensures { GivesBy (λ v. v.items) result (each_from 0 (tag index) items) }
{
    let list = items.into_vec();
    let mut done = Vec::with_capacity(alloc, list.len())?;
    let mut at = 0;
    for item in list {
        done.push(text(inner(index, at, Field::Tags), item)?)?;
        at += 1;
    }
    Ok(done)
}

// Each text once, sorted by its bytes. The texts are sorted in place, and moved.
fn sorted(alloc: Global, texts: Vec<Text>) -> Result<Names, AllocError>
    ensures { IfOk result (λ names. names ≡ sorted_texts texts.items) }
{
    let mut texts = texts;
    // The least text is last, so that it is taken first.
    texts.sort_unstable_by(|a, b| falling(a, b));
    let mut names = Names::with_capacity(alloc, texts.len())?;
    'taking: while let Some(text) = texts.pop() {
        if !ends_with(texts.as_slice(), text.as_str()) {
            names.push(text)?;
        }
    }
    Ok(names)
}

fn falling(a: &Text, b: &Text) -> Ordering
    ensures { result ≡ text_cmp b.now a.now }
{
    b.as_str().cmp(a.as_str())
}

// Whether the last of the texts equals `text`.
fn ends_with(texts: &[Text], text: &str) -> bool
    ensures { result ≡ ends_with texts.now text.now }
{
    match texts {
        [] => false,
        [.., last] => last.as_str() == text,
    }
}

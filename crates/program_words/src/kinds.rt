//! Reads the kinds of a sweep.
ghost use Rattle.std.specs.Prelude.{◌≡◌, ◌≢◌, [], Some, IfSome};
ghost use Rattle.spool_spec.specs.Spool.{joined, kind_words};
ghost use Rattle.program_words.specs.Reading.{kinds_at};

use spool_spec::fleet_rows::Kinds;

/// The kinds that the argument names, or None if it names none: some of `expire`, `purge` and `reports` in this order, joined by
/// commas.
#[tactic(auto, unfolding(crate::specs::Reading::kinds_at))]
pub(crate) fn kinds_of(word: &str) -> Option<Kinds>
    ensures value { result ≡ kinds_at word.now }
    ensures some { IfSome result (λ k. (word.now ≡ joined (kind_words k)) × (kind_words k ≢ [])) }
{
    if word == "expire" {
        some_kinds(true, false, false)
    } else if word == "purge" {
        some_kinds(false, true, false)
    } else if word == "reports" {
        some_kinds(false, false, true)
    } else if word == "expire,purge" {
        some_kinds(true, true, false)
    } else if word == "expire,reports" {
        some_kinds(true, false, true)
    } else if word == "purge,reports" {
        some_kinds(false, true, true)
    } else if word == "expire,purge,reports" {
        some_kinds(true, true, true)
    } else {
        None
    }
}

fn some_kinds(expire: bool, purge: bool, reports: bool) -> Option<Kinds>
    ensures { result ≡ Some (record { expire = expire; purge = purge; reports = reports }) }
{
    Some(Kinds {
        expire,
        purge,
        reports,
    })
}

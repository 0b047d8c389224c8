//! Writes the fields that have a value as members.
ghost use Rattle.std.specs.Prelude.{◌≡◌, ◌++◌, ◌∷◌, ◌||◌, [], OnOk, IfOk, is_some, map, false};
ghost use Rattle.std.specs.List.{AllByRecursion};
ghost use Rattle.dump_laws.specs.dump_spec.text_spec.Compact.{compact, comma_if, quoted};
ghost use Rattle.dump_laws.specs.dump_spec.Payloads.{there, dictionary};
ghost use Rattle.dump_writer.specs.Shown.{CanBeShown, field, field_text, pairs_text, shown_value};

use crate::shown::{Shown, is_there, put_comma, put_shown};
use fleet_rows::json_tree::append_quoted;
use std::alloc::AllocError;

/// Appends the object of the fields that have a value.
pub(crate) fn put_dictionary(out: &mut Vec<u8>, fields: &[(&str, Shown)]) -> Result<(), AllocError>
    requires { AllByRecursion (λ c. CanBeShown c.1) fields.now }
    ensures { OnOk result (out.new.items ≡ out.old.items ++ compact (dictionary (map field fields.now))) }
{
    out.push(b'{')?;
    put_fields(out, fields)?;
    out.push(b'}')?;
    Ok(())
}

/// Appends the fields that have a value as members.
#[tactic(auto, using(crate::proofs::Texts::one_more))]
pub(crate) fn put_fields(out: &mut Vec<u8>, fields: &[(&str, Shown)]) -> Result<(), AllocError>
    requires { AllByRecursion (λ c. CanBeShown c.1) fields.now }
    ensures { OnOk result (out.new.items ≡ out.old.items ++ pairs_text false (there (map field fields.now))) }
{
    let mut later = false;
    for shown in fields {
        later = put_field(out, later, shown.0, &shown.1)?;
    }
    Ok(())
}

// Appends a field if it has a value, after a comma if `later` is true. Answers whether a member precedes what follows.
fn put_field(out: &mut Vec<u8>, later: bool, name: &str, shown: &Shown) -> Result<bool, AllocError>
    requires { CanBeShown shown.now }
    ensures text { OnOk result (out.new.items ≡ out.old.items ++ field_text later name.now (shown_value shown.now)) }
    ensures later { IfOk result (λ after. after ≡ (later || is_some (shown_value shown.now))) }
{
    if is_there(shown) {
        put_name(out, later, name)?;
        put_shown(out, shown)?;
        Ok(true)
    } else {
        Ok(later)
    }
}

/// Appends a member's name and the colon, after a comma if `later` is true.
pub(crate) fn put_name(out: &mut Vec<u8>, later: bool, name: &str) -> Result<(), AllocError>
    ensures { OnOk result (out.new.items ≡ out.old.items ++ comma_if later ++ quoted name.now ++ 58 ∷ []) }
{
    put_comma(out, later)?;
    append_quoted(out, name)?;
    out.push(b':')?;
    Ok(())
}

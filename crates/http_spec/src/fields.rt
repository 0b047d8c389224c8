//! Finds the fields of a head by name (RFC 9110, section 5.1).
ghost use Rattle.std.specs.Prelude.{◌≡◌, option_copied};
ghost use Rattle.http_spec.specs.Framing.{is_named, values_of, first_of};

use crate::request::{Head, Request};

impl Head {
    /// Whether the field has this name. ASCII case is ignored.
    pub fn is_named(&self, name: &[u8]) -> bool
        ensures { result ≡ is_named name.now self.now }
    {
        self.name.as_slice().eq_ignore_ascii_case(name)
    }
}

/// The value of the first field with this name; None exactly if no field has it.
pub fn first_value<'a>(heads: &'a [Head], name: &[u8]) -> Option<&'a [u8]>
    ensures { option_copied result ≡ first_of (values_of name.now heads.now) }
{
    for head in heads {
        if head.is_named(name) {
            return Some(head.value.as_slice());
        }
    }
    None
}

impl Request {
    /// The value of the first field with this name, ignoring ASCII case; None exactly if no field has it.
    pub fn header(&self, name: &str) -> Option<&[u8]>
        ensures { option_copied result ≡ first_of (values_of name.now self.now.headers) }
    {
        first_value(self.headers.as_slice(), name.as_bytes())
    }
}

//! Names what is sought among rows, and neighbouring rows.
ghost use Rattle.std.specs.Prelude.{◌≡◌, ◌+◌, ◌<◌, ◌^◌};

use fleet_rows::json_tree::Text;

/// The texts that sought rows show. None asks for nothing.
#[derive(Clone, Copy)]
pub struct Wanted<'t> {
    pub certname: Option<&'t str>,
    /// Asked of facts only.
    pub name: Option<&'t Text>,
    /// Asked of resources only.
    pub resource: Option<WantedResource<'t>>,
}

/// The type of sought resources, and their title if one is asked for.
#[derive(Clone, Copy)]
pub struct WantedResource<'t> {
    pub rtype: &'t Text,
    pub title: Option<&'t Text>,
}

/// Neighbouring rows of an entity: the place of the first, and their number.
#[derive(Clone, Copy, PartialEq, Eq, Debug)]
pub struct Span {
    pub from: usize,
    pub count: usize,
}

impl Span {
    /// No rows.
    pub fn empty() -> Span
        ensures from { result.from ≡ 0 }
        ensures count { result.count ≡ 0 }
    {
        Span { from: 0, count: 0 }
    }

    /// The same rows, with this many rows before those that the span counts.
    pub fn behind(self, before: usize) -> Span
        requires { before + self.from < 2 ^ 64 }
        ensures from { result.from ≡ before + self.from }
        ensures count { result.count ≡ self.count }
    {
        Span {
            from: before + self.from,
            count: self.count,
        }
    }
}

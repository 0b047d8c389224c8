//! Matches a list by its number of elements.
ghost use Rattle.std.specs.Prelude.{◌≡◌, ◌≤◌};
ghost use Rattle.json_tree.specs.text_spec.Json.{items_of, items_levels};
ghost use Rattle.json_tree.specs.Tree.{jsons};
ghost use Rattle.ast_parts.specs.Elements.{AreElements, NestWithin};

use json_tree::Json;

/// The elements of a list of at most three, or the first four of a longer one.
#[derive(Clone, Copy)]
pub enum Elements<'a> {
    None,
    One(&'a Json),
    Two(&'a Json, &'a Json),
    Three(&'a Json, &'a Json, &'a Json),
    More(&'a Json, &'a Json, &'a Json, &'a Json, &'a [Json]),
}

pub fn elements_of(list: &[Json]) -> Elements<'_>
    ensures items { AreElements result (items_of (jsons list.now)) }
    ensures levels { NestWithin result (items_levels (items_of (jsons list.now))) }
{
    match list {
        [] => Elements::None,
        [a] => Elements::One(a),
        [a, b] => Elements::Two(a, b),
        [a, b, c] => Elements::Three(a, b, c),
        [a, b, c, d, others @ ..] => Elements::More(a, b, c, d, others),
    }
}

//! The tree of a JSON value: a value, the items of an array, the members of an object.
//!
//! Contracts see `Items` and `Members` as lists of values. Both keep the invariant that each value in them has at most 126
//! levels, so a `Json` has at most 127, whoever made it. `Members` also keep their keys distinct. So no function on a tree needs
//! a bound, and recursion ends within 127 calls.
ghost use Rattle.std.specs.Prelude.{◌≡◌, ◌∷◌, [], ◌++◌, ◌<◌, ◌≤◌, OnOk, OnErr, IfSome, All, map, length, option_map, slice_get, Some, None};
ghost use Rattle.json_tree.specs.Tree.{json_of, jsons, pairs};
ghost use Rattle.json_tree.specs.Places.{index_of};
ghost use Rattle.text_spec.specs.Json.{levels, items_of, members_of, items_levels, members_levels, find_member, set_member, without_member, HasDistinctKeys};

use crate::number::Number;
use crate::places::{set_in, take_from};
use crate::text::Text;
use std::alloc::{AllocError, Global};
use std::marker::Model;

/// A JSON value, of at most 127 levels.
#[cycle(tree)]
#[derive(Drop)]
pub enum Json {
    Null,
    Bool(bool),
    Num(Number),
    Text(Text),
    List(Items),
    Map(Members),
}

/// The items of an array. Each has at most 126 levels.
#[cycle(tree)]
#[derive(Drop)]
pub struct Items {
    pub(crate) list: Vec<Json>,
}

/// The ordered members of an object, with distinct keys and values of at most 126 levels.
#[cycle(tree)]
#[derive(Drop)]
pub struct Members {
    pub(crate) list: Vec<(Text, Json)>,
}

impl Model for Items {
    ghost use Rattle.std.specs.Prelude.{List, map};
    ghost use Rattle.text_spec.specs.Json.{Json};

    ghost Value = { List Json };

    ghost use Rattle.std.specs.Coded.{coded_list};
    ghost use Rattle.text_spec.specs.JsonCode.{coded_json};

    ghost coded = { coded_list coded_json };

    ghost use Rattle.json_tree.specs.Tree.{jsons};
    ghost use Rattle.text_spec.specs.Json.{items_of, items_levels};
    ghost use Rattle.std.specs.Prelude.{◌≤◌};

    ghost view = { λ a. jsons a.list.items };

    ghost invariant = { λ a. items_levels (items_of (jsons a.list.items)) ≤ 126 };

    ghost size = { λ js. items_levels (items_of js) };

    ghost use Rattle.json_tree.specs.TreeFalls.{items_fall};
    ghost use Rattle.std.proofs.Common.{arith};

    ghost size_decreases = { λ a h. Prim.omega (arith, items_fall a.list.items) };
}

impl Model for Members {
    ghost use Rattle.std.specs.Prelude.{List, ℕ};
    ghost use Rattle.text_spec.specs.Json.{Json};

    ghost Value = { List (List ℕ × Json) };

    ghost use Rattle.std.specs.Coded.{coded_list, coded×, coded_ℕ};
    ghost use Rattle.text_spec.specs.JsonCode.{coded_json};

    ghost coded = { coded_list (coded× (coded_list coded_ℕ) coded_json) };

    ghost use Rattle.json_tree.specs.Tree.{pairs};
    ghost use Rattle.text_spec.specs.Json.{members_of, members_levels, HasDistinctKeys};
    ghost use Rattle.std.specs.Prelude.{◌≤◌};

    ghost view = { λ a. pairs a.list.items };

    ghost invariant = { λ a. (members_levels (members_of (pairs a.list.items)) ≤ 126) × HasDistinctKeys (pairs a.list.items) };

    ghost size = { λ ms. members_levels (members_of ms) };

    ghost use Rattle.json_tree.specs.TreeFalls.{members_fall};
    ghost use Rattle.std.proofs.Common.{arith};

    ghost size_decreases = { λ a h. Prim.omega (arith, members_fall a.list.items) };
}

impl Items {
    /// No items. It allocates nothing.
    pub fn new(alloc: Global) -> Items
        ensures { result ≡ [] }
    {
        Items {
            list: Vec::new(alloc),
        }
    }

    /// Appends an item. If memory runs out, the item is dropped and the list is unchanged.
    #[inline]
    #[tactic(auto, using(crate::proofs::LevelLaws::items_levels_push))]
    pub fn push(&mut self, item: Json) -> Result<(), AllocError>
        requires { levels (json_of item) ≤ 126 }
        ensures ok { OnOk result (self.new ≡ self.old ++ json_of item ∷ []) }
        ensures err { OnErr result (self.new ≡ self.old) }
    {
        self.list.push(item)?;
        Ok(())
    }

    /// The items in their order.
    #[tactic(auto, using(crate::proofs::LevelLaws::items_shallow))]
    pub fn as_slice(&self) -> &[Json]
        ensures items { map json_of result.now ≡ self.now }
        ensures shallow { All (λ j. levels (json_of j) ≤ 126) result.now }

        // This bounds recursion over the tree.
        ensures within { All (λ j. levels (json_of j) ≤ items_levels (items_of self.now)) result.now }
    {
        self.list.as_slice()
    }
}

impl Members {
    /// No members. It allocates nothing.
    pub fn new(alloc: Global) -> Members
        ensures { result ≡ [] }
    {
        Members {
            list: Vec::new(alloc),
        }
    }

    /// The members of these pairs, which are moved, not copied. `settle` makes the keys distinct.
    #[inline]
    pub fn from_pairs(list: Vec<(Text, Json)>) -> Members
        requires shallow { members_levels (members_of (pairs list.items)) ≤ 126 }
        requires distinct { HasDistinctKeys (pairs list.items) }
        ensures { result ≡ pairs list.items }
    {
        Members { list }
    }

    /// The number of members.
    pub fn len(&self) -> usize
        ensures { result ≡ length self.now }
    {
        self.list.len()
    }

    /// The key and the value of the member at an index.
    pub fn pair(&self, at: usize) -> (&Text, &Json)
        requires { at < length self.now }
        ensures pair { slice_get self.now at ≡ Some (result.0.now, json_of result.1.now) }
        ensures shallow { levels (json_of result.1.now) ≤ 126 }
        ensures within { levels (json_of result.1.now) ≤ members_levels (members_of self.now) }
    {
        let member = &self.list[at];
        (&member.0, &member.1)
    }

    /// Sets the value of a key: in the position of an equal key, which keeps its bytes, or at the end. If memory runs out, the
    /// pair is dropped and the members are unchanged. It compares the key with all members, so building an object of n members
    /// takes n * n / 2 comparisons. A reader collects a list of pairs instead, and calls `settle` and `from_pairs`.
    pub fn set(&mut self, key: Text, value: Json) -> Result<(), AllocError>
        requires { levels (json_of value) ≤ 126 }
        ensures ok { OnOk result (self.new ≡ set_member key (json_of value) self.old) }
        ensures err { OnErr result (self.new ≡ self.old) }
    {
        set_in(&mut self.list, key, value)
    }

    /// Removes the member with this name and returns its value. The others keep their order.
    pub fn take(&mut self, name: &str) -> Option<Json>
        ensures value { option_map json_of result ≡ find_member name.now self.old }
        ensures others { self.new ≡ without_member name.now self.old }
        ensures shallow { IfSome result (λ j. levels (json_of j) ≤ 126) }
    {
        take_from(&mut self.list, name)
    }
}

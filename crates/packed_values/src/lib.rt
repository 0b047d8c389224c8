//! Keeps a list of JSON values as its compact text, and makes the list again when it is asked for.
//!
//! A tree of values takes some three times as many bytes as its text. So what is kept long and read seldom is packed:
//! [`PackedItems::pack`] writes the text, of exactly its length, and [`PackedItems::unpack`] reads it. Contracts see the list
//! itself, so a struct that holds one keeps its meaning. That the text is read again is proved: `unpack` fails for want of memory
//! alone.
//!
//! Costs: `pack` and `unpack` make one pass over the text. Equal keys can't stand in a packed text, so nothing is compared.
#![tactic(auto)]

ghost use Rattle.std.specs.Prelude.{◌≡◌, ◌≤◌, ◌++◌, IfOk, OnOk, length};
ghost use Rattle.json_read.specs.text_spec.Json.{array, items_of, levels};
ghost use Rattle.json_read.specs.text_spec.Compact.{compact};
ghost use Rattle.json_read.specs.json_machine.Values.{IsValue};
ghost use Rattle.json_read.specs.json_tree.Tree.{json_of, jsons};
ghost use Rattle.packed_values.specs.Packed.{IsArray, IsPacked, list_in};

use json_read::json_tree::{Items, Json, append_compact};
use json_read::{ReadFault, read};
use std::alloc::{AllocError, Global};
use std::marker::Model;

/// A list of values, in as many bytes as its compact text has. Contracts see the list.
#[derive(Drop)]
pub struct PackedItems {
    text: Vec<u8>,
}

impl Model for PackedItems {
    ghost use Rattle.std.specs.Prelude.{List};
    ghost use Rattle.json_read.specs.text_spec.Json.{Json};

    ghost Value = { List Json };

    ghost use Rattle.std.specs.Coded.{coded_list};
    ghost use Rattle.json_read.specs.text_spec.JsonCode.{coded_json};

    ghost coded = { coded_list coded_json };

    ghost use Rattle.packed_values.specs.Packed.{list_in, IsPacked};

    ghost view = { λ a. list_in a.text.items };

    ghost invariant = { λ a. IsPacked a.text.items };
}

// The compact text of a list, held.
fn holding(text: Vec<u8>) -> PackedItems
    requires { IsPacked text.items }
    ensures { result ≡ list_in text.items }
{
    PackedItems { text }
}

// Appends the compact text of the array of these items.
fn append_items(out: &mut Vec<u8>, items: &[Json]) -> Result<(), AllocError>
    ensures { OnOk result (out.new.items ≡ out.old.items ++ compact (array (items_of (jsons items.now)))) }
{
    out.push(b'[')?;
    let mut later = false;
    'writing: for item in items {
        if later {
            out.push(b',')?;
        }
        append_compact(out, item)?;
        later = true;
    }
    out.push(b']')?;
    Ok(())
}

// The items of a value that is known to be an array.
fn items_of(json: Json) -> Items
    requires { IsArray (json_of json) }
    ensures { array (items_of result) ≡ json_of json }
{
    match json {
        Json::List(items) => items,
        _ => unreachable!(),
    }
}

impl PackedItems {
    /// The list, packed.
    pub fn pack(alloc: Global, items: &Items) -> Result<PackedItems, AllocError>
        requires value { IsValue (array (items_of items.now)) }
        requires levels { levels (array (items_of items.now)) ≤ 127 }
        ensures { IfOk result (λ packed. packed ≡ items.now) }
    {
        let mut text = Vec::new(alloc);
        append_items(&mut text, items.as_slice())?;
        text.shrink_to_fit();
        Ok(holding(text))
    }

    /// The list again. Only memory can lack.
    pub fn unpack(&self, alloc: Global) -> Result<Items, AllocError>
        ensures { IfOk result (λ items. items ≡ self.now) }
    {
        match read(alloc, self.text.as_slice()) {
            Ok(json) => Ok(items_of(json)),
            Err(ReadFault::Memory) => Err(AllocError),
            Err(ReadFault::NotJson { .. }) => unreachable!(),
            Err(ReadFault::TooDeep { .. }) => unreachable!(),
        }
    }

    /// The list's compact text.
    pub fn text(&self) -> &[u8]
        ensures { result.now ≡ compact (array (items_of self.now)) }
    {
        self.text.as_slice()
    }

    /// How many bytes the list takes.
    pub fn size(&self) -> usize
        ensures { result ≡ length (compact (array (items_of self.now))) }
    {
        self.text.len()
    }
}

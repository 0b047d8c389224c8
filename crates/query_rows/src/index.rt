//! Indexes rows by a text for each row.
//!
//! A row of an outer level is looked up among the rows of an inner level. Comparing it with each of them would cost the product
//! of their numbers. So the indices of inner rows are stored under a text, which is equal for rows that are the same. A row is
//! compared only with those under its own text. `marks` gives each text a number. An index is appended after all earlier ones, so
//! the indices under a text increase, and the first matching row is found first.
ghost use Rattle.std.specs.Prelude.{◌≡◌, ◌++◌, ◌∷◌, ◌==◌, ◌<◌, ◌+◌, [], ℕ, List, length, OnOk, if◌then◌else◌};
ghost use Rattle.query_rows.specs.Indexed.{places_at, places_under, holds_place, IsRising};

use crate::marks::{known_number, number_of};
use indexmap::IndexSet;
use pattern_port::Keys;
use std::alloc::{AllocError, Global};

/// The indices under one number, in order.
#[derive(Drop)]
pub struct PlaceList {
    pub(crate) places: Vec<usize>,
}

/// The number of each text, and the indices under each number.
#[derive(Drop)]
pub struct Index {
    pub(crate) numbers: IndexSet<Vec<u8>, Keys>,
    pub(crate) lists: Vec<PlaceList>,
}

// Makes room for the number.
fn grow_lists(alloc: Global, lists: &mut Vec<PlaceList>, number: usize) -> Result<(), AllocError>
    ensures room { OnOk result (number < length lists.new.items) }
    ensures same { OnOk result ((q : ℕ) → places_at lists.new.items q ≡ places_at lists.old.items q) }
{
    'growing: while lists.len() <= number {
        lists.push(PlaceList {
            places: Vec::new(alloc),
        })?;
    }
    Ok(())
}

fn put_there(lists: &mut Vec<PlaceList>, number: usize, place: usize) -> Result<(), AllocError>
    requires { number < length lists.old.items }
    ensures { OnOk result ((q : ℕ) → places_at lists.new.items q ≡ places_at lists.old.items q ++ (if number == q then place ∷ [] else [])) }
{
    lists[number].places.push(place)?;
    Ok(())
}

// Appends an index under the number.
fn put_place(
    alloc: Global,
    lists: &mut Vec<PlaceList>,
    number: usize,
    place: usize,
) -> Result<(), AllocError>
    ensures { OnOk result ((q : ℕ) → places_at lists.new.items q ≡ places_at lists.old.items q ++ (if number == q then place ∷ [] else [])) }
{
    grow_lists(alloc, lists, number)?;
    put_there(lists, number, place)
}

impl Index {
    /// An empty index, which hashes its texts under these keys. It allocates no memory.
    pub(crate) fn new(alloc: Global, keys: Keys) -> Index
        ensures { IsRising result 0 }
    {
        Index {
            numbers: IndexSet::with_hasher(alloc, keys),
            lists: Vec::new(alloc),
        }
    }
}

/// Stores the index under the text.
pub(crate) fn note(
    alloc: Global,
    index: &mut Index,
    text: Vec<u8>,
    place: usize,
) -> Result<(), AllocError>
    ensures there { OnOk result (holds_place index.new text.items place) }
    ensures kept { OnOk result ((t : List ℕ) (p : ℕ) → holds_place index.old t p → holds_place index.new t p) }
    ensures rising { OnOk result (IsRising index.old place → IsRising index.new (place + 1)) }
{
    let number = number_of(&mut index.numbers, text)?;
    put_place(alloc, &mut index.lists, number, place)
}

/// The indices under the text.
pub(crate) fn places_under<'i>(index: &'i Index, text: &[u8]) -> &'i [usize]
    ensures { result.now ≡ places_under index.now text.now }
{
    match known_number(&index.numbers, text) {
        Some(number) => places_at(index.lists.as_slice(), number),
        None => &[],
    }
}

fn places_at(lists: &[PlaceList], number: usize) -> &[usize]
    ensures { result.now ≡ places_at lists.now number }
{
    match lists.get(number) {
        Some(list) => list.places.as_slice(),
        None => &[],
    }
}

//! Copies values, items and members.
ghost use Rattle.std.specs.Prelude.{◌≡◌, IfOk};
ghost use Rattle.json_tree.specs.Tree.{json_of, jsons, pairs};

use crate::number::Number;
use crate::text::Text;
use crate::tree::{Items, Json, Members};
use std::alloc::{AllocError, Global};

impl Json {
    /// An equal value that shares no memory with this one.
    #[cycle(copy)]
    pub fn copy(&self, alloc: Global) -> Result<Json, AllocError>
        ensures { IfOk result (λ j. json_of j ≡ json_of self.now) }
    {
        match self {
            Json::Null => Ok(Json::Null),
            Json::Bool(b) => Ok(Json::Bool(*b)),
            Json::Num(number) => Ok(Json::Num(copy_number(alloc, number)?)),
            Json::Text(text) => Ok(Json::Text(Text::from_str(alloc, text.as_str())?)),
            Json::List(items) => {
                let list = copy_items(alloc, items.list.as_slice())?;
                Ok(Json::List(Items { list }))
            }
            Json::Map(members) => {
                let list = copy_members(alloc, members.list.as_slice())?;
                Ok(Json::Map(Members { list }))
            }
        }
    }
}

#[cycle(copy)]
fn copy_items(alloc: Global, list: &[Json]) -> Result<Vec<Json>, AllocError>
    ensures { IfOk result (λ v. jsons v.items ≡ jsons list.now) }
{
    let mut copied = Vec::with_capacity(alloc, list.len())?;
    for item in list {
        copied.push(item.copy(alloc)?)?;
    }
    Ok(copied)
}

#[cycle(copy)]
fn copy_members(alloc: Global, list: &[(Text, Json)]) -> Result<Vec<(Text, Json)>, AllocError>
    ensures { IfOk result (λ v. pairs v.items ≡ pairs list.now) }
{
    let mut copied = Vec::with_capacity(alloc, list.len())?;
    for member in list {
        let key = Text::from_str(alloc, member.0.as_str())?;
        let value = member.1.copy(alloc)?;
        copied.push((key, value))?;
    }
    Ok(copied)
}

fn copy_number(alloc: Global, number: &Number) -> Result<Number, AllocError>
    ensures { IfOk result (λ n. n ≡ number.now) }
{
    let spelling = Text::from_str(alloc, number.spelling().as_str())?;
    Ok(Number::of(spelling))
}

impl Items {
    /// Equal items that share no memory with these.
    pub fn copy(&self, alloc: Global) -> Result<Items, AllocError>
        ensures { IfOk result (λ items. items ≡ self.now) }
    {
        let list = copy_items(alloc, self.list.as_slice())?;
        Ok(Items { list })
    }
}

impl Members {
    /// Equal members that share no memory with these. The time is linear in their size, since no key is searched.
    pub fn copy(&self, alloc: Global) -> Result<Members, AllocError>
        ensures { IfOk result (λ members. members ≡ self.now) }
    {
        let list = copy_members(alloc, self.list.as_slice())?;
        Ok(Members { list })
    }
}

//! Grows lists into memory that was allocated beforehand.
ghost use Rattle.std.specs.Prelude.{◌≡◌, ◌+◌, ◌*◌, ◌^◌, ◌≤◌, ◌<◌, [], length, IfOk};
ghost use Rattle.std.specs.List.{insert, remove};
ghost use Rattle.std.specs.Vec.{vec_capacity};

use std::alloc::{AllocError, Global};
use std::mem;

/// Inserts the item at this index. A full list first moves into `room`, which is empty and has room for the list and the item.
pub fn insert_in_room<T: Drop>(list: &mut Vec<T>, room: Vec<T>, at: usize, item: T)
    requires empty { room.items ≡ [] }
    requires room { length list.old.items < vec_capacity room }
    requires place { at ≤ length list.old.items }
    ensures { list.new.items ≡ insert list.old.items at item }
{
    if list.len() < list.capacity() {
        insert_at(list, at, item);
    } else {
        move_into(list, room);
        insert_at(list, at, item);
    }
}

fn insert_at<T: Drop>(list: &mut Vec<T>, at: usize, item: T)
    requires room { length list.old.items < vec_capacity list.old }
    requires place { at ≤ length list.old.items }
    ensures { list.new.items ≡ insert list.old.items at item }
{
    if list.insert(at, item).is_err() {
        unreachable!();
    }
}

pub fn move_into<T: Drop>(list: &mut Vec<T>, room: Vec<T>)
    requires empty { room.items ≡ [] }
    requires room { length list.old.items < vec_capacity room }
    ensures same { list.new.items ≡ list.old.items }
    ensures room { length list.old.items < vec_capacity list.new }
{
    let mut old = mem::replace(list, room);
    if list.append(&mut old).is_err() {
        unreachable!();
    }
}

/// An empty list with room for twice as many items, and for at least one more. A list that grows this way moves each item once
/// for each doubling of its length.
pub fn room_for_more<T>(alloc: Global, items: usize) -> Result<Vec<T>, AllocError>
    requires { items < 2 ^ 63 }
    ensures { IfOk result (λ room. (room.items ≡ []) × (items < vec_capacity room)) }
{
    Vec::with_capacity(alloc, 2 * items + 1)
}

/// Removes the item at this index.
pub(crate) fn remove_at<T: Drop>(list: &mut Vec<T>, at: usize)
    requires { at < length list.old.items }
    ensures { list.new.items ≡ remove list.old.items at }
{
    let _ = list.remove(at);
}

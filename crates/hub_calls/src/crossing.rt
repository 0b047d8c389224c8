//! Shows that the parts of a core may go from thread to thread, as facts that proofs can cite.
//!
//! A struct of one crate may go to another thread if its parts may. JSON trees and pending commands are recursive types, and only
//! contracts see records and events. So only a function that names such a type is given the fact. From these facts
//! `proofs/Crosses.antt` derives it for a core under the lock.
ghost use denote.Param.Send.{IsSend};
ghost use Rattle.core_ends.specs.json_tree.contracts.tree.Items as items;
ghost use Rattle.core_ends.specs.json_tree.contracts.tree.Members as members;
ghost use Rattle.core_ends.specs.supersede_core.contracts.pending.Pending as pending;
ghost use Rattle.core_ends.specs.core_state.contracts.events.Events as events;
ghost use Rattle.core_ends.specs.core_state.contracts.found.Found as found;

use core_ends::Found;
use core_state::Events;
use json_tree::{Items, Members};
use supersede_core::Pending;

// A value of the type may go to another thread.
fn goes<T: Send>()
    ensures { IsSend T.row }
{}

/// States the facts. The function does nothing.
pub fn values_go()
    ensures items { IsSend (items.the_field).row }
    ensures members { IsSend (members.the_field).row }
    ensures pending { IsSend (pending.the_field).row }
    ensures found { IsSend (found.the_field).row }
    ensures events { IsSend (events.the_field).row }
{
    goes::<Items>();
    goes::<Members>();
    goes::<Pending>();
    goes::<Found>();
    goes::<Events>();
}

//! The fields of the wire formats: their names, how each is taken out of an object, and how a refusal is printed.
//!
//! A field is taken by its place (its field name and list indices). Either its value moves out of the object with the right type,
//! or the refusal of the wire format comes back with that place. `required_text` and its like take fields from [`Members`]. Calls
//! that begin with `check` only check members that are kept as received. None of them allocates. Contracts name the entry of the
//! wire format's table, such as `required text place`. So a reader that takes its fields in the order of the table is that table.
//!
//! [`WireFault`] is the error of readers that allocate. A reader whose places have 32-bit indices requires a counted value
//! (`wire_spec`'s specs/Counted.antt).
//!
//! The formats are PuppetDB's "replace facts" 5, "replace catalog" 9, "store report" 8, "deactivate node" 3 and "configure
//! expiration" 1.
#![tactic(auto)]

mod check;
mod fault;
mod kind;
mod member;
mod names;
mod places;
mod print;
mod take;

pub use check::{
    check_optional_stamp, check_optional_text, check_required_text, members_in, optional_items_in,
};
pub use fault::WireFault;
pub use kind::{boolean, items, members, nonempty_text, stamp, text, whole_number};
pub use member::find;
pub use names::{key, name};
pub use places::{inner, outer, top};
pub use print::{cause_text, place_text, refusal_text};
pub use take::{
    optional_bool, optional_items, optional_members, optional_stamp, optional_text,
    optional_whole_number, required_bool, required_items, required_members, required_nonempty_text,
    required_stamp, required_text,
};

// The words of lower crates that the modules above use.
pub use wire_spec::{fleet_rows, json_tree, stamp_time};

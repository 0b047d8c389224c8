//! Shows rows of the tables by reference: a reader that looks at a column or two of a row copies none of the others.
//!
//! [`kept_row`] reads a row and leaves it where the tables keep it. [`KeptRow::view`] shows it: [`View::seen`] refers to the value
//! in a column ([`Seen`]). A narrow view shows null in the columns of a resource or a report that would have to be made, as its
//! hash; so it takes no memory, and no report is unpacked for it. [`is_referred`] tells which columns a narrow view shows. Whole
//! rows of resources and reports, and the rows of other entities, are made. A [`Cursor`] reads neighbouring rows of a node without
//! a search for each.
//!
//! Contracts see a row as the list of its cells, exactly as [`fleet_tables::Tables::row`] makes them, and a view as the list of the
//! cells that it shows (`specs/Narrow.antt`). A row counts as one step. The only error is missing memory.
#![tactic(auto)]

mod cells;
mod cursor;
mod narrow;
mod row;
mod rows;
mod seen;
mod view;

pub use cells::cell_in;
pub use cursor::Cursor;
pub use narrow::is_referred;
pub use row::{KeptRow, kept_row};
pub use rows::{KeptRows, views_of};
pub use seen::{Seen, copied, seen_of};
pub use view::View;

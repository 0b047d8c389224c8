//! Steps of a path, held by reference until a row shows them.
use fleet_rows::json_tree::Text;

/// One step into a value: to the member with a key, or to the item with an index.
#[derive(Clone, Copy)]
pub(crate) enum StepRef<'a> {
    Key(&'a Text),
    Index(usize),
}

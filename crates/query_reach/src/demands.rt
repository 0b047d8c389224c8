//! Tells what several pins demand of one column.
ghost use Rattle.std.specs.Prelude.{◌≡◌, ◌++◌, ◌∷◌, [], ℕ, List};
ghost use Rattle.query_reach.specs.Demands.{IsDemand, IsOnly, told_of};
ghost use Rattle.query_reach.specs.Reach.{demanded};
ghost use Rattle.query_reach.specs.Seen.{pin_seen, pins_seen};

use crate::pins::Pin;
use ast_tree::fleet_rows::json_tree::Text;

/// What is demanded of a column.
#[derive(Clone, Copy)]
pub enum Demand<'q> {
    Nothing,
    /// It shows this text.
    Shows(&'q Text),
    /// It shows different texts at once.
    Different,
}

// One text, and another one.
fn both_texts<'q>(other: &'q Text, text: &'q Text) -> Demand<'q>
    ensures { (texts : List (List ℕ)) → IsOnly other.now texts → IsDemand (texts ++ text.now ∷ []) result }
{
    if other.as_str() == text.as_str() {
        Demand::Shows(other)
    } else {
        Demand::Different
    }
}

// One more text.
fn with_text<'q>(demand: Demand<'q>, text: &'q Text) -> Demand<'q>
    ensures { (texts : List (List ℕ)) → IsDemand texts demand.entry → IsDemand (texts ++ text.now ∷ []) result }
{
    match demand {
        Demand::Nothing => Demand::Shows(text),
        Demand::Shows(other) => both_texts(other, text),
        Demand::Different => Demand::Different,
    }
}

// One more pin, if it is of the column.
fn with_pin<'q>(demand: Demand<'q>, column: &str, pin: &Pin<'q>) -> Demand<'q>
    ensures { (texts : List (List ℕ)) → IsDemand texts demand.entry → IsDemand (texts ++ told_of column.now (pin_seen pin.now)) result }
{
    if column == pin.column.text.as_str() {
        with_text(demand, pin.text)
    } else {
        demand
    }
}

/// What the pins demand of the column.
pub fn demand_on<'q>(pins: &[Pin<'q>], column: &str) -> Demand<'q>
    ensures { IsDemand (demanded column.now (pins_seen pins.now)) result }
{
    let mut demand = Demand::Nothing;
    'walking: for pin in pins {
        demand = with_pin(demand, column, pin);
    }
    demand
}

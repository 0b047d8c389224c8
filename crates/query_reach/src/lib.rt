//! Says how many rows a query may read, and what each of its levels demands of the rows that it selects.
//!
//! A row that passes a filter shows each text that a conjunct demands of a column, as `certname = x` does ([`Pins`]). So an
//! evaluator need only read the rows that show these texts. It finds rows by their certname, facts by their name too, and
//! resources by their type and title. The bound (`specs/Reach.antt`) is a sum over the levels of a query, each counted once: the
//! rows in reach, and for each of them a row for each fact that the level's filter names.
//!
//! [`pins_of`] reads the pins off the steps of a stage, [`demand_on`] tells what they demand of a column, and [`facts_of`] lists the
//! facts that the steps name.
//!
//! The main promises, [`plans_stay_in_reach`]: a stage chooses only rows in reach, whatever the stages before it found, and the
//! stages of a plan together read what the bound of their query says. [`reach_is_least`] and [`bounds_are_small`] say what the
//! bound comes to for common queries.
//!
//! Costs: one walk over the steps, which moves each pin once for each `and` around it.
#![tactic(auto)]

mod demands;
mod facts;
mod laws;
mod pins;

pub use demands::{Demand, demand_on};
pub use facts::facts_of;
pub use laws::{bounds_are_small, plans_stay_in_reach, reach_is_least};
pub use pins::{Pin, Pins, pins_of};

// Re-exports for the crates above.
pub use query_plan;

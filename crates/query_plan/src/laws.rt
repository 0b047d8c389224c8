//! The law of plans.
ghost use Rattle.query_plan.specs.Laws.{PlansSelectRows, PlansTellSums};

/// The stages of a plan, one after the other, find the rows that the query selects and the first of its sums that is too large.
pub fn plans_do_what_queries_mean()
    ensures rows { PlansSelectRows }
    ensures sums { PlansTellSums }
{}

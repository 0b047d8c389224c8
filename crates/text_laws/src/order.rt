//! Laws of the order of values: it is total, and it ignores only the order of members.
ghost use Rattle.text_laws.specs.OrderLaws.{OrderIsTotal, EqualInOrderIsAlikeArranged, OrderFollowsCompare};

/// The order is total: any two values compare, consistently from both sides, and the order is transitive.
#[tactic(auto, using(crate::proofs::OrderLaws::order_is_total))]
pub fn the_order_is_total()
    ensures { OrderIsTotal }
{}

/// Two values are equal in the order exactly if they are equal after their members are sorted.
#[tactic(auto, using(crate::proofs::OrderLaws::equal_is_alike_arranged))]
pub fn equal_in_order_is_alike_arranged()
    ensures { EqualInOrderIsAlikeArranged }
{}

/// The order puts numbers with different values in the order of their values.
#[tactic(auto, using(crate::proofs::OrderLaws::order_follows_compare))]
pub fn the_order_follows_compare()
    ensures { OrderFollowsCompare }
{}

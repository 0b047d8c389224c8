//! Laws on the list in a history's checkpoint. This crate has no code that runs.
//!
//! The laws of `checkpoint_spec` say which table a list leads to. They would also hold if a checkpoint listed a command twice, in
//! another order, or left a deactivation out of its node's mark. The laws here describe the list itself:
//!
//! - [`each_node_has_one_mark`]: one mark for each node, by certname.
//! - [`a_mark_tells_the_deactivation`]: a mark has the greatest deactivation among its node's listed commands.
//! - [`commands_stand_in_order`]: commands are strictly sorted by certname, kind and rank.
//!
//! Each public function has laws of `specs/Laws.antt` as its contract and an empty body. `proofs/CheckpointExamples.antt` shows
//! the whole list of a history of two nodes.
#![tactic(auto)]

ghost use Rattle.checkpoint_laws.specs.Laws.{MarksAreOfTheNodes, MarksRise, MarksTellDeactivations, CommandsRise};

/// A checkpoint has one mark for each node of the history, strictly sorted by certname.
#[tactic(auto, using(crate::proofs::Marks::marks_are_of_the_nodes, crate::proofs::Marks::marks_rise))]
pub fn each_node_has_one_mark()
    ensures nodes { MarksAreOfTheNodes }
    ensures rise { MarksRise }
{}

/// Commands are sorted by certname, then by kind, and a node's reports by rank. Each is listed once.
#[tactic(auto, using(crate::proofs::CommandOrder::commands_rise))]
pub fn commands_stand_in_order()
    ensures { CommandsRise }
{}

/// A mark's deactivation is the greatest deactivation among the listed commands of its node.
#[tactic(auto, using(crate::proofs::Deactivations::marks_tell_deactivations))]
pub fn a_mark_tells_the_deactivation()
    ensures { MarksTellDeactivations }
{}

//! Laws on what a checkpoint lists, and which table it leads to.
ghost use Rattle.checkpoint_spec.specs.Laws.{TablesListTheCheckpoint, CheckpointsLeadToTheTable, FurtherCommandsAreFollowed, CheckpointsAreTheirOwn};
ghost use Rattle.checkpoint_spec.specs.Laws.{FurtherCommandsAreListed, OneTableHasOneCheckpoint};

/// The list of a history's table is the history's checkpoint. So the checkpoint is a function of the table.
#[tactic(auto, using(crate::proofs::ListLaws::tables_list_the_checkpoint, crate::proofs::ListLaws::one_table_has_one_checkpoint))]
pub fn a_table_lists_its_checkpoint()
    ensures list { TablesListTheCheckpoint }
    ensures one { OneTableHasOneCheckpoint }
{}

/// A checkpoint leads to the table of its history.
#[tactic(auto, using(crate::proofs::ListLaws::checkpoints_lead_to_the_table))]
pub fn a_checkpoint_leads_to_the_table()
    ensures { CheckpointsLeadToTheTable }
{}

/// A checkpoint followed by more commands leads to the table of the history with these commands.
#[tactic(auto, using(crate::proofs::ListLaws::further_commands_are_followed))]
pub fn a_checkpoint_goes_on()
    ensures { FurtherCommandsAreFollowed }
{}

/// The checkpoint of a checkpoint's table is the same checkpoint. If more commands follow the checkpoint, it is the checkpoint of
/// the history with these commands.
#[tactic(auto, using(crate::proofs::ListLaws::checkpoints_are_their_own, crate::proofs::ListLaws::further_commands_are_listed))]
pub fn a_checkpoint_is_its_own()
    ensures same { CheckpointsAreTheirOwn }
    ensures further { FurtherCommandsAreListed }
{}

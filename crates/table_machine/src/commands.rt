//! Laws on the effect of a command on the table.
ghost use Rattle.table_machine.specs.Laws.{CommandsAreFollowed, OutrankedCommandsChangeNothing, TablesGoOnAlike, SupersededCommandsSayNothing};
ghost use Rattle.table_machine.specs.Laws.{ReportsHaveJsonColumns};

/// Applying a command to a history's table gives the table of the history with the command.
#[tactic(auto, using(crate::proofs::CommandSteps::commands_are_followed))]
pub fn a_command_is_followed()
    ensures { CommandsAreFollowed }
{}

/// The columns of a report that meets its rules are JSON.
pub fn a_report_has_json_columns()
    ensures { ReportsHaveJsonColumns }
{}

/// A command other than a report has no effect if its node's life has a command of its kind with a greater rank. This holds at
/// once and after any further events.
pub fn a_superseded_command_says_nothing()
    ensures step { OutrankedCommandsChangeNothing }
    ensures alike { TablesGoOnAlike }
    ensures run { SupersededCommandsSayNothing }
{}

//! What becomes of each command.
ghost use Rattle.core_laws.specs.Outcomes.{SubmittedCommandsHaveAnOutcome, CommandsEndOnce, EndingsStay, PendingCommandsWait};
ghost use Rattle.core_laws.specs.Outcomes.{AllHaveEndedWhereNothingWaits, EarlierPartsAreLegal, AppliedCommandsStandInTheTrace};
ghost use Rattle.core_laws.specs.Outcomes.{AppliedCommandsDecode, SupersededCommandsAreReplaced, RefusedCommandsAreRefused};
ghost use Rattle.core_laws.specs.Outcomes.{GivenUpCommandsFailedSixteenTimes};

/// A command has an outcome exactly if it was submitted, and then exactly one. It is pending exactly if it is in the list of
/// pending commands; one event ends any other. An ending stays, so each command has ended once nothing is pending. Every earlier
/// part of a legal history is legal.
pub fn a_command_has_one_outcome()
    ensures submitted { SubmittedCommandsHaveAnOutcome }
    ensures once { CommandsEndOnce }
    ensures stays { EndingsStay }
    ensures pending { PendingCommandsWait }
    ensures all { AllHaveEndedWhereNothingWaits }
    ensures earlier { EarlierPartsAreLegal }
{}

/// Each outcome has its reason. An applied command decodes to a change and is in the trace. A superseded command has a newer one
/// of its group that was applied. A discarded command is refused for that cause, or the store failed at it sixteen times.
pub fn an_outcome_has_its_reason()
    ensures applied { AppliedCommandsStandInTheTrace }
    ensures decodes { AppliedCommandsDecode }
    ensures superseded { SupersededCommandsAreReplaced }
    ensures refused { RefusedCommandsAreRefused }
    ensures given_up { GivenUpCommandsFailedSixteenTimes }
{}

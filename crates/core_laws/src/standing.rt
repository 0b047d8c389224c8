//! How the records of the logs grow with the events.
ghost use Rattle.core_laws.specs.StandingLaws.{QueueRecordsGoOn, StoreRecordsGoOn, QueueCheckpointsTell, StoreCheckpointsTell};
ghost use Rattle.core_laws.specs.StandingLaws.{QueueCheckpointsAreLogs, LogsAreBounded, BothLogsStand};
ghost use Rattle.core_laws.specs.StandingLaws.{AChangeStandsBeforeItsDone, DonesAreMended, RestartsLeaveTheRecords};
ghost use Rattle.core_laws.specs.StandingLaws.{WhatWaitsIsTold};

/// An event appends its records to those of the history. Instead, a log may start with the checkpoint of the history.
pub fn records_go_on()
    ensures queue { QueueRecordsGoOn }
    ensures store { StoreRecordsGoOn }
    ensures queue_checkpoint { QueueCheckpointsTell }
    ensures store_checkpoint { StoreCheckpointsTell }
{}

/// A queue's checkpoint has no damage if at most 262,144 commands are pending. No log has more pending commands than that.
pub fn a_log_begins_anew()
    ensures checkpoint { QueueCheckpointsAreLogs }
    ensures bounded { LogsAreBounded }
{}

/// Two logs that tell a legal history stand for it. Between a command's change and its Done, they stand for the history with the
/// command applied, and still do once the Done is written. A restart leaves the records as they are.
pub fn records_stand_between_events()
    ensures both { BothLogsStand }
    ensures before { AChangeStandsBeforeItsDone }
    ensures mended { DonesAreMended }
    ensures restarted { RestartsLeaveTheRecords }
{}

/// The receipts that are pending by the rule of damage are those that an opening finds pending.
pub fn what_waits_is_told()
    ensures { WhatWaitsIsTold }
{}

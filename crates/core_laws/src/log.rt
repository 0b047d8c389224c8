//! What the records of the two logs tell.
ghost use Rattle.core_laws.specs.LogLaws.{NoQueueRecordIsDamage, NoStoreRecordIsDamage, LaidLogsStand, LifetimesAreTold};
ghost use Rattle.core_laws.specs.TableReplay.{RecordsLeadToTheTable, TheSameRecordsTellOneTable};
ghost use Rattle.core_laws.specs.RecordLaws.{RecordsLeadToThePending, RecordsLeadToTheLastReceipt, RecordsLeadToTheDiscards};
ghost use Rattle.core_laws.specs.RecordLaws.{RecordsLeadToTheTrace, TheMissingDoneIsTold, TheSameRecordsTellAlike};
ghost use Rattle.core_laws.specs.RecordLaws.{TheSameRecordsTellOneTrace};

/// Replaying the queue's records gives the commands that are pending after a restart, the last receipt and the discarded
/// commands. Replaying the store's records gives the trace, if they start with the checkpoint of the empty history.
pub fn records_lead_to_the_history()
    ensures pending { RecordsLeadToThePending }
    ensures last { RecordsLeadToTheLastReceipt }
    ensures discards { RecordsLeadToTheDiscards }
    ensures trace { RecordsLeadToTheTrace }
{}

/// The records tell whether the Done of the receipt that the store applied last is missing. Any two histories that the same
/// records stand for agree on the commands pending after a restart, the last receipt and the discarded commands. They agree on
/// the trace too, if the store's checkpoint is that of the empty history.
pub fn records_tell_the_history()
    ensures missing { TheMissingDoneIsTold }
    ensures alike { TheSameRecordsTellAlike }
    ensures trace { TheSameRecordsTellOneTrace }
{}

/// Replaying the store's records, from any checkpoint on, gives the table of the history. So any two histories that the same
/// records stand for have the same table.
pub fn records_lead_to_the_table()
    ensures table { RecordsLeadToTheTable }
    ensures alike { TheSameRecordsTellOneTable }
{}

/// No record that a legal history leaves is damage, from any checkpoint on. For the queue this needs two things: each sixteenth
/// failure discards at once, and each command was submitted while fewer than 262,144 were pending.
pub fn no_record_of_a_history_is_damage()
    ensures queue { NoQueueRecordIsDamage }
    ensures store { NoStoreRecordIsDamage }
{}

/// The logs that `init` writes stand for the empty history. The first record of a store's log has the lifetimes.
pub fn laid_logs_stand()
    ensures laid { LaidLogsStand }
    ensures lifetimes { LifetimesAreTold }
{}

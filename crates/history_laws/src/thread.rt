//! Laws on one thread that takes items one at a time.
ghost use Rattle.history_laws.specs.ThreadLaws.{ItemsHaveSomeHistory, ItemsHaveOneHistory, OneThreadMakesATrace, OneThreadIsAThread};
ghost use Rattle.history_laws.specs.ThreadLaws.{ThreadsHaveSomeHistory, ThreadsHaveOneHistory, DroppedCommandsSayNothing, ThreadsMakeATrace};

/// One thread makes exactly one history of the items.
pub fn items_have_one_history()
    ensures some { ItemsHaveSomeHistory }
    ensures one { ItemsHaveOneHistory }
{}

/// From any history with pending commands, a thread makes exactly one history of the arrivals. A dropped command has no effect.
/// From an empty history with nothing pending or dropped and receipts from 1, it is the history of the items.
pub fn a_thread_has_one_history()
    ensures some { ThreadsHaveSomeHistory }
    ensures one { ThreadsHaveOneHistory }
    ensures dropped { DroppedCommandsSayNothing }
    ensures items { OneThreadIsAThread }
{}

/// If the items meet their rules, the history is a trace: its changes meet their rules, and its receipts count from 1 and are
/// distinct. A thread that starts from a trace makes a trace if the new receipts are distinct.
pub fn one_thread_makes_a_trace()
    ensures items { OneThreadMakesATrace }
    ensures arrivals { ThreadsMakeATrace }
{}

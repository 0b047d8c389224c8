//! Which events may come next.
ghost use Rattle.core_laws.specs.NextEvents.{ClaimedCommandsMayEnd, WaitingCommandsGoOn};

/// A claimed command may be applied if it decodes to a change; otherwise it may be discarded for its refusal. If commands are
/// pending and none has failed sixteen times, then one is claimed, may be claimed, or may be superseded.
pub fn what_waits_goes_on()
    ensures ends { ClaimedCommandsMayEnd }
    ensures goes_on { WaitingCommandsGoOn }
{}

//! Which command is claimed next.
ghost use Rattle.core_laws.specs.Claims.{FirstCandidatesAreClaimable, OlderCandidatesAreSuperseded, NoneFoundIsNone, ClaimableCommandsAreCandidates};

/// The first candidate has the least receipt among the candidates. It may be claimed, unless it is stale; then the newest applied
/// command of its group supersedes it. Without a candidate, no command may be claimed.
pub fn the_first_candidate_is_the_least_claim()
    ensures claimable { FirstCandidatesAreClaimable }
    ensures superseded { OlderCandidatesAreSuperseded }
    ensures none { NoneFoundIsNone }
    ensures candidates { ClaimableCommandsAreCandidates }
{}

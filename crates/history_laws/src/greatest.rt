//! Laws on the greatest moments of a node's commands and of sweeps.
ghost use Rattle.history_laws.specs.GreatestLaws.{ActivityIsTheGreatest, DeactivationIsTheGreatest, ExpiryIsTheGreatest, RetentionIsTheGreatest};

/// A node's activity is the greatest timestamp of its facts, catalogs and reports, or None if it has none of these. Deactivations
/// likewise.
#[tactic(auto, using(crate::proofs::GreatestMoments::activity_is_the_greatest, crate::proofs::GreatestMoments::deactivation_is_the_greatest))]
pub fn the_greatest_stamps_are_of_commands()
    ensures activity { ActivityIsTheGreatest }
    ensures deactivation { DeactivationIsTheGreatest }
{}

/// The greatest expiry is the greatest moment of a sweep of expiry, or None if there is no such sweep. Sweeps of reports
/// likewise.
#[tactic(auto, using(crate::proofs::GreatestMoments::expiry_is_the_greatest, crate::proofs::GreatestMoments::retention_is_the_greatest))]
pub fn the_greatest_moments_are_of_sweeps()
    ensures expiry { ExpiryIsTheGreatest }
    ensures retention { RetentionIsTheGreatest }
{}

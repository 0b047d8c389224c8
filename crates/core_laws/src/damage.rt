//! At which frame a log is damaged.
ghost use Rattle.core_laws.specs.DamageLaws.{LogsAreUndamaged, DamageHasOnePlace};

/// The frames of a log have no damage, provided that each frame spells at most one record.
pub fn a_log_is_undamaged()
    ensures { LogsAreUndamaged }
{}

/// Any frames are damaged at one position at most, under the same condition.
pub fn damage_has_one_place()
    ensures { DamageHasOnePlace }
{}

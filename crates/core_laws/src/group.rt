//! Groups, within which newer commands supersede older ones.
ghost use Rattle.core_laws.specs.Groups.{GroupsAreThoseOfPayloads, GroupsAreOfTheKind, OneOfAGroupIsClaimed, AppliedCommandsAreTheNewest};

/// A command has a group exactly if it is no report and its payload has a head. That is an object with a nonempty string at
/// `certname` and a stamp at `producer_timestamp`. The group is that node and the command's kind.
pub fn groups_are_those_of_payloads()
    ensures payloads { GroupsAreThoseOfPayloads }
    ensures kinds { GroupsAreOfTheKind }
{}

/// At most one command of a group is claimed at a time. A command that is applied is then the newest of its group since the last
/// purge of its node.
pub fn a_group_is_applied_in_order()
    ensures one { OneOfAGroupIsClaimed }
    ensures newest { AppliedCommandsAreTheNewest }
{}

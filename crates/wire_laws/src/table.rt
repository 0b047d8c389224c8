//! Laws of the tables of the wire formats.
ghost use Rattle.wire_laws.specs.TableLaws.{UnknownKeysSayNothing, OrderOfMembersSaysNothing, MissingIsAbsenceOfEachKind};
ghost use Rattle.wire_laws.specs.TableLaws.{NothingIsAbsenceOrNullOfEachKind, WrongIsAnotherKind, TakenIsTheValue};
ghost use Rattle.wire_laws.specs.TableLaws.{BadStampIsNoStamp, EachEdgeStaysOnce, EachTextStaysOnceInOrder};
ghost use Rattle.wire_laws.specs.SettledLaws.{LastValuesStandAtFirstPlaces};

/// A change depends only on the members that are fields of its kind, in any order.
pub fn only_known_members_count()
    ensures unknown { UnknownKeysSayNothing }
    ensures order { OrderOfMembersSaysNothing }
{}

/// A field is `Missing` if it is absent, `Wrong` if its value has another type, and `BadStamp` if a text names no moment.
/// Otherwise its value is taken.
pub fn a_refusal_of_a_field_has_one_meaning()
    ensures missing { MissingIsAbsenceOfEachKind }
    ensures nothing { NothingIsAbsenceOrNullOfEachKind }
    ensures wrong { WrongIsAnotherKind }
    ensures taken { TakenIsTheValue }
    ensures bad_stamp { BadStampIsNoStamp }
{}

/// Each edge of a catalog is kept once.
pub fn each_edge_stays_once()
    ensures { EachEdgeStaysOnce }
{}

/// Each tag of a resource is kept once, and the tags ascend by their bytes.
pub fn each_tag_stays_once_in_order()
    ensures { EachTextStaysOnceInOrder }
{}

/// If a key occurs twice in an object, its last value counts, at the position of the first.
pub fn the_last_value_stands_at_the_first_place()
    ensures { LastValuesStandAtFirstPlaces }
{}

//! Laws on spools: an item's text has one reading, so all bytes have one list of items.
ghost use Rattle.history_laws.specs.SpoolLaws.{ItemTextsAreRead, WhatIsReadIsAnItemText, FirstLinesAreShort, SpoolsHaveOneReading};
ghost use Rattle.history_laws.specs.SpoolLaws.{BytesHaveSomeReading, SpoolsHaveItems, TheFirstMomentHasAStamp};

/// The reader reads an item's text as that item, whatever bytes follow.
pub fn an_item_text_is_read()
    ensures { ItemTextsAreRead }
{}

/// Whatever the reader reads is the text of an item.
pub fn what_is_read_is_an_item_text()
    ensures { WhatIsReadIsAnItemText }
{}

/// The first line of an item has at most 200 bytes, including its line feed.
pub fn a_first_line_is_short()
    ensures { FirstLinesAreShort }
{}

/// All bytes have exactly one list of items and one end.
pub fn a_spool_has_one_reading()
    ensures some { BytesHaveSomeReading }
    ensures one { SpoolsHaveOneReading }
{}

/// The items of a spool meet their rules: payloads have fewer than 2^32 bytes, and each moment has a stamp.
#[tactic(auto, using(crate::proofs::SpoolItems::spools_have_items))]
pub fn a_spool_has_items()
    ensures { SpoolsHaveItems }
{}

/// The moment 0 (1970-01-01T00:00:00Z) has a stamp.
#[tactic(auto, using(crate::proofs::SpoolItems::the_first_moment_has_a_stamp))]
pub fn the_first_moment_has_a_stamp()
    ensures { TheFirstMomentHasAStamp }
{}

//! Laws of stamps: the reader accepts exactly the stamps, and reads printed stamps back.
ghost use Rattle.text_laws.specs.StampLaws.{StampsAreRead, StampsNameOneMoment, NineDigitsCutNothing, MomentsPrintOneText};
ghost use Rattle.text_laws.specs.StampLaws.{PrintedTextsTellTheCutMoment, PrintedTextsAreStamps};

/// The reader gives a moment exactly if the text is a stamp of it.
pub fn stamps_are_read()
    ensures { StampsAreRead }
{}

/// A text is a stamp of at most one moment.
pub fn a_stamp_names_one_moment()
    ensures { StampsNameOneMoment }
{}

/// A moment has one printed text for each number of digits. Two moments with the same printed text differ only in the digits that
/// are cut off.
pub fn a_printed_stamp_tells_the_cut_moment()
    ensures text { MomentsPrintOneText }
    ensures moment { PrintedTextsTellTheCutMoment }
{}

/// A text printed in the years 1 to 9900 is a stamp of the moment cut to its digits. Nine digits cut nothing.
pub fn a_printed_stamp_is_a_stamp()
    ensures stamp { PrintedTextsAreStamps }
    ensures nine_digits { NineDigitsCutNothing }
{}

//! Laws on the text with nine fraction digits that is printed for a moment.
ghost use Rattle.history_laws.specs.PrintedLaws.{FullTextsArePrinted, FullTextsTellTheMoment};

/// For each moment of the years 0 to 9999 the text with nine digits is the full text. No other moment is printed.
pub fn full_texts_are_printed()
    ensures { FullTextsArePrinted }
{}

/// Distinct moments of these years have distinct full texts.
pub fn a_full_text_tells_its_moment()
    ensures { FullTextsTellTheMoment }
{}

//! Laws that tie reading to the encoding. Each law is the contract of a function with an empty body.
ghost use Rattle.queue_records.specs.Laws.{ReadIsSpelled, SpelledIsRead, SpellingTells, OthersAreNone};

/// Whatever is read from bytes is a record, and the bytes are its encoding. So bytes encode at most one record, and each record
/// has only one encoding.
pub fn what_is_read_is_spelled_so()
    ensures { ReadIsSpelled }
{}

/// Each record is read from its encoding.
#[tactic(auto, using(crate::proofs::Records::queue_again))]
pub fn a_spelling_is_read()
    ensures { SpelledIsRead }
{}

/// Distinct records have distinct encodings.
#[tactic(auto, using(crate::proofs::Records::queue_told))]
pub fn a_spelling_has_one_record()
    ensures { SpellingTells }
{}

/// Bytes that the reader refuses encode no record.
pub fn other_bytes_are_no_record()
    ensures { OthersAreNone }
{}

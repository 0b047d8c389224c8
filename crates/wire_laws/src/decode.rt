//! Laws of decoding commands.
ghost use Rattle.wire_laws.specs.DecodeLaws.{CommandsHaveSomeAnswer, CommandsHaveOneAnswer, DecodedChangesAreLawful};

/// Each command decodes to exactly one answer: a change or a refusal.
pub fn a_command_has_one_answer()
    ensures some { CommandsHaveSomeAnswer }
    ensures one { CommandsHaveOneAnswer }
{}

/// If the payload's length fits 32 bits, every change that a command decodes to meets the rules of its kind.
pub fn a_decoded_change_is_lawful()
    ensures { DecodedChangesAreLawful }
{}

//! The definitions that contracts cite about texts: JSON values and the texts that spell them (RFC 8259), the value of a number's
//! spelling, the order of values, and stamps (RFC 3339). The crate has no code.
//!
//! A text is the list of its UTF-8 bytes. Read the files of `specs/` in the order in which `specs/Lib.antt` names them.
#![tactic(auto)]

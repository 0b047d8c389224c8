//! Defines what the bytes of a log file stand for, with the laws of that definition. The crate has no code that runs.
//!
//! A log file has a head of 16 bytes, followed by frames. Numbers are little-endian.
//!
//! | bytes | content |
//! |---|---|
//! | 0 | file gate: 1 is open, anything else is closed |
//! | 1 to 7 | `PDBLOG1` |
//! | 8 to 15 | generation, u64 |
//! | from 16 | frames: a gate (1 byte), the length n (u32), n bytes |
//!
//! A file is closed, damaged at an offset, or open. An open file has a generation, the frames up to its first closed gate, and
//! the offset of that gate. `specs/Image.antt` says so as a relation over the bytes; this is the definition to review.
//! `specs/ImageOf.antt` computes the same image as a function, which other crates use in their clauses.
//!
//! The contracts below tie the two together:
//! - Each file has exactly one image, and the function computes it.
//! - A laid file stands for its frames.
//! - The bytes past the first closed gate don't matter.
//!
//! Two files that take turns are a pair. An open damaged file makes the pair damaged there; the first file is checked first.
//! Otherwise the open file with the greater generation counts; if they are equal, the first file. If no file is open, the first
//! file is damaged at 0. `specs/PairImage.antt` defines this in the same two ways, and each pair has exactly one image.
//!
//! The images of files of 16 and 17 bytes are computed, as examples ([`files_at_the_edges_are_told`]).
#![tactic(auto)]

mod laws;
mod limits;
mod side;

pub use laws::{
    a_laid_file_stands_for_its_frames, a_laid_store_has_these_bytes, each_file_has_one_image,
    each_pair_has_one_image, files_at_the_edges_are_told, nothing_is_said_past_the_gate,
    pairs_at_the_edges_are_told,
};
pub use limits::MOST_LOG;
pub use side::Side;

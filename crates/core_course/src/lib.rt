//! States what a sequence of calls does to a core, and proves that such sequences join.
//!
//! The contract of a call says which events it adds, and that the core stands for the history with them. It also says what the
//! images of the disks stand for at each moment, and which record it writes. `specs/Courses.antt` says the same of a sequence of
//! calls. `Passed` compares its first core with its last. `Course` covers each moment within, call by call, because the disks of
//! a core share no clock. `specs/Work.antt` defines `Worked`, for sequences that submit nothing.
//!
//! The main laws: sequences join ([`stretches_join`], [`courses_join`]), and their calls leave no moment out
//! ([`courses_are_whole`]). After a sequence, the images of the disks stand for a part of its events ([`last_images_stand`]).
//!
//! Further laws: one call moves at most one command ([`calls_move_one`]). A core goes on standing for its history
//! ([`courses_stand`]), and time goes back in no file ([`courses_take_time`]).
#![tactic(auto)]

mod laws;

pub use laws::{
    calls_move_one, courses_are_whole, courses_join, courses_stand, courses_take_time,
    last_images_stand, stretches_join, work_goes_on,
};

// Re-exports for the crates above.
pub use core_state::Found;

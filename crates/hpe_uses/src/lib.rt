//! The library by example: a profile of one's own, frames to slots and back in memory, and the soft values of a word.
//!
//! Each function has the contract of what it shows, so that its text can be copied: the check proves it, and a test
//! runs it.
#![tactic(auto)]

mod fault;
mod make_profile;
mod receive_frames;
mod send_frames;
mod soft_values;
#[cfg(test)]
mod tests;

pub use fault::{LIMIT, UseFault};
pub use make_profile::profile_with;
pub use receive_frames::{Received, received_frames};
pub use send_frames::sent_slots;
pub use soft_values::inner_values;

//! Symbols as slots and back: the repeater, the pulses and the guard slots.
#![tactic(auto)]

mod reading;
#[cfg(test)]
mod tests;
mod writing;

pub use reading::{gather, marker_score, read_counts, widen};
pub use writing::{write_pulses, write_symbol};

//! The soft values of the outer code, by a forward and a backward recursion over its trellis.
//!
//! The forward recursion gives a row of scores before each step, in memory that the caller lends; the backward one
//! meets it, and gives the soft values as it goes. Both go by windows of 64 steps, so that only the rows of one are
//! kept.
#![tactic(auto)]

mod laws;
mod outer;
mod puncturing;
#[cfg(test)]
mod tests;
mod word;

pub use laws::outer_scores_are_bounded;
pub use outer::{OUTSIDE, outer_rows, outer_soft};
pub use puncturing::step_numbers;

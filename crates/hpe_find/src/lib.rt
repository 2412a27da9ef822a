//! The search for the codeword marker: where in a stream of counts the codewords begin.
//!
//! Every offset below a period gets a score, the sum of the counts at the marker's pulses in each period that is
//! searched, and the least offset with the greatest score is found. Scores are worked out side by side: the counts at
//! one pulse of the marker, for a row of offsets, are a run of the stream. Where symbols are sent more than once, so is
//! the marker, and the sums over one sending of it serve every offset that has a sending there.
#![tactic(auto)]

mod finder;
mod search;
#[cfg(test)]
mod tests;

pub use finder::{Finder, Found};

//! Soft values of the inner code: the accumulator and the pulse-position mapper.
//!
//! A word of the inner code is a path through a trellis of two states, which are the last bit of the accumulator, with
//! one stage a symbol. A forward sweep finds for each stage and state the greatest score of the ways to it, and a
//! backward sweep that of the ways from it to the end. Where they meet, each input bit of the stage gets its soft
//! value: the greatest score of the words with a 1 there less the greatest of the words with a 0.
#![tactic(auto)]

mod backward;
mod forward;
mod laws;
mod soft;
#[cfg(test)]
mod tests;
mod word;

pub use laws::inner_scores_are_bounded;
pub use soft::{inner_rows, inner_soft};

//! The rows of slot sums: from the counts behind a codeword marker to the rows of the codewords, a period at a time.
//!
//! Nothing is decoded here, and nothing is known of words but how many symbols they have, so that whoever looks at sums
//! alone can stand on this crate as the receiver does.
#![tactic(auto)]

mod rows;
#[cfg(test)]
mod tests;

pub use rows::{Rows, Taken};

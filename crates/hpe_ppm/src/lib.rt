//! The inner stages of a codeword: the accumulator and the pulse-position mapper, with the mapper's inverse.
#![tactic(auto)]

mod accumulator;
mod laws;
mod mapper;
#[cfg(test)]
mod tests;

pub use accumulator::accumulate;
pub use laws::{inner_code_is_one_to_one, inner_code_is_onto, mapper_is_invertible};
pub use mapper::{bits_of, symbols_of};

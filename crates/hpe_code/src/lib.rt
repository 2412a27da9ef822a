//! From the bits of a closed block to the code bits of a codeword: the convolutional code with puncturing, and the code
//! interleaver with its inverse.
#![tactic(auto)]

mod interleaver;
mod laws;
mod outer;
#[cfg(test)]
mod tests;

pub use interleaver::CodeTables;
pub use laws::{code_is_one_to_one, interleaver_is_a_permutation, moves_undo_each_other};
pub use outer::{kept_length, outer_encode};

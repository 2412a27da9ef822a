//! The iterative decoder of a codeword: rounds between the soft values of the inner and of the outer code, and the
//! verdict on the word.
#![tactic(auto)]

mod desk;
mod extrinsic;
mod inverse;
mod rounds;
#[cfg(test)]
mod tests;
mod verdict;

pub use desk::Desk;
pub use extrinsic::{cut, scaled};
pub use verdict::Verdict;

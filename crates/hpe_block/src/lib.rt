//! The bit stream in blocks of information bits, and what is done to a block before the convolutional code: it is
//! randomised, and its check and the termination are attached. A block is taken back from a decoded word where its check
//! is right. A bit is a `u8` that is 0 or 1.
#![tactic(auto)]

mod block;
mod check;
mod randomiser;
mod slicer;
#[cfg(test)]
mod tests;

pub use block::{close_block, open_block};
pub use check::check_of;
pub use randomiser::randomise;
pub use slicer::Slicer;

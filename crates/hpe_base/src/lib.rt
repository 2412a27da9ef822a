//! The parameters of a link, and in `specs/` the definition of each stage of its signalling chain.
#![tactic(auto)]

pub mod bits;
pub mod columns;
mod fault;
mod fields;
mod laws;
mod measures;
mod memory;
mod profile;
mod steps;
#[cfg(test)]
mod tests;
mod values;

pub use fault::{Key, ProfileFault, Rule};
pub use fields::Fields;
pub use laws::{eight_eighths_are_whole, one_octet_is_plain, tops_are_greatest};
pub use measures::{Measures, geometry};
pub use memory::NoMemory;
pub use profile::{
    CHECK_BITS, CLAMP, CODE_BITS, FRAME_MARKER_BITS, Order, Profile, Rate, TERMINATION_BITS,
};
pub use steps::Steps;

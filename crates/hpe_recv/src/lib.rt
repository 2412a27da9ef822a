//! The streaming receiver: from the counts of slots to transfer frames and a report, with room for the counts that the
//! marker search needs, what the channel interleaver delays, one word, one block and one frame.
#![tactic(auto)]

mod batch;
mod counts;
mod intake;
mod lines;
mod outlet;
mod receiver;
mod reception;
mod stream;
#[cfg(test)]
mod tests;

pub use hpe_crew::{Gate, OpenGate};
pub use receiver::{Receiver, RecvFault, Tally, held_limit};

//! The streaming sender: from the octets of transfer frames to slots, with room for one frame, one block, one codeword
//! and what the channel interleaver delays.
#![tactic(auto)]

mod chain;
mod coder;
mod outbox;
mod period;
mod room;
mod sender;
#[cfg(test)]
mod tests;

pub use sender::{SendFault, Sender, Sent};

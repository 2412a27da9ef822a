//! The simulated channel: frames of random octets are sent, pulses are lost and noise is counted, and what is received
//! is compared with what was sent.
#![tactic(auto)]

mod channel;
mod link;
mod simulation;
mod task;
#[cfg(test)]
mod tests;

pub use simulation::{SimFault, simulate};
pub use task::Task;

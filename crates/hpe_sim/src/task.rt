//! What a simulation is asked for.

/// What is to be simulated.
#[derive(Clone, Copy, Debug, PartialEq, Eq)]
pub struct Task {
    /// The seed of the frames and of the channel.
    pub seed: u64,
    /// How many frames are sent, at most 65,535.
    pub frames: u32,
    /// How many of 65,536 pulses are lost.
    pub lost: u16,
    /// How many of 65,536 slots have a count of noise.
    pub noise: u16,
}

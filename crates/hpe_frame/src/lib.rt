//! Transfer frames with their attached frame markers: octets to the bits of marked frames, and the frames in blocks of
//! such bits, of which some are lost.
#![tactic(auto)]

mod feed;
mod laws;
mod scan;
mod span;
#[cfg(test)]
mod tests;

pub use feed::FrameFeed;
pub use laws::frames_of_known_blocks_are_delivered;
pub use scan::FrameScan;

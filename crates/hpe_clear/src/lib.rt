//! The clear channel: what a receiver makes of slots that come as they were sent, after a dark lead-in.
#![tactic(auto)]

mod laws;

pub use laws::clear_channel_is_decoded;

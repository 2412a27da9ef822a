//! The channel interleaver and its inverse, a symbol at a time.
//!
//! Both work by rows: push number t, from 0, falls on row t mod N of the profile's N rows. The interleaver delays the
//! symbols of row i by i times the profile's delay, counted in symbols of that row, and its inverse by the rest, so
//! that every symbol is delayed alike from end to end. Each row that delays has one ring, which is all the memory that
//! a push touches.
#![tactic(auto)]

mod laws;
#[cfg(test)]
mod tests;
mod unweaver;
mod weaver;

pub use laws::channel_interleaver_is_undone;
pub use unweaver::Unweaver;
pub use weaver::Weaver;

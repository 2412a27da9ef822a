//! The kernels of soft values: one stage of a trellis at a time, what its states score before it or after it, from what
//! they score on its other side.
//!
//! Scores are compared eight at a time, in the lanes of a vector. [`plain`] has the same kernels without lanes.
//! [`best_edges`], [`step_by_best`] and [`step_back_by_best`] take a stage forward and back without a list of its edges,
//! where a symbol has four bits or more; they have no plain form but that of the lists.
#![tactic(auto)]

mod back;
mod best;
mod ends;
mod fold;
mod gray;
mod join;
mod lanes;
mod outer;
mod parity;
mod parts;
pub mod plain;
mod stage;
mod sweep;
#[cfg(test)]
mod tests;

pub use back::step_back_by_best;
pub use best::{best_edges, step_by_best};
pub use gray::{edge_scores, gray_scores};
pub use outer::{outer_back, outer_forward};
pub use parity::best_by_parity;
pub use stage::{Between, Stage, step_back, step_forward};
pub use sweep::{WINDOW, sweep_rows};

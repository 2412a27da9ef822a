//! Witnesses of a best path: a free word of greatest outer score, and potentials that show that no word scores more.
//!
//! A potential is a number for a state before a step. Where it rises along each edge by at least what the edge scores,
//! from 0 at the first state, no path scores more than the potential of the state that it ends in. So a word that
//! scores as much as the last potential of state 0 is best, whoever made the potentials, and whoever doubts it needs
//! one look at each edge and no decoder. In the words of linear programming, the potentials are a dual solution.
//!
//! [`best_path`] makes a witness, whose potentials are path metrics, and [`check_path`] checks one. A record holds one
//! as octets: [`write_record`] writes it and [`check_record`] checks it.
#![tactic(auto)]

mod audit;
mod best;
mod check;
mod edges;
mod laws;
mod read;
mod record;
#[cfg(test)]
mod tests;
mod write;

pub use audit::{AuditDesk, Refusal, check_record};
pub use best::best_path;
pub use check::{PathFault, check_path};
pub use laws::{answers_are_unique, best_words_are_best, records_are_answered_as_paths};
pub use record::record_octets;
pub use write::write_record;

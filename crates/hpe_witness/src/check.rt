//! The check of a word and of the potentials that go with it: one look at each edge, and no recursion.
ghost use Rattle.std.specs.Prelude.{◌≡◌, ◌<◌, ◌≤◌, ◌+◌, ◌+ℤ◌, ◌<ℤ◌, ℕ, List, length, true, false, IfOk};
ghost use Rattle.hpe_base.specs.Bits.{AreBits};
ghost use Rattle.hpe_base.specs.Parameters.{clamp, codeword_bits};
ghost use Rattle.hpe_base.specs.Sizes.{number_at, AllWithin};
ghost use Rattle.hpe_base.specs.ConvolutionalCode.{code_bits, AreColumns};
ghost use Rattle.hpe_base.specs.PathScores.{outer_score};
ghost use Rattle.hpe_lane.specs.OuterStage.{outer_next, edge_sum};
ghost use Rattle.hpe_trellis.specs.OuterTrellis.{kept_before};
ghost use Rattle.hpe_witness.specs.Potentials.{potential_most, PotentialsWithin, IsRising, FallsSomewhere, RisesAlong, FallsAlong};
ghost use Rattle.hpe_witness.specs.PathCheck.{IsPathAnswer, IsBestScore};

use crate::edges::{edge_score, input_at, numbers_at};
use thiserror::Error;

/// Why a word and potentials are no witness.
#[derive(Clone, Copy, Debug, PartialEq, Eq, Error)]
pub enum PathFault {
    /// The first potential of state 0 isn't 0.
    #[error("the first potential isn't 0")]
    Start,
    /// Along some edge the potential rises by less than the edge scores.
    #[error("along an edge the potential rises by less than the edge scores")]
    Step,
    /// The word scores something else than the last potential of state 0.
    #[error("the word scores something else than the last potential")]
    Score,
}

/// Whether the potential rises by at least what the edge scores.
fn rises_along(row: &[i32; 4], l: [i32; 3], next: &[i32; 4], state: usize, input: usize) -> bool
    requires row { AllWithin potential_most row.now }
    requires l { AllWithin clamp l }
    requires next { AllWithin potential_most next.now }
    requires state { state < 4 }
    requires input { input < 2 }
    ensures rises { result ≡ true → RisesAlong row.now l next.now state input }
    ensures falls { result ≡ false
        → number_at next.now (outer_next state input) <ℤ (number_at row.now state +ℤ edge_sum l state input) }
{
    row[state] + edge_score(l, state, input) <= next[2 * input + state / 2]
}

/// Whether it does along each edge of a step.
fn rises_at(row: &[i32; 4], l: [i32; 3], next: &[i32; 4]) -> bool
    requires row { AllWithin potential_most row.now }
    requires l { AllWithin clamp l }
    requires next { AllWithin potential_most next.now }
    ensures rises { result ≡ true → (p x : ℕ) → p < 4 → x < 2 → RisesAlong row.now l next.now p x }
    ensures falls { result ≡ false → FallsAlong row.now l next.now }
{
    for state in 0..4 {
        if !rises_along(row, l, next, state, 0) || !rises_along(row, l, next, state, 1) {
            return false;
        }
    }
    true
}

/// Whether it does along each edge of each step.
fn rises_throughout(columns: &[[bool; 3]], l: &[i32], rows: &[[i32; 4]], steps: usize) -> bool
    requires columns { AreColumns columns.now }
    requires few { steps ≤ 10080 }
    requires rows { length rows.now ≡ steps + 1 }
    requires l { length l.now ≡ kept_before columns.now steps }
    requires short { length l.now ≤ codeword_bits }
    requires within { AllWithin clamp l.now }
    requires potentials { PotentialsWithin potential_most rows.now }
    ensures rises { result ≡ true → IsRising columns.now l.now steps rows.now }
    ensures falls { result ≡ false → FallsSomewhere columns.now l.now steps rows.now }
{
    for t in 0..steps {
        if !rises_at(&rows[t], numbers_at(columns, l, t), &rows[t + 1]) {
            return false;
        }
    }
    true
}

/// What the word scores.
fn path_score(columns: &[[bool; 3]], l: &[i32], u: &[u8]) -> i32
    requires columns { AreColumns columns.now }
    requires free { length u.now ≤ 10078 }
    requires bits { AreBits u.now }
    requires l { length l.now ≡ kept_before columns.now (length u.now + 2) }
    requires short { length l.now ≤ codeword_bits }
    requires within { AllWithin clamp l.now }
    ensures { result ≡ outer_score columns.now l.now u.now }
{
    let mut state = 0;
    let mut score = 0;
    for t in 0..u.len() + 2 {
        let input = input_at(u, t);
        let l = numbers_at(columns, l, t);
        score += edge_score(l, state, input);
        state = 2 * input + state / 2;
    }
    score
}

/// Checks that the word scores what the last potential of state 0 says, and that no word scores more. It answers the
/// score, or the first fault that holds, in the order of [`PathFault`].
///
/// The puncturing `columns`, the a-priori numbers `l` of the kept code bits, and how many bits `u` has are as in
/// [`hpe_trellis::outer_soft`]; two zero bits end the word. `rows` has four potentials, of at most 600,000,000 in size,
/// before each step and four after the last, `u.len() + 3` rows.
pub fn check_path(
    columns: &[[bool; 3]],
    l: &[i32],
    u: &[u8],
    rows: &[[i32; 4]],
) -> Result<i32, PathFault>
    requires columns { AreColumns columns.now }
    requires free { (2 ≤ length u.now) × (length u.now ≤ 10078) }
    requires bits { AreBits u.now }
    requires l { (v : List ℕ) → length v ≡ length u.now + 2 → length l.now ≡ length (code_bits columns.now v) }
    requires short { length l.now ≤ codeword_bits }
    requires within { AllWithin clamp l.now }
    requires rows { length rows.now ≡ length u.now + 3 }
    requires potentials { PotentialsWithin potential_most rows.now }
    ensures answer { IsPathAnswer columns.now l.now u.now rows.now result }
    ensures best { IfOk result (λ b. IsBestScore columns.now l.now u.now b) }
{
    if rows[0][0] != 0 {
        return Err(PathFault::Start);
    }
    if !rises_throughout(columns, l, rows, u.len() + 2) {
        return Err(PathFault::Step);
    }
    let score = path_score(columns, l, u);
    if score != rows[u.len() + 2][0] {
        return Err(PathFault::Score);
    }
    Ok(score)
}

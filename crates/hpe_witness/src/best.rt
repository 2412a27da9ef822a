//! The best word, by the Viterbi algorithm: path metrics forward over the trellis of the outer code, and the way back
//! along the survivors.
//!
//! The path metric of a state before a step is the greatest score of the paths that lead there. Of the two states that
//! lead to a state, the survivor is the one that leads on more, and on a tie the one with the earlier input 0. So of
//! the best words the one is found that is least when it is read from its last bit to its first. The path metrics are
//! potentials.
ghost use Rattle.std.specs.Prelude.{◌≡◌, ◌≢◌, ◌<◌, ◌≤◌, ◌+◌, ℕ, List, length, slice_index, Ok};
ghost use Rattle.hpe_base.specs.Parameters.{clamp, codeword_bits};
ghost use Rattle.hpe_base.specs.Sizes.{number_at, AllWithin};
ghost use Rattle.hpe_base.specs.ConvolutionalCode.{code_bits, AreColumns};
ghost use Rattle.hpe_base.specs.PathScores.{outer_score};
ghost use Rattle.hpe_lane.specs.OuterStage.{edge_sum};
ghost use Rattle.hpe_trellis.specs.OuterTrellis.{kept_before};
ghost use Rattle.hpe_witness.specs.Potentials.{potential_most, PotentialsWithin};
ghost use Rattle.hpe_witness.specs.PathCheck.{IsPathAnswer};
ghost use Rattle.hpe_witness.specs.BestWord.{IsBest, best_word};
ghost use Rattle.hpe_witness.specs.PathMetrics.{metric_rows, survivor, survivor_at, traced};

use crate::edges::{edge_score, numbers_at};
use hpe_base::Steps;
use hpe_lane::outer_forward;
use hpe_trellis::OUTSIDE;
use std::marker::Brand;
use std::sync::ledger::{Blank, Ledger};

/// Writes the path metrics before each of so many steps and after the last. The kernel counts its stages in a ledger,
/// which nobody reads here.
fn metric_rows<L: Ledger>(
    steps: usize,
    columns: &[[bool; 3]],
    l: &[i32],
    rows: &mut [[i32; 4]],
    blank: Blank,
)
    requires few { steps ≤ 10080 }
    requires columns { AreColumns columns.now }
    requires rows { length rows.old ≡ steps + 1 }
    requires l { length l.now ≡ kept_before columns.now steps }
    requires short { length l.now ≤ codeword_bits }
    requires within { AllWithin clamp l.now }
    requires name { blank.name ≡ L.name }
    requires parts { blank.parts ≡ L.parts }
    requires some { 0 < blank.parts }
    ensures { rows.new ≡ metric_rows columns.now l.now steps }
{
    let mut counter = Steps::<L>::new(blank);
    let mut row = OUTSIDE;
    rows[0] = row;
    for t in 0..steps {
        let next = outer_forward(row, numbers_at(columns, l, t), &mut counter);
        row = next;
        rows[t + 1] = row;
    }
}

/// The state before a step on the best path to `state`, by the path metrics before the step and the a-priori numbers of
/// its outputs.
fn survivor(row: &[i32; 4], l: [i32; 3], state: usize) -> usize
    requires row { AllWithin potential_most row.now }
    requires l { AllWithin clamp l }
    requires state { state < 4 }
    ensures state { result ≡ survivor (number_at row.now) (edge_sum l) state }
    ensures low { result < 4 }
{
    let input = state / 2;
    let none = 2 * (state % 2);
    let one = none + 1;
    if row[none] + edge_score(l, none, input) < row[one] + edge_score(l, one, input) {
        one
    } else {
        none
    }
}

/// Writes input `t`, where it is one of the word's.
fn put_input(u: &mut [u8], t: usize, input: u8)
    ensures here { t < length u.old → slice_index u.new t ≡ input }
    ensures others { (j : ℕ) → j ≢ t → slice_index u.new j ≡ slice_index u.old j }
{
    if t < u.len() {
        u[t] = input;
    }
}

/// Writes the word of the best path to state 0, from its last input to its first.
fn trace_back(columns: &[[bool; 3]], l: &[i32], rows: &[[i32; 4]], u: &mut [u8])
    requires columns { AreColumns columns.now }
    requires free { length u.old ≤ 10078 }
    requires l { length l.now ≡ kept_before columns.now (length u.old + 2) }
    requires short { length l.now ≤ codeword_bits }
    requires within { AllWithin clamp l.now }
    requires rows { rows.now ≡ metric_rows columns.now l.now (length u.old + 2) }
    ensures { (j : ℕ) → j < length u.old
        → slice_index u.new j ≡ slice_index (traced (survivor_at columns.now l.now) (length u.old + 2) 0) j }
{
    let mut state = 0;
    for t in (0..u.len() + 2).rev() {
        put_input(u, t, (state / 2) as u8);
        state = survivor(&rows[t], numbers_at(columns, l, t), state);
    }
}

/// Writes the best word and the path metrics as its potentials, and gives the word's score.
///
/// The best word has the greatest outer score, and comes before the others that score as much when they are read from
/// the last bit to the first, 0 before 1. The puncturing `columns`, the a-priori numbers `l` of the kept code bits, and
/// how many bits `u` has are as in [`hpe_trellis::outer_soft`]; two zero bits end the word. `rows` has four potentials
/// before each step and four after the last, `u.len() + 3` rows.
pub fn best_path(columns: &[[bool; 3]], l: &[i32], u: &mut [u8], rows: &mut [[i32; 4]]) -> i32
    requires columns { AreColumns columns.now }
    requires free { (2 ≤ length u.old) × (length u.old ≤ 10078) }
    requires l { (v : List ℕ) → length v ≡ length u.old + 2 → length l.now ≡ length (code_bits columns.now v) }
    requires short { length l.now ≤ codeword_bits }
    requires within { AllWithin clamp l.now }
    requires rows { length rows.old ≡ length u.old + 3 }
    ensures word { u.new ≡ best_word columns.now l.now (length u.old) }
    ensures best { IsBest columns.now l.now (length u.old) u.new }
    ensures score { result ≡ outer_score columns.now l.now u.new }
    ensures rows { rows.new ≡ metric_rows columns.now l.now (length u.old + 2) }
    ensures size { PotentialsWithin potential_most rows.new }
    ensures accepted { IsPathAnswer columns.now l.now u.new rows.new (Ok result) }
{
    let steps = u.len() + 2;
    metric_rows::<Brand>(steps, columns, l, rows, Blank::new(1));
    trace_back(columns, l, rows, u);
    rows[steps][0]
}

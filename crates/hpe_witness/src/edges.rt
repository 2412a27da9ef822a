//! What the edges of the outer trellis score, one at a time.
//!
//! State 2a + b stands for the last input a and the input b before it. Input u leads to state 2u + a.
ghost use Rattle.std.specs.Prelude.{◌≡◌, ◌<◌, ◌≤◌, ◌+◌, ◌==◌, ℕ, pos, length, if◌then◌else◌, slice_index};
ghost use Rattle.hpe_base.specs.Bits.{AreBits};
ghost use Rattle.hpe_base.specs.Sizes.{Within, AllWithin};
ghost use Rattle.hpe_base.specs.Parameters.{clamp, codeword_bits};
ghost use Rattle.hpe_base.specs.ConvolutionalCode.{AreColumns};
ghost use Rattle.hpe_base.specs.Termination.{terminated};
ghost use Rattle.hpe_lane.specs.Bounds.{outputs_most};
ghost use Rattle.hpe_lane.specs.OuterStage.{edge_sum};
ghost use Rattle.hpe_trellis.specs.OuterTrellis.{kept_before, outer_edge};

use hpe_code::kept_length;
use hpe_trellis::step_numbers;

/// The number where the output is 1.
fn chosen(output: usize, number: i32) -> i32
    requires { Within clamp number }
    ensures number { result ≡ (if output == 1 then number else pos 0) }
    ensures size { Within clamp result }
{
    if output == 1 { number } else { 0 }
}

/// What the edge of a state and an input scores, by the a-priori numbers of the step's three outputs.
pub fn edge_score(l: [i32; 3], state: usize, input: usize) -> i32
    requires l { AllWithin clamp l }
    requires state { state < 4 }
    requires input { input < 2 }
    ensures score { result ≡ edge_sum l state input }
    ensures size { Within outputs_most result }
{
    let first = (input + state % 2) % 2;
    let second = (input + state / 2 + state % 2) % 2;
    chosen(first, l[0]) + (chosen(second, l[1]) + chosen(second, l[2]))
}

/// The a-priori numbers of the three outputs of step `t`, 0 for those that aren't kept.
pub fn numbers_at(columns: &[[bool; 3]], l: &[i32], t: usize) -> [i32; 3]
    requires columns { AreColumns columns.now }
    requires few { t < 10080 }
    requires room { kept_before columns.now (t + 1) ≤ length l.now }
    requires short { length l.now ≤ codeword_bits }
    requires within { AllWithin clamp l.now }
    ensures edge { (p x : ℕ) → edge_sum result p x ≡ outer_edge columns.now l.now t p x }
    ensures within { AllWithin clamp result }
{
    step_numbers(&columns[t % columns.len()], l, kept_length(columns, t))
}

/// The input of step `t`: a bit of the word, or 0 after it.
pub fn input_at(u: &[u8], t: usize) -> usize
    requires { AreBits u.now }
    ensures input { result ≡ slice_index (terminated u.now) t }
    ensures bit { result < 2 }
{
    if t < u.len() { usize::from(u[t]) } else { 0 }
}

//! One stage of the outer trellis.
//!
//! State 2a + b stands for the last input a and the input b before it. Input u, 0 or 1, leads to state 2u + a, and gives
//! the three outputs of the convolutional code, of which the last two are the same: so the eight edges have four scores.
//! The sums of states and edges are one vector of eight, whose halves are compared.
ghost use Rattle.std.specs.Prelude.{◌≡◌, ℕ, ◌+◌, ◌*◌, ◌/◌, ◌%◌, ◌<◌, ◌^◌, ◌+ℤ◌};
ghost use Rattle.std.specs.Int.{int_max};
ghost use Rattle.hpe_base.specs.Sizes.{number_at, AllWithin};
ghost use Rattle.hpe_lane.specs.OuterStage.{outer_next, edge_sum, AreGreaterSums, AreOuterSoft, IsOuterBack, IsOuterForward, outer_after};
ghost use Rattle.hpe_lane.specs.OuterSums.{chosen_after};
ghost use Rattle.hpe_base.specs.Parameters.{clamp};
ghost use Rattle.hpe_lane.specs.Bounds.{row_most, IsRow, after_most, outputs_most};

use crate::lanes::{differences_four, forward_eight};
use hpe_base::Steps;
use std::sync::ledger::Ledger;

/// The scores of the edges that lead to the states: first of those that leave states 0 and 2, then of those that leave
/// states 1 and 3.
#[inline(always)]
fn edges_to(l: [i32; 3]) -> [i32; 8]
    requires l { AllWithin clamp l }
    ensures even { (q : ℕ) → q < 4 → number_at result q ≡ edge_sum l (2 * (q % 2)) (q / 2) }
    ensures odd { (q : ℕ) → q < 4 → number_at result (4 + q) ≡ edge_sum l (2 * (q % 2) + 1) (q / 2) }
    ensures small { IsRow 8 outputs_most result }
{
    let second = l[1] + l[2];
    let all = l[0] + second;
    [0, second, all, l[0], all, l[0], 0, second]
}

/// For each state, the greater score of the two edges that lead to it.
#[inline(always)]
fn forward_row(row: [i32; 4], l: [i32; 3]) -> [i32; 4]
    requires row { IsRow 4 row_most row }
    requires l { AllWithin clamp l }
    ensures { AreGreaterSums (λ q. edge_sum l (2 * (q % 2)) (q / 2))
        (λ q. edge_sum l (2 * (q % 2) + 1) (q / 2)) row result }
{
    let edges = edges_to(l);
    forward_eight(row, edges)
}

/// What the states score after a stage: for each, the greatest of what a state scores before the stage and its edge to
/// that state.
///
/// `row` is what they score before it, each at most 600,000,000 in size, and `l` the a-priori numbers of the stage's
/// three outputs, 0 for one that isn't kept.
#[inline(always)]
pub fn outer_forward<L: Ledger>(row: [i32; 4], l: [i32; 3], steps: &mut Steps<L>) -> [i32; 4]
    requires row { IsRow 4 row_most row }
    requires l { AllWithin clamp l }
    requires room { steps.old < 2 ^ 60 }
    ensures row { IsOuterForward l row result }
    ensures step { steps.new ≡ steps.old + 1 }
{
    let next = forward_row(row, l);
    steps.tick();
    next
}

/// What each state scores from the stage on with input 0, and what with input 1.
#[inline(always)]
pub(crate) fn afters(l: [i32; 3], back: [i32; 4]) -> ([i32; 4], [i32; 4])
    requires back { IsRow 4 row_most back }
    requires l { AllWithin clamp l }
    ensures zero { (p : ℕ) → p < 4 → number_at result.0 p ≡ edge_sum l p 0 +ℤ number_at back (outer_next p 0) }
    ensures one { (p : ℕ) → p < 4 → number_at result.1 p ≡ edge_sum l p 1 +ℤ number_at back (outer_next p 1) }
{
    let second = l[1] + l[2];
    let all = l[0] + second;
    (
        [back[0], all + back[0], second + back[1], l[0] + back[1]],
        [all + back[2], back[2], l[0] + back[3], second + back[3]],
    )
}

/// The greater of two numbers, place by place.
#[inline(always)]
pub(crate) fn greater_of(zero: [i32; 4], one: [i32; 4]) -> [i32; 4]
    requires zero { IsRow 4 after_most zero }
    requires one { IsRow 4 after_most one }
    ensures { (p : ℕ) → p < 4 → number_at result p ≡ int_max (number_at zero p) (number_at one p) }
{
    [
        zero[0].max(one[0]),
        zero[1].max(one[1]),
        zero[2].max(one[2]),
        zero[3].max(one[3]),
    ]
}

/// The soft values of the input and of the three outputs, where a state scores `zero` from the stage on with input 0
/// and `one` with input 1.
#[inline(always)]
fn soft_values(fore: [i32; 4], zero: [i32; 4], one: [i32; 4]) -> [i32; 4]
    requires fore { IsRow 4 row_most fore }
    requires zero { IsRow 4 after_most zero }
    requires one { IsRow 4 after_most one }
    ensures { AreOuterSoft fore (chosen_after zero one) result }
{
    // the first output isn't the input where b is 1, the second and third where one of a and b is
    differences_four(fore, zero, one)
}

/// What the states score from a stage on, and the soft values of the stage's input and of its three outputs.
///
/// `fore` is what the states score before the stage, `back` what they score after it, each at most 600,000,000 in size,
/// and `l` the a-priori numbers of the three outputs, 0 for one that isn't kept.
#[inline(always)]
pub fn outer_back<L: Ledger>(
    fore: [i32; 4],
    l: [i32; 3],
    back: [i32; 4],
    steps: &mut Steps<L>,
) -> ([i32; 4], [i32; 4])
    requires fore { IsRow 4 row_most fore }
    requires l { AllWithin clamp l }
    requires back { IsRow 4 row_most back }
    requires room { steps.old < 2 ^ 60 }
    ensures row { IsOuterBack l back result.0 }
    ensures soft { AreOuterSoft fore (outer_after l back) result.1 }
    ensures step { steps.new ≡ steps.old + 1 }
{
    steps.tick();
    let (zero, one) = afters(l, back);
    let row = greater_of(zero, one);
    let soft = soft_values(fore, zero, one);
    (row, soft)
}

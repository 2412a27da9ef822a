//! The kernels as plain loops over their definitions, with the contracts of those on lanes.
//!
//! They say what a kernel does without saying how it is made fast, so that a reader can hold the two beside each other,
//! and a test compares what both give. Where a kernel on lanes has less than a whole vector left, it goes on with the
//! plain one.
ghost use Rattle.std.specs.Prelude.{◌≡◌, ℕ, ◌+◌, ◌-◌, ◌*◌, ◌/◌, ◌%◌, ◌<◌, ◌≤◌, ◌^◌, pos, ◌+ℤ◌, ◌-ℤ◌, ◌≤ℤ◌, length, slice_index};
ghost use Rattle.std.specs.Int.{int_max};
ghost use Rattle.hpe_base.specs.Sizes.{number_at, Within, AllWithin};
ghost use Rattle.hpe_base.specs.Greatest.{IsGreatest, IsSoft};
ghost use Rattle.hpe_lane.specs.Edges.{gray_from, edge_of, HasParity, AreEdgeScores};
ghost use Rattle.hpe_lane.specs.Near.{Near};
ghost use Rattle.hpe_lane.specs.OuterStage.{edge_sum, AreGreaterSums, AreOuterSoft, IsOuterBack, IsOuterForward, outer_after};
ghost use Rattle.hpe_lane.specs.OuterSums.{best_sum, chosen_after};
ghost use Rattle.hpe_base.specs.Parameters.{clamp};
ghost use Rattle.hpe_lane.specs.Bounds.{edge_most, fore_most, row_most, IsRow, after_most, apart_most, around_most};
ghost use Rattle.hpe_lane.specs.Stages.{AreJoined, AreListSoft, AreStageSoft, IsBackStep, IsForwardStep, AreEdges, IsStage};

use crate::outer::{afters, greater_of};
use hpe_base::Steps;
use std::sync::ledger::Ledger;

/// At place `v`, the sum of those `l[i]` at which bit `i` of `v` differs from the bit before it.
pub fn gray_scores(l: &[i32], out: &mut [i32])
    requires few { (2 ≤ length l.now) × (length l.now ≤ 8) }
    requires size { length out.old ≡ 2 ^ length l.now }
    requires l { AllWithin clamp l.now }
    ensures { (v : ℕ) → v < 2 ^ length l.now → number_at out.new v ≡ gray_from 0 l.now v }
{
    let m = l.len();
    out[0] = 0;
    let mut half = 1;
    for k in 0..m {
        let (low, high) = out.split_at_mut(half);
        mirror(low, &mut high[..half], l[m - 1 - k]);
        half *= 2;
    }
}

/// Writes `high[j] = x + low[n - 1 - j]`.
#[inline(always)]
pub(crate) fn mirror(low: &[i32], high: &mut [i32], x: i32)
    requires same { length low.now ≡ length high.old }
    requires low { AllWithin (7 * clamp) low.now }
    requires x { (x ≤ℤ pos clamp) × (pos 0 ≤ℤ (x +ℤ pos clamp)) }
    ensures { (j : ℕ) → j < length low.now → number_at high.new j ≡ x +ℤ number_at low.now (length low.now - 1 - j) }
{
    let n = low.len();
    for (j, place) in high.iter_mut().enumerate() {
        *place = x + low[n - 1 - j];
    }
}

/// From each state, what each symbol scores: its count, and each `l[i]` whose input bit is 1.
pub fn edge_scores(counts: &[u16], l: &[i32], from0: &mut [i32], from1: &mut [i32])
    requires stage { IsStage counts.now l.now }
    requires from0 { length from0.old ≡ 2 ^ length l.now }
    requires from1 { length from1.old ≡ 2 ^ length l.now }
    ensures from0 { AreEdgeScores 0 counts.now l.now from0.new }
    ensures from1 { AreEdgeScores 1 counts.now l.now from1.new }
{
    gray_scores(l, from0);
    add_mirrored(counts, from0, from1);
    add_counts(counts, from0);
}

/// Writes `sums[v] = counts[v] + scores[n - 1 - v]`.
fn add_mirrored(counts: &[u16], scores: &[i32], sums: &mut [i32])
    requires same { length counts.now ≡ length scores.now }
    requires same_sums { length sums.old ≡ length scores.now }
    requires most { (i : ℕ) → slice_index counts.now i ≤ clamp }
    requires scores { AllWithin (8 * clamp) scores.now }
    ensures { (v : ℕ) → v < length scores.now
        → number_at sums.new v ≡ pos (slice_index counts.now v) +ℤ number_at scores.now (length scores.now - 1 - v) }
{
    let n = scores.len();
    for (v, place) in sums.iter_mut().enumerate() {
        *place = counts[v] as i32 + scores[n - 1 - v];
    }
}

/// Adds the count at each place.
fn add_counts(counts: &[u16], scores: &mut [i32])
    requires same { length counts.now ≡ length scores.old }
    requires most { (i : ℕ) → slice_index counts.now i ≤ clamp }
    requires scores { AllWithin (8 * clamp) scores.old }
    ensures { (v : ℕ) → v < length counts.now
        → number_at scores.new v ≡ pos (slice_index counts.now v) +ℤ number_at scores.old v }
{
    for (v, place) in scores.iter_mut().enumerate() {
        *place += counts[v] as i32;
    }
}

/// The greatest of the scores at those places whose bits under the mask are even in number, and the greatest of the
/// others.
#[inline(always)]
pub fn best_by_parity(scores: &[i32], mask: u32) -> [i32; 2]
    requires low { 1 ≤ mask }
    requires high { mask < length scores.now }
    ensures even { IsGreatest (HasParity (length scores.now) mask 0) (number_at scores.now) (number_at result 0) }
    ensures odd { IsGreatest (HasParity (length scores.now) mask 1) (number_at scores.now) (number_at result 1) }
{
    let first_odd = 1usize << mask.trailing_zeros();
    let mask = mask as usize;
    let mut even = scores[0];
    let mut odd = scores[first_odd];
    for v in 0..scores.len() {
        if (v & mask).count_ones() % 2 == 0 {
            even = even.max(scores[v]);
        } else {
            odd = odd.max(scores[v]);
        }
    }
    [even, odd]
}

/// At place `b`, the greatest of `row[s] + from_s[v]` over both `s` and all `v` that end in `b`.
pub fn step_forward<L: Ledger>(
    row: [i32; 2],
    from0: &[i32],
    from1: &[i32],
    steps: &mut Steps<L>,
) -> [i32; 2]
    requires some { 2 ≤ length from0.now }
    requires same { length from1.now ≡ length from0.now }
    requires row { IsRow 2 fore_most row }
    requires edges0 { AllWithin edge_most from0.now }
    requires edges1 { AllWithin edge_most from1.now }
    requires room { steps.old < 2 ^ 60 }
    ensures row { IsForwardStep (length from0.now) (edge_of from0.now from1.now) row result }
    ensures step { steps.new ≡ steps.old + 1 }
{
    steps.tick();
    let first = best_by_parity(from0, 1);
    let second = best_by_parity(from1, 1);
    let even = (row[0] + first[0]).max(row[1] + second[0]);
    let odd = (row[0] + first[1]).max(row[1] + second[1]);
    [even, odd]
}

/// The backward row before the stage, and the soft values of its input bits.
pub fn step_back<L: Ledger>(
    fore: [i32; 2],
    from0: &[i32],
    from1: &[i32],
    back: [i32; 2],
    out: &mut [i32],
    steps: &mut Steps<L>,
) -> [i32; 2]
    requires edges { AreEdges (length out.old) from0.now from1.now }
    requires fore { IsRow 2 fore_most fore }
    requires back { IsRow 2 row_most back }
    requires room { steps.old < 2 ^ 60 }
    ensures row { IsBackStep (length from0.now) (edge_of from0.now from1.now) back result }
    ensures soft { AreStageSoft (length out.old) (length from0.now) (edge_of from0.now from1.now) fore back out.new }
    ensures step { steps.new ≡ steps.old + 1 }
{
    steps.tick();
    let mut joint = [0; 256];
    write_soft(fore, from0, from1, back, &mut joint[..from0.len()], out);
    let first = best_after(from0, back);
    let second = best_after(from1, back);
    [first, second]
}

/// The greatest score of a state's edges with what comes after them.
fn best_after(from: &[i32], back: [i32; 2]) -> i32
    requires some { 2 ≤ length from.now }
    requires edges { AllWithin edge_most from.now }
    requires back { IsRow 2 row_most back }
    ensures { IsGreatest (λ (v : ℕ). v < length from.now) (λ v. number_at from.now v +ℤ number_at back (v % 2)) result }
{
    let best = best_by_parity(from, 1);
    (back[0] + best[0]).max(back[1] + best[1])
}

/// The soft values of the input bits, with a list of the edges' length for the work.
///
/// The edges of state 1 are read backwards: where all bits of a symbol are turned, so is its first input bit, and no
/// other. With the other state the edge has the same input bits, so one list holds the better of the two.
fn write_soft(
    fore: [i32; 2],
    from0: &[i32],
    from1: &[i32],
    back: [i32; 2],
    joint: &mut [i32],
    out: &mut [i32],
)
    requires edges { AreEdges (length out.old) from0.now from1.now }
    requires joint { length joint.old ≡ 2 ^ length out.old }
    requires fore { IsRow 2 fore_most fore }
    requires back { IsRow 2 row_most back }
    ensures { AreStageSoft (length out.old) (length from0.now) (edge_of from0.now from1.now) fore back out.new }
{
    let around0 = [fore[0] + back[0], fore[0] + back[1]];
    let around1 = [fore[1] + back[1], fore[1] + back[0]];
    join(from0, around0, from1, around1, joint);
    fold_soft(joint, out);
}

/// At each place the greater score of that edge of state 0 and of its mirror image of state 1. What stands around an
/// edge goes by the place modulo 2.
fn join(from0: &[i32], around0: [i32; 2], from1: &[i32], around1: [i32; 2], joint: &mut [i32])
    requires fours { length joint.old % 4 ≡ 0 }
    requires from0 { length from0.now ≡ length joint.old }
    requires from1 { length from1.now ≡ length joint.old }
    requires around0 { IsRow 2 around_most around0 }
    requires around1 { IsRow 2 around_most around1 }
    requires edges0 { AllWithin edge_most from0.now }
    requires edges1 { AllWithin edge_most from1.now }
    ensures { AreJoined (length joint.old) from0.now around0 from1.now around1 joint.new }
{
    let n = joint.len();
    for k in 0..n / 4 {
        let v = 4 * k;
        join_four(
            &from0[v..v + 4],
            around0,
            &from1[n - 4 - v..n - v],
            around1,
            &mut joint[v..v + 4],
        );
    }
}

/// The same for four places, side by side.
#[inline(always)]
pub(crate) fn join_four(
    from0: &[i32],
    around0: [i32; 2],
    from1: &[i32],
    around1: [i32; 2],
    joint: &mut [i32],
)
    requires four { length joint.old ≡ 4 }
    requires from0 { length from0.now ≡ 4 }
    requires from1 { length from1.now ≡ 4 }
    requires around0 { IsRow 2 around_most around0 }
    requires around1 { IsRow 2 around_most around1 }
    requires edges0 { AllWithin edge_most from0.now }
    requires edges1 { AllWithin edge_most from1.now }
    ensures { AreJoined 4 from0.now around0 from1.now around1 joint.new }
{
    let a = (around0[0] + from0[0]).max(around1[0] + from1[3]);
    let b = (around0[1] + from0[1]).max(around1[1] + from1[2]);
    let c = (around0[0] + from0[2]).max(around1[0] + from1[1]);
    let d = (around0[1] + from0[3]).max(around1[1] + from1[0]);
    joint[0] = a;
    joint[1] = b;
    joint[2] = c;
    joint[3] = d;
}

/// The soft values of the input bits of a list's places.
///
/// The first input bit of a place is its first bit, so it tells the halves of the list apart. The other input bits are
/// those of the place, or of its mirror image, in a list of half the length, to which the list is folded.
fn fold_soft(scores: &mut [i32], out: &mut [i32])
    requires scores { length scores.old ≡ 2 ^ length out.old }
    requires near { Near apart_most (length scores.old) scores.old }
    ensures { AreListSoft (length out.old) (2 ^ length out.old) (length out.old) scores.old out.new }
{
    let mut size = scores.len();
    for (i, place) in out.iter_mut().enumerate() {
        *place = fold(&mut scores[..size]);
        size /= 2;
    }
}

/// Tells the halves apart, and leaves at each place of the first the greater of its score and that of its mirror image
/// in the second.
fn fold(scores: &mut [i32]) -> i32
    requires some { 2 ≤ length scores.old }
    requires even { length scores.old % 2 ≡ 0 }
    requires near { Near apart_most (length scores.old) scores.old }
    ensures soft { IsSoft (λ (v : ℕ). v < length scores.old) (λ v. v / (length scores.old / 2))
        (number_at scores.old) result }
    ensures folded { (v : ℕ) → v < length scores.old / 2
        → number_at scores.new v ≡ int_max (number_at scores.old v) (number_at scores.old (length scores.old - 1 - v)) }
{
    let half = scores.len() / 2;
    let (low, high) = scores.split_at_mut(half);
    let soft = greatest(high) - greatest(low);
    raise(low, high);
    soft
}

/// Raises each score to that of its mirror image.
fn raise(low: &mut [i32], high: &[i32])
    requires same { length high.now ≡ length low.old }
    ensures { (v : ℕ) → v < length low.old
        → number_at low.new v ≡ int_max (number_at low.old v) (number_at high.now (length high.now - 1 - v)) }
{
    let n = high.len();
    for (v, place) in low.iter_mut().enumerate() {
        *place = (*place).max(high[n - 1 - v]);
    }
}

/// The greatest of all scores.
#[inline(always)]
pub(crate) fn greatest(scores: &[i32]) -> i32
    requires some { 1 ≤ length scores.now }
    ensures { IsGreatest (λ (v : ℕ). v < length scores.now) (number_at scores.now) result }
{
    let mut best = scores[0];
    for score in scores {
        best = best.max(*score);
    }
    best
}

/// The greater of `a + x` and `b + y`.
fn greater_sum(a: i32, x: i32, b: i32, y: i32) -> i32
    requires a { Within row_most a }
    requires x { Within after_most x }
    requires b { Within row_most b }
    requires y { Within after_most y }
    ensures { result ≡ int_max (a +ℤ x) (b +ℤ y) }
{
    (a + x).max(b + y)
}

/// For each state, the greater score of the two edges that lead to it.
fn forward_row(row: [i32; 4], l: [i32; 3]) -> [i32; 4]
    requires row { IsRow 4 row_most row }
    requires l { AllWithin clamp l }
    ensures { AreGreaterSums (λ q. edge_sum l (2 * (q % 2)) (q / 2))
        (λ q. edge_sum l (2 * (q % 2) + 1) (q / 2)) row result }
{
    let second = l[1] + l[2];
    let all = l[0] + second;
    let none = greater_sum(row[0], 0, row[1], all);
    let before = greater_sum(row[2], second, row[3], l[0]);
    let last = greater_sum(row[0], all, row[1], 0);
    let both = greater_sum(row[2], l[0], row[3], second);
    [none, before, last, both]
}

/// What the states score after a stage: for each, the greatest of what a state scores before the stage and its edge to
/// that state.
///
/// `row` is what they score before it, each at most 600,000,000 in size, and `l` the a-priori numbers of the stage's
/// three outputs, 0 for one that isn't kept.
pub fn outer_forward<L: Ledger>(row: [i32; 4], l: [i32; 3], steps: &mut Steps<L>) -> [i32; 4]
    requires row { IsRow 4 row_most row }
    requires l { AllWithin clamp l }
    requires room { steps.old < 2 ^ 60 }
    ensures row { IsOuterForward l row result }
    ensures step { steps.new ≡ steps.old + 1 }
{
    let next = forward_row(row, l);
    steps.tick();
    next
}

/// The greatest of the four sums.
fn greatest_sum(fore: [i32; 4], after: [i32; 4]) -> i32
    requires fore { IsRow 4 row_most fore }
    requires after { IsRow 4 after_most after }
    ensures { result ≡ best_sum (number_at fore) (number_at after) }
{
    let low = greater_sum(fore[0], after[0], fore[1], after[1]);
    let high = greater_sum(fore[2], after[2], fore[3], after[3]);
    low.max(high)
}

/// The greatest of the sums with `one` less the greatest of those with `zero`.
fn difference(fore: [i32; 4], zero: [i32; 4], one: [i32; 4]) -> i32
    requires fore { IsRow 4 row_most fore }
    requires zero { IsRow 4 after_most zero }
    requires one { IsRow 4 after_most one }
    ensures { result ≡ best_sum (number_at fore) (number_at one) -ℤ best_sum (number_at fore) (number_at zero) }
{
    greatest_sum(fore, one) - greatest_sum(fore, zero)
}

/// The soft values of the input and of the three outputs, where a state scores `zero` from the stage on with input 0
/// and `one` with input 1.
fn soft_values(fore: [i32; 4], zero: [i32; 4], one: [i32; 4]) -> [i32; 4]
    requires fore { IsRow 4 row_most fore }
    requires zero { IsRow 4 after_most zero }
    requires one { IsRow 4 after_most one }
    ensures { AreOuterSoft fore (chosen_after zero one) result }
{
    let input = difference(fore, zero, one);
    // the first output isn't the input where b is 1, the second and third where one of a and b is
    let first = difference(
        fore,
        [zero[0], one[1], zero[2], one[3]],
        [one[0], zero[1], one[2], zero[3]],
    );
    let second = difference(
        fore,
        [zero[0], one[1], one[2], zero[3]],
        [one[0], zero[1], zero[2], one[3]],
    );
    [input, first, second, second]
}

/// What the states score from a stage on, and the soft values of the stage's input and of its three outputs.
///
/// `fore` is what the states score before the stage, `back` what they score after it, each at most 600,000,000 in size,
/// and `l` the a-priori numbers of the three outputs, 0 for one that isn't kept.
pub fn outer_back<L: Ledger>(
    fore: [i32; 4],
    l: [i32; 3],
    back: [i32; 4],
    steps: &mut Steps<L>,
) -> ([i32; 4], [i32; 4])
    requires fore { IsRow 4 row_most fore }
    requires l { AllWithin clamp l }
    requires back { IsRow 4 row_most back }
    requires room { steps.old < 2 ^ 60 }
    ensures row { IsOuterBack l back result.0 }
    ensures soft { AreOuterSoft fore (outer_after l back) result.1 }
    ensures step { steps.new ≡ steps.old + 1 }
{
    steps.tick();
    let (zero, one) = afters(l, back);
    let row = greater_of(zero, one);
    let soft = soft_values(fore, zero, one);
    (row, soft)
}

//! What the symbols of a stage of the inner code score, by the numbers of their bits.
//!
//! Symbol v of m bits leaves the accumulator; the bits that entered it are the differences of neighbouring bits of v. So a
//! number counts where two neighbours differ, as in a Gray code: the scores of a list twice as long are those of the
//! list, and the same read backwards with one more number.
ghost use Rattle.std.specs.Prelude.{◌≡◌, ℕ, ◌+◌, ◌-◌, ◌*◌, ◌<◌, ◌≤◌, ◌^◌, pos, ◌+ℤ◌, ◌≤ℤ◌, length, slice_index};
ghost use Rattle.hpe_base.specs.Sizes.{number_at, AllWithin};
ghost use Rattle.hpe_lane.specs.Edges.{gray_from, AreEdgeScores};
ghost use Rattle.hpe_base.specs.Parameters.{clamp};
ghost use Rattle.hpe_lane.specs.Stages.{IsStage};

use crate::lanes::{add_eight, add_turned_eight, gray_eight, mirror_eight};
use crate::plain;

/// At place `v`, the sum of those `l[i]` at which bit `i` of `v` differs from the bit before it.
#[inline(always)]
pub fn gray_scores(l: &[i32], out: &mut [i32])
    requires few { (1 ≤ length l.now) × (length l.now ≤ 8) }
    requires size { length out.old ≡ 2 ^ length l.now }
    requires l { AllWithin clamp l.now }
    ensures { (v : ℕ) → v < 2 ^ length l.now → number_at out.new v ≡ gray_from 0 l.now v }
{
    let m = l.len();
    out[0] = 0;
    let mut half = 1;
    let mut done = 0;
    if m >= 3 {
        gray_eight(&l[m - 3..], &mut out[..8]);
        half = 8;
        done = 3;
    }
    for k in done..m {
        let (low, high) = out.split_at_mut(half);
        mirror(low, &mut high[..half], l[m - 1 - k]);
        half *= 2;
    }
}

/// Writes `high[j] = x + low[n - 1 - j]`.
#[inline(always)]
fn mirror(low: &[i32], high: &mut [i32], x: i32)
    requires same { length low.now ≡ length high.old }
    requires low { AllWithin (7 * clamp) low.now }
    requires x { (x ≤ℤ pos clamp) × (pos 0 ≤ℤ (x +ℤ pos clamp)) }
    ensures { (j : ℕ) → j < length low.now → number_at high.new j ≡ x +ℤ number_at low.now (length low.now - 1 - j) }
{
    let n = low.len();
    for k in 0..n / 8 {
        let j = 8 * k;
        mirror_eight(&low[n - 8 - j..n - j], &mut high[j..j + 8], x);
    }
    let whole = n / 8 * 8;
    plain::mirror(&low[..n - whole], &mut high[whole..], x);
}

/// From each state, what each symbol scores: its count, and each `l[i]` whose input bit is 1.
#[inline(always)]
pub fn edge_scores(counts: &[u16], l: &[i32], from0: &mut [i32], from1: &mut [i32])
    requires stage { IsStage counts.now l.now }
    requires from0 { length from0.old ≡ 2 ^ length l.now }
    requires from1 { length from1.old ≡ 2 ^ length l.now }
    ensures from0 { AreEdgeScores 0 counts.now l.now from0.new }
    ensures from1 { AreEdgeScores 1 counts.now l.now from1.new }
{
    gray_scores(l, from0);
    add_mirrored(counts, from0, from1);
    add_counts(counts, from0);
}

/// Writes `sums[v] = counts[v] + scores[n - 1 - v]`.
#[inline(always)]
fn add_mirrored(counts: &[u16], scores: &[i32], sums: &mut [i32])
    requires same { length counts.now ≡ length scores.now }
    requires same_sums { length sums.old ≡ length scores.now }
    requires most { (i : ℕ) → slice_index counts.now i ≤ clamp }
    requires scores { AllWithin (8 * clamp) scores.now }
    ensures { (v : ℕ) → v < length scores.now
        → number_at sums.new v ≡ pos (slice_index counts.now v) +ℤ number_at scores.now (length scores.now - 1 - v) }
{
    let n = scores.len();
    for k in 0..n / 8 {
        let v = 8 * k;
        add_turned_eight(
            &counts[v..v + 8],
            &scores[n - 8 - v..n - v],
            &mut sums[v..v + 8],
        );
    }
    for v in n / 8 * 8..n {
        sums[v] = counts[v] as i32 + scores[n - 1 - v];
    }
}

/// Adds the count at each place.
#[inline(always)]
fn add_counts(counts: &[u16], scores: &mut [i32])
    requires same { length counts.now ≡ length scores.old }
    requires most { (i : ℕ) → slice_index counts.now i ≤ clamp }
    requires scores { AllWithin (8 * clamp) scores.old }
    ensures { (v : ℕ) → v < length counts.now
        → number_at scores.new v ≡ pos (slice_index counts.now v) +ℤ number_at scores.old v }
{
    let n = scores.len();
    for k in 0..n / 8 {
        let v = 8 * k;
        add_eight(&counts[v..v + 8], &mut scores[v..v + 8]);
    }
    for v in n / 8 * 8..n {
        scores[v] += counts[v] as i32;
    }
}

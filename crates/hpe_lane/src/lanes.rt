//! Eight scores side by side.
//!
//! Vectors live in the functions of this file alone, between slices or arrays of eight. Their clauses speak place by place
//! of whole numbers, so the kernels above know nothing of lanes. Where a function reads all places into a list that it
//! does not use, the reader of its proof gets from it that each number fits its lane.
ghost use Rattle.std.specs.Prelude.{◌≡◌, ℕ, ◌+◌, ◌-◌, ◌*◌, ◌<◌, ◌≤◌, pos, ◌+ℤ◌, ◌-ℤ◌, length, slice_index};
ghost use Rattle.std.specs.Int.{int_max};
ghost use Rattle.hpe_base.specs.Sizes.{number_at, Within, AllWithin};
ghost use Rattle.hpe_lane.specs.Edges.{gray_from};
ghost use Rattle.hpe_lane.specs.Eights.{soft_of_eight, top_of};
ghost use Rattle.hpe_lane.specs.Near.{Near};
ghost use Rattle.hpe_lane.specs.OuterSums.{best_sum, turned_by};
ghost use Rattle.hpe_base.specs.Parameters.{clamp};
ghost use Rattle.hpe_lane.specs.Bounds.{edge_most, row_most, IsRow, after_most, apart_most, around_most, outputs_most};
ghost use Rattle.hpe_lane.specs.OuterStage.{AreGreaterSums};
ghost use Rattle.hpe_lane.specs.Stages.{AreJoined};

use std::simd::prelude::*;

/// Writes `high[j] = x + low[7 - j]`.
pub(crate) fn mirror_eight(low: &[i32], high: &mut [i32], x: i32)
    requires eight { length low.now ≡ 8 }
    requires same { length high.old ≡ 8 }
    requires low { AllWithin (7 * clamp) low.now }
    requires x { Within (5 * clamp) x }
    ensures { (j : ℕ) → j < 8 → number_at high.new j ≡ x +ℤ number_at low.now (7 - j) }
{
    let sum = i32x8::from_slice(low).reverse() + i32x8::splat(x);
    sum.copy_to_slice(high);
}

/// Adds the count at each place.
pub(crate) fn add_eight(counts: &[u16], scores: &mut [i32])
    requires eight { length counts.now ≡ 8 }
    requires same { length scores.old ≡ 8 }
    requires most { (i : ℕ) → slice_index counts.now i ≤ clamp }
    requires scores { AllWithin (8 * clamp) scores.old }
    ensures { (v : ℕ) → v < 8 → number_at scores.new v ≡ pos (slice_index counts.now v) +ℤ number_at scores.old v }
{
    let counts = u16x8::from_slice(counts).cast::<i32>();
    let sum = counts + i32x8::from_slice(scores);
    sum.copy_to_slice(scores);
}

/// Raises each score to that of its mirror image.
pub(crate) fn raise_eight(low: &mut [i32], high: &[i32])
    requires eight { length low.old ≡ 8 }
    requires same { length high.now ≡ 8 }
    ensures { (v : ℕ) → v < 8 → number_at low.new v ≡ int_max (number_at low.old v) (number_at high.now (7 - v)) }
{
    let _low = [
        low[0], low[1], low[2], low[3], low[4], low[5], low[6], low[7],
    ];
    let _high = [
        high[0], high[1], high[2], high[3], high[4], high[5], high[6], high[7],
    ];
    let turned = i32x8::from_slice(high).reverse();
    let best = i32x8::from_slice(low).simd_max(turned);
    best.copy_to_slice(low);
}

/// Writes `sums[v] = counts[v] + scores[7 - v]`.
pub(crate) fn add_turned_eight(counts: &[u16], scores: &[i32], sums: &mut [i32])
    requires eight { length counts.now ≡ 8 }
    requires same { length scores.now ≡ 8 }
    requires same_sums { length sums.old ≡ 8 }
    requires most { (i : ℕ) → slice_index counts.now i ≤ clamp }
    requires scores { AllWithin (8 * clamp) scores.now }
    ensures { (v : ℕ) → v < 8 → number_at sums.new v ≡ pos (slice_index counts.now v) +ℤ number_at scores.now (7 - v) }
{
    let counts = u16x8::from_slice(counts).cast::<i32>();
    let sum = counts + i32x8::from_slice(scores).reverse();
    sum.copy_to_slice(sums);
}

/// For each state, the greater of the two sums that lead to it: of what a state scores and an edge.
pub(crate) fn forward_eight(row: [i32; 4], edges: [i32; 8]) -> [i32; 4]
    requires row { IsRow 4 row_most row }
    requires edges { IsRow 8 outputs_most edges }
    ensures { AreGreaterSums (λ q. number_at edges q) (λ q. number_at edges (4 + q)) row result }
{
    let before = i32x4::from_array(row).swizzle([0, 2, 0, 2, 1, 3, 1, 3]);
    let sums = before + i32x8::from_array(edges);
    let next = sums.extract::<0, 4>().simd_max(sums.extract::<4, 4>());
    next.to_array()
}

/// Raises each score to that of the block.
pub(crate) fn greater_eight(best: &mut [i32], block: &[i32])
    requires eight { length best.old ≡ 8 }
    requires same { length block.now ≡ 8 }
    ensures { (i : ℕ) → i < 8 → number_at best.new i ≡ int_max (number_at best.old i) (number_at block.now i) }
{
    let _best = [
        best[0], best[1], best[2], best[3], best[4], best[5], best[6], best[7],
    ];
    let _block = [
        block[0], block[1], block[2], block[3], block[4], block[5], block[6], block[7],
    ];
    let greater = i32x8::from_slice(best).simd_max(i32x8::from_slice(block));
    greater.copy_to_slice(best);
}

/// The greatest of the even lanes and of the odd ones.
pub(crate) fn ends_of_eight(best: [i32; 8]) -> [i32; 2]
    ensures { (j : ℕ) → j < 2 → number_at result j ≡ top_of (number_at best) j (4 + j) (2 + j) (6 + j) }
{
    let _best = [
        best[0], best[1], best[2], best[3], best[4], best[5], best[6], best[7],
    ];
    let all = i32x8::from_array(best);
    let four = all.extract::<0, 4>().simd_max(all.extract::<4, 4>());
    let two = four.extract::<0, 2>().simd_max(four.extract::<2, 2>());
    two.to_array()
}

/// At each of eight places the greater score of that edge of state 0 and of its mirror image of state 1, with what
/// stands around them.
pub(crate) fn join_eight(
    from0: &[i32],
    around0: [i32; 2],
    from1: &[i32],
    around1: [i32; 2],
    joint: &mut [i32],
)
    requires eight { length joint.old ≡ 8 }
    requires from0 { length from0.now ≡ 8 }
    requires from1 { length from1.now ≡ 8 }
    requires around0 { IsRow 2 around_most around0 }
    requires around1 { IsRow 2 around_most around1 }
    requires edges0 { AllWithin edge_most from0.now }
    requires edges1 { AllWithin edge_most from1.now }
    ensures { AreJoined 8 from0.now around0 from1.now around1 joint.new }
{
    let first = i32x2::from_array(around0).swizzle([0, 1, 0, 1, 0, 1, 0, 1]);
    let second = i32x2::from_array(around1).swizzle([0, 1, 0, 1, 0, 1, 0, 1]);
    let straight = first + i32x8::from_slice(from0);
    let turned = second + i32x8::from_slice(from1).reverse();
    straight.simd_max(turned).copy_to_slice(joint);
}

/// The greatest sum with `one` less the greatest with `zero`, and the same with both exchanged at two of the places.
pub(crate) fn differences_four(fore: [i32; 4], zero: [i32; 4], one: [i32; 4]) -> [i32; 4]
    requires fore { IsRow 4 row_most fore }
    requires zero { IsRow 4 after_most zero }
    requires one { IsRow 4 after_most one }
    ensures { (k : ℕ) → k < 4 → number_at result k
        ≡ best_sum (number_at fore) (number_at (turned_by k one zero))
        -ℤ best_sum (number_at fore) (number_at (turned_by k zero one)) }
{
    let fore = i32x4::from_array(fore);
    let zero = fore + i32x4::from_array(zero);
    let one = fore + i32x4::from_array(one);
    let first = one.shuffle(zero, [0, 5, 2, 7]);
    let second = one.shuffle(zero, [0, 5, 6, 3]);
    let first_zero = zero.shuffle(one, [0, 5, 2, 7]);
    let second_zero = zero.shuffle(one, [0, 5, 6, 3]);
    let a = one
        .shuffle(first, [0, 2, 4, 6])
        .simd_max(one.shuffle(first, [1, 3, 5, 7]));
    let b = second
        .shuffle(second, [0, 2, 4, 6])
        .simd_max(second.shuffle(second, [1, 3, 5, 7]));
    let c = zero
        .shuffle(first_zero, [0, 2, 4, 6])
        .simd_max(zero.shuffle(first_zero, [1, 3, 5, 7]));
    let d = second_zero
        .shuffle(second_zero, [0, 2, 4, 6])
        .simd_max(second_zero.shuffle(second_zero, [1, 3, 5, 7]));
    let greatest = a
        .shuffle(b, [0, 2, 4, 6])
        .simd_max(a.shuffle(b, [1, 3, 5, 7]));
    let greatest_zero = c
        .shuffle(d, [0, 2, 4, 6])
        .simd_max(c.shuffle(d, [1, 3, 5, 7]));
    (greatest - greatest_zero).to_array()
}

/// The gray scores of three numbers.
pub(crate) fn gray_eight(l: &[i32], out: &mut [i32])
    requires three { length l.now ≡ 3 }
    requires eight { length out.old ≡ 8 }
    requires l { AllWithin clamp l.now }
    ensures { (v : ℕ) → v < 8 → number_at out.new v ≡ gray_from 0 l.now v }
{
    let none = i32x8::splat(0);
    let first = i32x8::splat(l[0]).shuffle(none, [8, 8, 8, 8, 0, 0, 0, 0]);
    let second = i32x8::splat(l[1]).shuffle(none, [8, 8, 0, 0, 0, 0, 8, 8]);
    let third = i32x8::splat(l[2]).shuffle(none, [8, 0, 0, 8, 8, 0, 0, 8]);
    let sum = first + (second + third);
    sum.copy_to_slice(out);
}

/// What the three input bits of eight places tell apart; the fourth number is the third.
pub(crate) fn softs_of_eight(scores: [i32; 8]) -> [i32; 4]
    requires near { Near apart_most 8 scores }
    ensures { (k : ℕ) → k < 4 → number_at result k ≡ soft_of_eight (number_at scores) k }
{
    let _scores = [
        scores[0], scores[1], scores[2], scores[3], scores[4], scores[5], scores[6], scores[7],
    ];
    let all = i32x8::from_array(scores);
    let pairs = all
        .swizzle([0, 2, 4, 6])
        .simd_max(all.swizzle([1, 3, 5, 7]));
    let halves = all.extract::<0, 4>().simd_max(all.extract::<4, 4>());
    let one = pairs
        .shuffle(halves, [2, 1, 5, 5])
        .simd_max(pairs.shuffle(halves, [3, 2, 6, 6]));
    let zero = pairs
        .shuffle(halves, [0, 0, 4, 4])
        .simd_max(pairs.shuffle(halves, [1, 3, 7, 7]));
    (one - zero).to_array()
}

/// The first eight scores.
pub(crate) fn first_eight(scores: &[i32]) -> [i32; 8]
    requires some { 8 ≤ length scores.now }
    ensures { (i : ℕ) → i < 8 → number_at result i ≡ number_at scores.now i }
{
    [
        scores[0], scores[1], scores[2], scores[3], scores[4], scores[5], scores[6], scores[7],
    ]
}

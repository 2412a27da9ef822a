//! The soft values of a stage's input bits, from one score for each symbol.
//!
//! A list of 2^m scores is folded m times to half its length. Each fold tells the two halves apart, which gives one
//! soft value, and keeps at each place the greater of it and its mirror image, since the input bits that are left are the
//! same there. The last eight scores are one vector, which gives the last three soft values at once.
ghost use Rattle.std.specs.Prelude.{◌≡◌, ℕ, ◌-◌, ◌/◌, ◌%◌, ◌<◌, ◌≤◌, ◌^◌, length};
ghost use Rattle.std.specs.Int.{int_max};
ghost use Rattle.hpe_base.specs.Sizes.{number_at};
ghost use Rattle.hpe_base.specs.Greatest.{IsGreatest, IsSoft};
ghost use Rattle.hpe_lane.specs.Folds.{Folded};
ghost use Rattle.hpe_lane.specs.Near.{Near};
ghost use Rattle.hpe_lane.specs.Stages.{AreListSoft};
ghost use Rattle.hpe_lane.specs.Bounds.{apart_most};

use crate::ends::best_ends;
use crate::lanes::{first_eight, raise_eight, softs_of_eight};
use crate::plain;
use std::marker::PhantomData;

/// The soft values of the input bits of a list's places.
///
/// The first input bit of a place is its first bit, so it tells the halves of the list apart. The other input bits are
/// those of the place, or of its mirror image, in a list of half the length, to which the list is folded. Nothing reads
/// `BITS`: a caller that gives each length its own has a copy for each, whose lengths the compiler knows.
#[inline(always)]
pub fn fold_soft<const BITS: usize>(scores: &mut [i32], out: &mut [i32])
    requires scores { length scores.old ≡ 2 ^ length out.old }
    requires near { Near apart_most (length scores.old) scores.old }
    ensures { AreListSoft (length out.old) (2 ^ length out.old) (length out.old) scores.old out.new }
{
    let m = out.len();
    if m < 3 {
        fold_turns(m, scores, out);
    } else {
        Then::<Then<Then<Then<Then<Last<BITS>>>>>>::fold(scores, out);
    }
}

/// The soft values of a list, with its first turns written out one after the other.
///
/// Where each turn has its own code, the compiler knows how long its lists are, and keeps short ones in vectors.
trait Turns {
    fn fold(scores: &mut [i32], out: &mut [i32])
        requires some { 3 ≤ length out.old }
        requires scores { length scores.old ≡ 2 ^ length out.old }
        requires near { Near apart_most (length scores.old) scores.old }
        ensures { AreListSoft (length out.old) (2 ^ length out.old) (length out.old) scores.old out.new };
}

/// No turn written out.
struct Last<const BITS: usize>;

/// One turn written out before those of another.
struct Then<T> {
    of: PhantomData<T>,
}

impl<const BITS: usize> Turns for Last<BITS> {
    #[inline(always)]
    fn fold(scores: &mut [i32], out: &mut [i32]) {
        let m = out.len();
        let (first, last) = out.split_at_mut(m - 3);
        fold_turns(m, scores, first);
        fold_eight(scores, last);
    }
}

impl<T: Turns> Turns for Then<T> {
    #[inline(always)]
    fn fold(scores: &mut [i32], out: &mut [i32]) {
        let m = out.len();
        if m == 3 {
            fold_eight(scores, out);
            return;
        }
        let half = scores.len() / 2;
        let (first, rest) = out.split_at_mut(1);
        fold_turns(m, scores, first);
        T::fold(&mut scores[..half], rest);
    }
}

/// As many of the soft values as `out` has places, of a list of 2^m scores.
#[inline(always)]
fn fold_turns(m: usize, scores: &mut [i32], out: &mut [i32])
    requires few { length out.old ≤ m }
    requires scores { length scores.old ≡ 2 ^ m }
    requires near { Near apart_most (length scores.old) scores.old }
    ensures folded { Folded m (length out.old) (m - length out.old) scores.old scores.new }
    ensures soft { AreListSoft m (2 ^ m) (length out.old) scores.old out.new }
{
    let mut size = scores.len();
    for (i, place) in out.iter_mut().enumerate() {
        *place = fold(&mut scores[..size]);
        size /= 2;
    }
}

/// The soft values of the three input bits of eight places.
#[inline(always)]
fn fold_eight(scores: &[i32], out: &mut [i32])
    requires eight { 8 ≤ length scores.now }
    requires three { length out.old ≡ 3 }
    requires near { Near apart_most 8 scores.now }
    ensures { AreListSoft 3 8 3 scores.now out.new }
{
    let ends = softs_of_eight(first_eight(scores));
    out[0] = ends[0];
    out[1] = ends[1];
    out[2] = ends[2];
}

/// Tells the halves apart, and leaves at each place of the first the greater of its score and that of its mirror image
/// in the second.
#[inline(always)]
fn fold(scores: &mut [i32]) -> i32
    requires some { 2 ≤ length scores.old }
    requires even { length scores.old % 2 ≡ 0 }
    requires near { Near apart_most (length scores.old) scores.old }
    ensures soft { IsSoft (λ (v : ℕ). v < length scores.old) (λ v. v / (length scores.old / 2))
        (number_at scores.old) result }
    ensures folded { (v : ℕ) → v < length scores.old / 2
        → number_at scores.new v ≡ int_max (number_at scores.old v) (number_at scores.old (length scores.old - 1 - v)) }
{
    let half = scores.len() / 2;
    let (low, high) = scores.split_at_mut(half);
    let soft = greatest(high) - greatest(low);
    raise(low, high);
    soft
}

/// Raises each score to that of its mirror image.
#[inline(always)]
fn raise(low: &mut [i32], high: &[i32])
    requires same { length high.now ≡ length low.old }
    ensures { (v : ℕ) → v < length low.old
        → number_at low.new v ≡ int_max (number_at low.old v) (number_at high.now (length high.now - 1 - v)) }
{
    let n = high.len();
    for k in 0..n / 8 {
        let v = 8 * k;
        raise_eight(&mut low[v..v + 8], &high[n - 8 - v..n - v]);
    }
    for v in n / 8 * 8..n {
        low[v] = low[v].max(high[n - 1 - v]);
    }
}

/// The greatest of all scores.
#[inline(always)]
fn greatest(scores: &[i32]) -> i32
    requires some { 1 ≤ length scores.now }
    ensures { IsGreatest (λ (v : ℕ). v < length scores.now) (number_at scores.now) result }
{
    if scores.len() < 8 {
        return plain::greatest(scores);
    }
    let best = best_ends(scores);
    best[0].max(best[1])
}

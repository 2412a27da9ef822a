//! The greatest scores by the last bit of the symbol, which is the state that an edge of the inner code leads to.
ghost use Rattle.std.specs.Prelude.{◌≡◌, ℕ, ◌*◌, ◌/◌, ◌%◌, ◌<◌, ◌≤◌, length};
ghost use Rattle.hpe_base.specs.Sizes.{number_at};
ghost use Rattle.hpe_base.specs.Greatest.{IsGreatest};
ghost use Rattle.hpe_lane.specs.Edges.{HasParity};

use crate::lanes::{ends_of_eight, first_eight, greater_eight};
use crate::plain;

/// The greatest of the scores at even places, and the greatest of those at odd places.
#[inline(always)]
pub(crate) fn best_ends(scores: &[i32]) -> [i32; 2]
    requires some { 2 ≤ length scores.now }
    ensures even { IsGreatest (HasParity (length scores.now) 1 0) (number_at scores.now) (number_at result 0) }
    ensures odd { IsGreatest (HasParity (length scores.now) 1 1) (number_at scores.now) (number_at result 1) }
{
    if scores.len() < 8 {
        return plain::best_by_parity(scores, 1);
    }
    let lanes = best_of_lanes(scores);
    let best = ends_of_eight(lanes);
    let mut even = best[0];
    let mut odd = best[1];
    for v in scores.len() / 8 * 8..scores.len() {
        if v % 2 == 0 {
            even = even.max(scores[v]);
        } else {
            odd = odd.max(scores[v]);
        }
    }
    [even, odd]
}

/// The greatest score of each lane, in the whole blocks of the list.
#[inline(always)]
fn best_of_lanes(scores: &[i32]) -> [i32; 8]
    requires some { 8 ≤ length scores.now }
    ensures { (i : ℕ) → i < 8
        → IsGreatest (λ (v : ℕ). (v < 8 * (length scores.now / 8)) × (v % 8 ≡ i)) (number_at scores.now)
        (number_at result i) }
{
    let mut best = first_eight(scores);
    for k in 1..scores.len() / 8 {
        greater_eight(&mut best, &scores[8 * k..8 * k + 8]);
    }
    best
}

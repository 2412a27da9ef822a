//! The greatest scores by the parity of some bits of the symbol.
//!
//! The parity of a place is that of its block of eight and that of its lane together. So whole blocks are compared, and
//! the lanes are told apart at the end.
ghost use Rattle.std.specs.Prelude.{◌≡◌, ℕ, ◌*◌, ◌/◌, ◌<◌, ◌≤◌, length};
ghost use Rattle.hpe_base.specs.Sizes.{number_at};
ghost use Rattle.hpe_base.specs.Greatest.{IsGreatest};
ghost use Rattle.hpe_lane.specs.Edges.{HasParity};
ghost use Rattle.hpe_lane.specs.Lanes.{IsBest, lane_of};

use crate::lanes::greater_eight;

/// So many scores are compared side by side.
const LANES: usize = 8;

/// The greatest of the scores at those places whose bits under the mask are even in number, and the greatest of the
/// others.
pub fn best_by_parity(scores: &[i32], mask: u32) -> [i32; 2]
    requires low { 1 ≤ mask }
    requires high { mask < length scores.now }
    ensures even { IsGreatest (HasParity (length scores.now) mask 0) (number_at scores.now) (number_at result 0) }
    ensures odd { IsGreatest (HasParity (length scores.now) mask 1) (number_at scores.now) (number_at result 1) }
{
    let first_odd = 1usize << mask.trailing_zeros();
    let mask = mask as usize;
    let best = best_of_blocks(scores, mask);
    let mut even = best[0].max(scores[0]);
    let mut odd = best[1].max(scores[first_odd]);
    for v in scores.len() / LANES * LANES..scores.len() {
        if (v & mask).count_ones() % 2 == 0 {
            even = even.max(scores[v]);
        } else {
            odd = odd.max(scores[v]);
        }
    }
    [even, odd]
}

/// The same for the whole blocks of the list.
fn best_of_blocks(scores: &[i32], mask: usize) -> [i32; 2]
    ensures even { IsBest (HasParity (length scores.now / 8 * 8) mask 0) (number_at scores.now) (number_at result 0) }
    ensures odd { IsBest (HasParity (length scores.now / 8 * 8) mask 1) (number_at scores.now) (number_at result 1) }
{
    if scores.len() < LANES {
        return [i32::MIN; 2];
    }
    let mut even = [i32::MIN; LANES];
    let mut odd = [i32::MIN; LANES];
    for j in 0..scores.len() / LANES {
        let v = j * LANES;
        if (v & mask).count_ones() % 2 == 0 {
            greater_eight(&mut even, &scores[v..v + LANES]);
        } else {
            greater_eight(&mut odd, &scores[v..v + LANES]);
        }
    }
    best_of_lanes(&even, &odd, mask)
}

/// The greatest scores of the lanes, where lanes of odd parity hold those of odd blocks for even and the other way
/// round.
fn best_of_lanes(even: &[i32], odd: &[i32], mask: usize) -> [i32; 2]
    requires even { length even.now ≡ 8 }
    requires odd { length odd.now ≡ 8 }
    ensures even { IsGreatest (λ (i : ℕ). i < 8) (lane_of even.now odd.now mask) (number_at result 0) }
    ensures odd { IsGreatest (λ (i : ℕ). i < 8) (lane_of odd.now even.now mask) (number_at result 1) }
{
    let mut first = even[0];
    let mut second = odd[0];
    for i in 1..LANES {
        if (i & mask).count_ones() % 2 == 0 {
            first = first.max(even[i]);
            second = second.max(odd[i]);
        } else {
            first = first.max(odd[i]);
            second = second.max(even[i]);
        }
    }
    [first, second]
}

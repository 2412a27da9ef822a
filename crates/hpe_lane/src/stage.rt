//! One stage of the inner trellis.
//!
//! Its states are the last bit of the accumulator, 0 and 1. Its inputs are the symbols v of m bits, each of which leads to
//! the state that is its last bit. An edge scores the count at its pulse position, and the number of each input bit that
//! is 1: `from0` and `from1` have the scores of the edges that leave state 0 and state 1.
//!
//! All edges to a state end in the same bit, so a step forward needs only the greatest score at even places and that at
//! odd ones, of each list. A step back gives a soft value for each input bit too, from one list of joint scores.
ghost use Rattle.std.specs.Prelude.{◌≡◌, ℕ, ◌+◌, ◌%◌, ◌<◌, ◌≤◌, ◌^◌, ◌+ℤ◌, length};
ghost use Rattle.hpe_base.specs.Sizes.{number_at, AllWithin};
ghost use Rattle.hpe_base.specs.Greatest.{IsGreatest};
ghost use Rattle.hpe_lane.specs.Edges.{edge_of};
ghost use Rattle.hpe_lane.specs.Bounds.{edge_most, fore_most, row_most, IsRow};
ghost use Rattle.hpe_lane.specs.Stages.{AreStageSoft, IsBackStep, IsForwardStep, AreEdges};

use crate::ends::best_ends;
use crate::fold::fold_soft;
use crate::join::join;
use hpe_base::Steps;
use std::sync::ledger::Ledger;

/// One stage: the counts and the numbers of its symbol.
#[derive(Clone, Copy)]
pub struct Stage<'a> {
    pub counts: &'a [u16],
    pub l: &'a [i32],
}

/// The rows that a stage stands between: what each state scores before it, and what from its end on.
#[derive(Clone, Copy)]
pub struct Between {
    pub fore: [i32; 2],
    pub back: [i32; 2],
}

/// At place `b`, the greatest of `row[s] + from_s[v]` over both `s` and all `v` that end in `b`.
#[inline(always)]
pub fn step_forward<L: Ledger>(
    row: [i32; 2],
    from0: &[i32],
    from1: &[i32],
    steps: &mut Steps<L>,
) -> [i32; 2]
    requires some { 2 ≤ length from0.now }
    requires same { length from1.now ≡ length from0.now }
    requires row { IsRow 2 fore_most row }
    requires edges0 { AllWithin edge_most from0.now }
    requires edges1 { AllWithin edge_most from1.now }
    requires room { steps.old < 2 ^ 60 }
    ensures row { IsForwardStep (length from0.now) (edge_of from0.now from1.now) row result }
    ensures step { steps.new ≡ steps.old + 1 }
{
    steps.tick();
    let first = best_ends(from0);
    let second = best_ends(from1);
    let even = (row[0] + first[0]).max(row[1] + second[0]);
    let odd = (row[0] + first[1]).max(row[1] + second[1]);
    [even, odd]
}

/// The backward row before the stage, and the soft values of its input bits. A caller that gives each order its own
/// `BITS` has a copy for each.
#[inline(always)]
pub fn step_back<L: Ledger, const BITS: usize>(
    fore: [i32; 2],
    from0: &[i32],
    from1: &[i32],
    back: [i32; 2],
    out: &mut [i32],
    steps: &mut Steps<L>,
) -> [i32; 2]
    requires edges { AreEdges (length out.old) from0.now from1.now }
    requires fore { IsRow 2 fore_most fore }
    requires back { IsRow 2 row_most back }
    requires room { steps.old < 2 ^ 60 }
    ensures row { IsBackStep (length from0.now) (edge_of from0.now from1.now) back result }
    ensures soft { AreStageSoft (length out.old) (length from0.now) (edge_of from0.now from1.now) fore back out.new }
    ensures step { steps.new ≡ steps.old + 1 }
{
    steps.tick();
    let mut joint = [0; 256];
    write_soft::<BITS>(fore, from0, from1, back, &mut joint[..from0.len()], out);
    let first = best_after(from0, back);
    let second = best_after(from1, back);
    [first, second]
}

/// The greatest score of a state's edges with what comes after them.
#[inline(always)]
fn best_after(from: &[i32], back: [i32; 2]) -> i32
    requires some { 2 ≤ length from.now }
    requires edges { AllWithin edge_most from.now }
    requires back { IsRow 2 row_most back }
    ensures { IsGreatest (λ (v : ℕ). v < length from.now) (λ v. number_at from.now v +ℤ number_at back (v % 2)) result }
{
    let best = best_ends(from);
    (back[0] + best[0]).max(back[1] + best[1])
}

/// The soft values of the input bits, with a list of the edges' length for the work.
///
/// The edges of state 1 are read backwards: where all bits of a symbol are turned, so is its first input bit, and no
/// other. With the other state the edge has the same input bits, so one list holds the better of the two.
#[inline(always)]
fn write_soft<const BITS: usize>(
    fore: [i32; 2],
    from0: &[i32],
    from1: &[i32],
    back: [i32; 2],
    joint: &mut [i32],
    out: &mut [i32],
)
    requires edges { AreEdges (length out.old) from0.now from1.now }
    requires joint { length joint.old ≡ 2 ^ length out.old }
    requires fore { IsRow 2 fore_most fore }
    requires back { IsRow 2 row_most back }
    ensures { AreStageSoft (length out.old) (length from0.now) (edge_of from0.now from1.now) fore back out.new }
{
    let around0 = [fore[0] + back[0], fore[0] + back[1]];
    let around1 = [fore[1] + back[1], fore[1] + back[0]];
    join(from0, around0, from1, around1, joint);
    fold_soft::<BITS>(joint, out);
}

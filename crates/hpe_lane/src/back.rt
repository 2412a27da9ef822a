//! A step back over a stage of the inner trellis by its best edges.
//!
//! The best edges, which a sweep forward has found, are enough for the backward row. For the soft values the edges of
//! both states are joined in one list, a block of eight at a time. Where all bits of a symbol are turned, so is its first
//! input bit, and no other. So a block and its mirror image from state 1 have the same sums, read backwards, and each its
//! own counts: no list of the edges of either state is made.
ghost use Rattle.std.specs.Prelude.{◌≡◌, ℕ, ◌+◌, ◌-◌, ◌*◌, ◌<◌, ◌≤◌, ◌^◌, ◌+ℤ◌, length};
ghost use Rattle.std.specs.Int.{int_max};
ghost use Rattle.hpe_base.specs.Sizes.{number_at};
ghost use Rattle.hpe_lane.specs.Bounds.{IsRow, around_most, edge_most, fore_most, row_most};
ghost use Rattle.hpe_lane.specs.Parts.{AreBestEdges, AreParts, joint_edge, joint_part, stage_edge};
ghost use Rattle.hpe_lane.specs.Stages.{AreStageSoft, IsBackStep, IsStage};

use crate::fold::fold_soft;
use crate::lanes::{add_eight, add_turned_eight, join_eight};
use crate::parts::{Parts, sums_of_block, write_parts};
use crate::stage::{Between, Stage};
use hpe_base::Steps;
use std::sync::ledger::Ledger;

/// The backward row before a stage of four bits at least, and the soft values of its input bits, from the stage's best
/// edges. `joint` is memory for as many scores as there are symbols.
///
/// A caller that gives each order its own `BITS` has a copy for each.
#[inline(always)]
pub fn step_back_by_best<L: Ledger, const BITS: usize>(
    stage: Stage,
    best: [i32; 4],
    between: Between,
    joint: &mut [i32],
    out: &mut [i32],
    steps: &mut Steps<L>,
) -> [i32; 2]
    requires stage { IsStage stage.counts.now stage.l.now }
    requires many { 4 ≤ length stage.l.now }
    requires best { AreBestEdges (length stage.l.now) (stage_edge stage.counts.now stage.l.now 0) best }
    requires fore { IsRow 2 fore_most between.fore }
    requires back { IsRow 2 row_most between.back }
    requires joint { length joint.old ≡ 2 ^ length stage.l.now }
    requires out { length out.old ≡ length stage.l.now }
    requires room { steps.old < 2 ^ 60 }
    ensures row { IsBackStep (2 ^ length stage.entry.l.now)
        (stage_edge stage.entry.counts.now stage.entry.l.now) between.back result }
    ensures soft { AreStageSoft (length stage.entry.l.now) (2 ^ length stage.entry.l.now)
        (stage_edge stage.entry.counts.now stage.entry.l.now) between.fore between.back out.new }
    ensures step { steps.new ≡ steps.old + 1 }
{
    steps.tick();
    write_soft_by_parts::<BITS>(stage, between, joint, out);
    back_by_best(stage, best, between.back)
}

/// The backward row before a stage, from its best edges.
#[inline(always)]
fn back_by_best(stage: Stage, best: [i32; 4], back: [i32; 2]) -> [i32; 2]
    requires stage { IsStage stage.counts.now stage.l.now }
    requires best { AreBestEdges (length stage.l.now) (stage_edge stage.counts.now stage.l.now 0) best }
    requires back { IsRow 2 row_most back }
    ensures { IsBackStep (2 ^ length stage.entry.l.now)
        (stage_edge stage.entry.counts.now stage.entry.l.now) back result }
{
    let first = after_best(best, back);
    let second = after_best(best_from_one(stage, best), back);
    [first, second]
}

/// The best edges from state 1, by those from state 0. The number of the first input bit counts where the first bit of
/// the symbol is the state.
#[inline(always)]
fn best_from_one(stage: Stage, best: [i32; 4]) -> [i32; 4]
    requires stage { IsStage stage.counts.now stage.l.now }
    requires best { AreBestEdges (length stage.l.now) (stage_edge stage.counts.now stage.l.now 0) best }
    ensures { AreBestEdges (length stage.entry.l.now)
        (stage_edge stage.entry.counts.now stage.entry.l.now 1) result }
{
    let x = stage.l[0];
    [best[0] + x, best[1] + x, best[2] - x, best[3] - x]
}

/// The greatest of a state's best edges with what comes after them.
#[inline(always)]
fn after_best(best: [i32; 4], back: [i32; 2]) -> i32
    requires best { IsRow 4 edge_most best }
    requires back { IsRow 2 row_most back }
    ensures { result ≡ int_max (number_at back 0 +ℤ int_max (number_at best 0) (number_at best 2))
        (number_at back 1 +ℤ int_max (number_at best 1) (number_at best 3)) }
{
    let even = best[0].max(best[2]);
    let odd = best[1].max(best[3]);
    (back[0] + even).max(back[1] + odd)
}

/// The soft values of the input bits.
#[inline(always)]
fn write_soft_by_parts<const BITS: usize>(
    stage: Stage,
    between: Between,
    joint: &mut [i32],
    out: &mut [i32],
)
    requires stage { IsStage stage.counts.now stage.l.now }
    requires many { 4 ≤ length stage.l.now }
    requires fore { IsRow 2 fore_most between.fore }
    requires back { IsRow 2 row_most between.back }
    requires joint { length joint.old ≡ 2 ^ length stage.l.now }
    requires out { length out.old ≡ length stage.l.now }
    ensures { AreStageSoft (length stage.entry.l.now) (2 ^ length stage.entry.l.now)
        (stage_edge stage.entry.counts.now stage.entry.l.now) between.fore between.back out.new }
{
    let fore = between.fore;
    let back = between.back;
    let around0 = [fore[0] + back[0], fore[0] + back[1]];
    let around1 = [fore[1] + back[1], fore[1] + back[0]];
    let mut blocks = [0; 32];
    let size = stage.counts.len() / 8;
    join_stage(stage, around0, around1, &mut blocks[..size], joint);
    fold_soft::<BITS>(joint, out);
}

/// The edges of both states in one list, with memory for what the first bits of each block score.
#[inline(always)]
fn join_stage(
    stage: Stage,
    around0: [i32; 2],
    around1: [i32; 2],
    blocks: &mut [i32],
    joint: &mut [i32],
)
    requires stage { IsStage stage.counts.now stage.l.now }
    requires many { 4 ≤ length stage.l.now }
    requires around0 { IsRow 2 around_most around0 }
    requires around1 { IsRow 2 around_most around1 }
    requires blocks { length blocks.old ≡ 2 ^ (length stage.l.now - 3) }
    requires joint { length joint.old ≡ 2 ^ length stage.l.now }
    ensures { (v : ℕ) → v < 2 ^ length stage.entry.l.now
        → number_at joint.new v ≡ joint_edge (2 ^ length stage.entry.l.now)
        (stage_edge stage.entry.counts.now stage.entry.l.now) around0 around1 v }
{
    let mut eight = [0; 8];
    write_parts(stage.l, blocks, &mut eight);
    let parts = Parts {
        counts: stage.counts,
        blocks,
        eight: &eight,
    };
    join_blocks(parts, around0, around1, joint);
}

/// The edges of both states in one list, block by block.
#[inline(always)]
fn join_blocks(parts: Parts, around0: [i32; 2], around1: [i32; 2], joint: &mut [i32])
    requires parts { AreParts parts.counts.now parts.blocks.now parts.eight.now }
    requires around0 { IsRow 2 around_most around0 }
    requires around1 { IsRow 2 around_most around1 }
    requires joint { length joint.old ≡ length parts.counts.now }
    ensures { (v : ℕ) → v < length parts.entry.counts.now → number_at joint.new v
        ≡ joint_part parts.entry.counts.now parts.entry.blocks.now parts.entry.eight.now around0 around1 v }
{
    for w in 0..parts.blocks.len() {
        join_block(parts, w, around0, around1, &mut joint[8 * w..8 * w + 8]);
    }
}

/// A block of state 0 and its mirror image of state 1.
#[inline(always)]
fn join_block(parts: Parts, w: usize, around0: [i32; 2], around1: [i32; 2], joint: &mut [i32])
    requires parts { AreParts parts.counts.now parts.blocks.now parts.eight.now }
    requires inside { w < length parts.blocks.now }
    requires around0 { IsRow 2 around_most around0 }
    requires around1 { IsRow 2 around_most around1 }
    requires joint { length joint.old ≡ 8 }
    ensures { (j : ℕ) → j < 8 → number_at joint.new j
        ≡ joint_part parts.entry.counts.now parts.entry.blocks.now parts.entry.eight.now
        around0 around1 (8 * w + j) }
{
    let sums = sums_of_block(parts, w);
    let mut from0 = sums;
    add_eight(&parts.counts[8 * w..8 * w + 8], &mut from0);
    let mirror = parts.blocks.len() - 1 - w;
    let mut from1 = [0; 8];
    add_turned_eight(&parts.counts[8 * mirror..8 * mirror + 8], &sums, &mut from1);
    join_eight(&from0, around0, &from1, around1, joint);
}

//! The best edges of a stage of the inner trellis, and a step forward by them.
//!
//! A symbol's first bit tells by which input bit a state is left, and its last bit to which state. An edge from state 1
//! scores what that from state 0 does, but for the number of the first input bit. So four edges are enough for both rows:
//! the best from state 0 by first bit and last bit.
ghost use Rattle.std.specs.Prelude.{◌≡◌, ℕ, ◌+◌, ◌-◌, ◌*◌, ◌/◌, ◌%◌, ◌<◌, ◌≤◌, ◌^◌, ◌+ℤ◌, ◌-ℤ◌, length};
ghost use Rattle.std.specs.Int.{int_max};
ghost use Rattle.hpe_base.specs.Greatest.{IsGreatest};
ghost use Rattle.hpe_base.specs.Parameters.{clamp};
ghost use Rattle.hpe_base.specs.Sizes.{number_at, Within};
ghost use Rattle.hpe_lane.specs.Bounds.{IsRow, fore_most};
ghost use Rattle.hpe_lane.specs.Parts.{AreBestEdges, AreParts, entry_most, part_edge, stage_edge};
ghost use Rattle.hpe_lane.specs.Stages.{IsForwardStep, IsStage};

use crate::lanes::{ends_of_eight, greater_eight};
use crate::parts::{Parts, edges_of_block, write_parts};
use crate::stage::Stage;
use hpe_base::Steps;
use std::sync::ledger::Ledger;

/// The best edges of a stage of four bits at least: at place `2 f + b` the best from state 0 whose symbol has the first
/// bit `f` and the last bit `b`.
#[inline(always)]
pub fn best_edges(counts: &[u16], l: &[i32]) -> [i32; 4]
    requires stage { IsStage counts.now l.now }
    requires many { 4 ≤ length l.now }
    ensures { AreBestEdges (length l.now) (stage_edge counts.now l.now 0) result }
{
    let mut blocks = [0; 32];
    let mut eight = [0; 8];
    best_with(counts, l, &mut blocks[..counts.len() / 8], &mut eight)
}

/// The same, with memory for what the numbers score in two parts.
#[inline(always)]
fn best_with(counts: &[u16], l: &[i32], blocks: &mut [i32], eight: &mut [i32]) -> [i32; 4]
    requires stage { IsStage counts.now l.now }
    requires many { 4 ≤ length l.now }
    requires blocks { length blocks.old ≡ 2 ^ (length l.now - 3) }
    requires eight { length eight.old ≡ 8 }
    ensures { AreBestEdges (length l.now) (stage_edge counts.now l.now 0) result }
{
    write_parts(l, blocks, eight);
    let parts = Parts {
        counts,
        blocks,
        eight,
    };
    let low = best_of_half(parts, 0);
    let high = best_of_half(parts, blocks.len() / 2);
    let low_ends = ends_of_eight(low);
    let high_ends = ends_of_eight(high);
    [low_ends[0], low_ends[1], high_ends[0], high_ends[1]]
}

/// The best edge of each lane, in half of the blocks from `first` on.
#[inline(always)]
fn best_of_half(parts: Parts, first: usize) -> [i32; 8]
    requires parts { AreParts parts.counts.now parts.blocks.now parts.eight.now }
    requires some { 2 ≤ length parts.blocks.now }
    requires inside { first + length parts.blocks.now / 2 ≤ length parts.blocks.now }
    ensures { (i : ℕ) → i < 8
        → IsGreatest (λ (v : ℕ). (v < 8 * (length parts.entry.blocks.now / 2)) × (v % 8 ≡ i))
        (λ v. part_edge parts.entry.counts.now parts.entry.blocks.now parts.entry.eight.now (8 * first + v))
        (number_at result i) }
{
    let mut best = edges_of_block(parts, first);
    for k in 1..parts.blocks.len() / 2 {
        let edges = edges_of_block(parts, first + k);
        greater_eight(&mut best, &edges);
    }
    best
}

/// What a state 0 would score that is as good as both states, for symbols with the first bit 0, and for those with a 1.
#[inline(always)]
pub(crate) fn row_by_halves(row: [i32; 2], x: i32) -> [i32; 2]
    requires row { IsRow 2 entry_most row }
    requires x { Within clamp x }
    ensures low { number_at result 0 ≡ int_max (number_at row 0) (number_at row 1 +ℤ x) }
    ensures high { number_at result 1 ≡ int_max (number_at row 0) (number_at row 1 -ℤ x) }
    ensures within { IsRow 2 fore_most result }
{
    let low = row[0].max(row[1] + x);
    let high = row[0].max(row[1] - x);
    [low, high]
}

/// The row after a stage, from the row before it and its best edges.
#[inline(always)]
pub fn step_by_best<L: Ledger>(
    stage: Stage,
    best: [i32; 4],
    row: [i32; 2],
    steps: &mut Steps<L>,
) -> [i32; 2]
    requires stage { IsStage stage.counts.now stage.l.now }
    requires best { AreBestEdges (length stage.l.now) (stage_edge stage.counts.now stage.l.now 0) best }
    requires row { IsRow 2 entry_most row }
    requires room { steps.old < 2 ^ 60 }
    ensures row { IsForwardStep (2 ^ length stage.entry.l.now)
        (stage_edge stage.entry.counts.now stage.entry.l.now) row result }
    ensures step { steps.new ≡ steps.old + 1 }
{
    steps.tick();
    let by_half = row_by_halves(row, stage.l[0]);
    let even = (by_half[0] + best[0]).max(by_half[1] + best[2]);
    let odd = (by_half[0] + best[1]).max(by_half[1] + best[3]);
    [even, odd]
}

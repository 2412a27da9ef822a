//! The forward sweep over the trellis of the inner code.
//!
//! A row has a number for each of the two states, which are the last bit of the accumulator: the greatest score of the
//! ways that lead there from the start of the word. A stage has a symbol of m bits, whose edges lead to the state that
//! is its last bit.
//!
//! Only the row before each window of 64 stages is kept. The backward sweep makes the rows of a window again when it
//! comes there: a third visit of each stage, for a row in 64 of the memory. Where a symbol has four bits or more, the first
//! visit leaves the best edges of the stage where its soft values will stand, so that the next one looks at no other.
ghost use Rattle.std.specs.Prelude.{◌≡◌, ℕ, ◌+◌, ◌<◌, ◌≤◌, ◌^◌, length};
ghost use Rattle.hpe_base.specs.Parameters.{symbol_bits};
ghost use Rattle.hpe_base.specs.Sizes.{number_at};
ghost use Rattle.hpe_lane.specs.Bounds.{IsRow};
ghost use Rattle.hpe_lane.specs.Parts.{entry_most, stage_edge};
ghost use Rattle.hpe_lane.specs.Stages.{IsForwardStep, IsStage};
ghost use Rattle.hpe_lane.specs.Windows.{windows};
ghost use Rattle.hpe_inner.specs.Sweeps.{AreEdgesKept, AreForwardRows, AreKeptRows, IsForwardRow, IsSweepable, KeepsEdges};

use crate::word::{Span, Word};
use hpe_base::Steps;
use hpe_lane::{Stage, WINDOW, best_edges, edge_scores, step_by_best, step_forward};
use std::sync::ledger::Ledger;

/// The row before the first stage: a word starts in state 0, and no word can make up for another start.
const START: [i32; 2] = [0, -1_073_741_824];

/// From so many bits a symbol on, the best edges of a stage are kept in the first places of its soft values.
pub const KEPT_FROM: usize = 4;

/// Writes the row before each window, and leaves the best edges of each stage in its places of `out`.
pub fn forward_sweep<L: Ledger, const BITS: usize>(
    word: Word,
    kept: &mut [[i32; 2]],
    out: &mut [i32],
    steps: &mut Steps<L>,
)
    requires word { IsSweepable word.order word.symbols word.counts.now word.l.now }
    requires kept { length kept.old ≡ windows word.symbols }
    requires out { length out.old ≡ length word.l.now }
    requires room { steps.old + word.symbols ≤ 2 ^ 60 }
    ensures kept { AreKeptRows (symbol_bits word.entry.order) word.entry.symbols
        word.entry.counts.now word.entry.l.now kept.new }
    ensures edges { AreEdgesKept (symbol_bits word.entry.order) 0 word.entry.symbols
        word.entry.counts.now word.entry.l.now out.new }
    ensures cost { steps.new ≡ steps.old + word.entry.symbols }
{
    let m = word.order.bits() as usize;
    let size = word.order.slots();
    let mut even = START[0];
    let mut odd = START[1];
    for t in 0..word.symbols {
        if t % WINDOW == 0 {
            kept[t / WINDOW] = [even, odd];
        }
        let stage = Stage {
            counts: &word.counts[t * size..(t + 1) * size],
            l: &word.l[t * m..(t + 1) * m],
        };
        let next = first_visit(stage, [even, odd], &mut out[t * m..(t + 1) * m], steps);
        even = next[0];
        odd = next[1];
    }
}

/// Writes the rows before the stages of a window again.
#[inline(always)]
pub fn window_rows<L: Ledger, const BITS: usize>(
    word: Word,
    span: Span,
    row: [i32; 2],
    rows: &mut [[i32; 2]],
    out: &[i32],
    steps: &mut Steps<L>,
)
    requires word { IsSweepable word.order word.symbols word.counts.now word.l.now }
    requires inside { span.start + span.count ≤ word.symbols }
    requires rows { span.count ≤ length rows.old }
    requires out { length out.now ≡ length word.l.now }
    requires first { IsForwardRow (symbol_bits word.order) span.start word.counts.now word.l.now row }
    requires edges { AreEdgesKept (symbol_bits word.order) span.start (span.start + span.count)
        word.counts.now word.l.now out.now }
    requires room { steps.old + span.count ≤ 2 ^ 60 }
    ensures rows { AreForwardRows (symbol_bits word.entry.order) span.start span.count
        word.entry.counts.now word.entry.l.now rows.new }
    ensures cost { steps.new ≡ steps.old + span.count }
{
    let m = word.order.bits() as usize;
    let size = word.order.slots();
    let mut even = row[0];
    let mut odd = row[1];
    for i in 0..span.count {
        let t = span.start + i;
        rows[i] = [even, odd];
        let stage = Stage {
            counts: &word.counts[t * size..(t + 1) * size],
            l: &word.l[t * m..(t + 1) * m],
        };
        let next = next_visit(stage, [even, odd], &out[t * m..(t + 1) * m], steps);
        even = next[0];
        odd = next[1];
    }
}

/// The row after a stage, from the row before it. The stage's best edges are left in its places, where it has room for them.
#[inline(always)]
fn first_visit<L: Ledger>(
    stage: Stage,
    row: [i32; 2],
    places: &mut [i32],
    steps: &mut Steps<L>,
) -> [i32; 2]
    requires stage { IsStage stage.counts.now stage.l.now }
    requires row { IsRow 2 entry_most row }
    requires places { length places.old ≡ length stage.l.now }
    requires room { steps.old < 2 ^ 60 }
    ensures row { IsForwardStep (2 ^ length stage.entry.l.now)
        (stage_edge stage.entry.counts.now stage.entry.l.now) row result }
    ensures edges { KeepsEdges stage.entry.counts.now stage.entry.l.now places.new }
    ensures step { steps.new ≡ steps.old + 1 }
{
    if stage.l.len() < KEPT_FROM {
        return step_by_lists(stage, row, steps);
    }
    let best = best_edges(stage.counts, stage.l);
    places[..4].copy_from_slice(&best);
    step_by_best(stage, best, row, steps)
}

/// The same, by the best edges that the first visit left.
#[inline(always)]
fn next_visit<L: Ledger>(
    stage: Stage,
    row: [i32; 2],
    places: &[i32],
    steps: &mut Steps<L>,
) -> [i32; 2]
    requires stage { IsStage stage.counts.now stage.l.now }
    requires row { IsRow 2 entry_most row }
    requires places { length places.now ≡ length stage.l.now }
    requires edges { KeepsEdges stage.counts.now stage.l.now places.now }
    requires room { steps.old < 2 ^ 60 }
    ensures row { IsForwardStep (2 ^ length stage.entry.l.now)
        (stage_edge stage.entry.counts.now stage.entry.l.now) row result }
    ensures step { steps.new ≡ steps.old + 1 }
{
    if stage.l.len() < KEPT_FROM {
        return step_by_lists(stage, row, steps);
    }
    step_by_best(stage, kept_edges(places), row, steps)
}

/// The best edges that stand in a stage's places.
#[inline(always)]
pub fn kept_edges(places: &[i32]) -> [i32; 4]
    requires { 4 ≤ length places.now }
    ensures { (i : ℕ) → i < 4 → number_at result i ≡ number_at places.now i }
{
    [places[0], places[1], places[2], places[3]]
}

/// The same for a stage of few bits, by a list of the edges of each state.
#[inline(always)]
fn step_by_lists<L: Ledger>(stage: Stage, row: [i32; 2], steps: &mut Steps<L>) -> [i32; 2]
    requires stage { IsStage stage.counts.now stage.l.now }
    requires few { length stage.l.now ≤ 3 }
    requires row { IsRow 2 entry_most row }
    requires room { steps.old < 2 ^ 60 }
    ensures row { IsForwardStep (2 ^ length stage.entry.l.now)
        (stage_edge stage.entry.counts.now stage.entry.l.now) row result }
    ensures step { steps.new ≡ steps.old + 1 }
{
    let size = stage.counts.len();
    let mut from0 = [0; 8];
    let mut from1 = [0; 8];
    step_with(stage, row, &mut from0[..size], &mut from1[..size], steps)
}

/// The same, with memory for the lists.
#[inline(always)]
fn step_with<L: Ledger>(
    stage: Stage,
    row: [i32; 2],
    from0: &mut [i32],
    from1: &mut [i32],
    steps: &mut Steps<L>,
) -> [i32; 2]
    requires stage { IsStage stage.counts.now stage.l.now }
    requires row { IsRow 2 entry_most row }
    requires from0 { length from0.old ≡ 2 ^ length stage.l.now }
    requires from1 { length from1.old ≡ 2 ^ length stage.l.now }
    requires room { steps.old < 2 ^ 60 }
    ensures row { IsForwardStep (2 ^ length stage.entry.l.now)
        (stage_edge stage.entry.counts.now stage.entry.l.now) row result }
    ensures step { steps.new ≡ steps.old + 1 }
{
    edge_scores(stage.counts, stage.l, from0, from1);
    step_forward(row, from0, from1, steps)
}

//! The backward sweep over the trellis of the inner code, and the soft values where both sweeps meet.
//!
//! A backward row has for each state the greatest score of the ways from there to the end of the word, which may be
//! either state. The windows are taken from the last to the first: the rows of a window are made again from the row
//! that the forward sweep kept, and then each stage is met from its end. Between the two rows of a stage, the best edge
//! with an input bit of 1 less the best with a 0 gives the soft value of the bit.
ghost use Rattle.std.specs.Prelude.{◌≡◌, ◌+◌, ◌-◌, ◌*◌, ◌<◌, ◌≤◌, ◌^◌, length};
ghost use Rattle.hpe_base.specs.Parameters.{symbol_bits};
ghost use Rattle.hpe_lane.specs.Bounds.{IsRow, row_most};
ghost use Rattle.hpe_lane.specs.Stages.{AreStageSoft, IsBackStep, IsStage};
ghost use Rattle.hpe_lane.specs.Parts.{entry_most, stage_edge};
ghost use Rattle.hpe_lane.specs.Windows.{window, windows};
ghost use Rattle.hpe_inner.specs.Sweeps.{AreEdgesKept, AreForwardRows, AreKeptRows, AreSame, AreSoft, IsBackwardRow, IsSweepable, KeepsEdges};

use crate::forward::{KEPT_FROM, kept_edges, window_rows};
use crate::word::{Span, Word};
use hpe_base::Steps;
use hpe_lane::{Between, Stage, WINDOW, edge_scores, step_back, step_back_by_best};
use std::sync::ledger::Ledger;

/// Writes the soft values of a window, from its last stage to its first, by the rows before its stages and the row
/// after it, and gives the row before it.
fn window_back<L: Ledger, const BITS: usize>(
    word: Word,
    span: Span,
    rows: &[[i32; 2]],
    back: [i32; 2],
    out: &mut [i32],
    steps: &mut Steps<L>,
) -> [i32; 2]
    requires word { IsSweepable word.order word.symbols word.counts.now word.l.now }
    requires inside { span.start + span.count ≤ word.symbols }
    requires out { length out.old ≡ length word.l.now }
    requires rows_long { span.count ≤ length rows.now }
    requires rows { AreForwardRows (symbol_bits word.order) span.start span.count word.counts.now word.l.now rows.now }
    requires edges { AreEdgesKept (symbol_bits word.order) span.start (span.start + span.count)
        word.counts.now word.l.now out.old }
    requires later { IsBackwardRow (symbol_bits word.order) (span.start + span.count) word.symbols
        word.counts.now word.l.now back }
    requires room { steps.old + span.count ≤ 2 ^ 60 }
    ensures row { IsBackwardRow (symbol_bits word.entry.order) span.start word.entry.symbols
        word.entry.counts.now word.entry.l.now result }
    ensures soft { AreSoft word.entry.order span.start (span.start + span.count)
        word.entry.counts.now word.entry.l.now out.new }
    ensures others { AreSame (symbol_bits word.entry.order) (span.start + span.count) word.entry.symbols
        out.old out.new }
    ensures before { AreSame (symbol_bits word.entry.order) 0 span.start out.old out.new }
    ensures cost { steps.new ≡ steps.old + span.count }
{
    let m = word.order.bits() as usize;
    let size = word.order.slots();
    let mut joint = [0; 256];
    let mut even = back[0];
    let mut odd = back[1];
    for k in 0..span.count {
        let i = span.count - 1 - k;
        let t = span.start + i;
        let stage = Stage {
            counts: &word.counts[t * size..(t + 1) * size],
            l: &word.l[t * m..(t + 1) * m],
        };
        let between = Between {
            fore: rows[i],
            back: [even, odd],
        };
        let next = stage_back::<L, BITS>(
            stage,
            between,
            &mut joint[..size],
            &mut out[t * m..(t + 1) * m],
            steps,
        );
        even = next[0];
        odd = next[1];
    }
    [even, odd]
}

/// Writes the soft values, from the last window to the first, whose rows are made again from the row before it.
pub fn backward_sweep<L: Ledger, const BITS: usize>(
    word: Word,
    kept: &[[i32; 2]],
    rows: &mut [[i32; 2]],
    out: &mut [i32],
    steps: &mut Steps<L>,
)
    requires word { IsSweepable word.order word.symbols word.counts.now word.l.now }
    requires out { length out.old ≡ length word.l.now }
    requires kept_long { length kept.now ≡ windows word.symbols }
    requires kept { AreKeptRows (symbol_bits word.order) word.symbols word.counts.now word.l.now kept.now }
    requires edges { AreEdgesKept (symbol_bits word.order) 0 word.symbols word.counts.now word.l.now out.old }
    requires rows { length rows.old ≡ window }
    requires room { steps.old + 2 * word.symbols ≤ 2 ^ 60 }
    ensures soft { AreSoft word.entry.order 0 word.entry.symbols word.entry.counts.now word.entry.l.now out.new }
    ensures cost { steps.new ≡ steps.old + 2 * word.entry.symbols }
{
    let mut even = 0;
    let mut odd = 0;
    for k in 0..kept.len() {
        let w = kept.len() - 1 - k;
        let start = WINDOW * w;
        let count = WINDOW.min(word.symbols - start);
        let span = Span { start, count };
        window_rows::<L, BITS>(word, span, kept[w], rows, out, steps);
        let next = window_back::<L, BITS>(word, span, rows, [even, odd], out, steps);
        even = next[0];
        odd = next[1];
    }
}

/// The row before a stage, from the row after it, and the soft values of the stage's input bits, which take the place of its
/// best edges where these are kept. `joint` is memory for as many scores as there are symbols.
#[inline(always)]
fn stage_back<L: Ledger, const BITS: usize>(
    stage: Stage,
    between: Between,
    joint: &mut [i32],
    out: &mut [i32],
    steps: &mut Steps<L>,
) -> [i32; 2]
    requires stage { IsStage stage.counts.now stage.l.now }
    requires fore { IsRow 2 entry_most between.fore }
    requires back { IsRow 2 row_most between.back }
    requires joint { length joint.old ≡ 2 ^ length stage.l.now }
    requires out { length out.old ≡ length stage.l.now }
    requires edges { KeepsEdges stage.counts.now stage.l.now out.old }
    requires room { steps.old < 2 ^ 60 }
    ensures row { IsBackStep (2 ^ length stage.entry.l.now)
        (stage_edge stage.entry.counts.now stage.entry.l.now) between.back result }
    ensures soft { AreStageSoft (length stage.entry.l.now) (2 ^ length stage.entry.l.now)
        (stage_edge stage.entry.counts.now stage.entry.l.now) between.fore between.back out.new }
    ensures step { steps.new ≡ steps.old + 1 }
{
    if stage.l.len() < KEPT_FROM {
        return back_by_lists::<L, BITS>(stage, between, out, steps);
    }
    let best = kept_edges(out);
    step_back_by_best::<L, BITS>(stage, best, between, joint, out, steps)
}

/// The same for a stage of few bits, by a list of the edges of each state.
#[inline(always)]
fn back_by_lists<L: Ledger, const BITS: usize>(
    stage: Stage,
    between: Between,
    out: &mut [i32],
    steps: &mut Steps<L>,
) -> [i32; 2]
    requires stage { IsStage stage.counts.now stage.l.now }
    requires few { length stage.l.now ≤ 3 }
    requires fore { IsRow 2 entry_most between.fore }
    requires back { IsRow 2 row_most between.back }
    requires out { length out.old ≡ length stage.l.now }
    requires room { steps.old < 2 ^ 60 }
    ensures row { IsBackStep (2 ^ length stage.entry.l.now)
        (stage_edge stage.entry.counts.now stage.entry.l.now) between.back result }
    ensures soft { AreStageSoft (length stage.entry.l.now) (2 ^ length stage.entry.l.now)
        (stage_edge stage.entry.counts.now stage.entry.l.now) between.fore between.back out.new }
    ensures step { steps.new ≡ steps.old + 1 }
{
    let size = stage.counts.len();
    let mut from0 = [0; 8];
    let mut from1 = [0; 8];
    back_with::<L, BITS>(
        stage,
        between,
        &mut from0[..size],
        &mut from1[..size],
        out,
        steps,
    )
}

/// The same, with memory for the lists.
#[inline(always)]
fn back_with<L: Ledger, const BITS: usize>(
    stage: Stage,
    between: Between,
    from0: &mut [i32],
    from1: &mut [i32],
    out: &mut [i32],
    steps: &mut Steps<L>,
) -> [i32; 2]
    requires stage { IsStage stage.counts.now stage.l.now }
    requires fore { IsRow 2 entry_most between.fore }
    requires back { IsRow 2 row_most between.back }
    requires from0 { length from0.old ≡ 2 ^ length stage.l.now }
    requires from1 { length from1.old ≡ 2 ^ length stage.l.now }
    requires out { length out.old ≡ length stage.l.now }
    requires room { steps.old < 2 ^ 60 }
    ensures row { IsBackStep (2 ^ length stage.entry.l.now)
        (stage_edge stage.entry.counts.now stage.entry.l.now) between.back result }
    ensures soft { AreStageSoft (length stage.entry.l.now) (2 ^ length stage.entry.l.now)
        (stage_edge stage.entry.counts.now stage.entry.l.now) between.fore between.back out.new }
    ensures step { steps.new ≡ steps.old + 1 }
{
    edge_scores(stage.counts, stage.l, from0, from1);
    step_back::<L, BITS>(between.fore, from0, from1, between.back, out, steps)
}

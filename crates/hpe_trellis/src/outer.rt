//! The recursions over the trellis of the outer code, in windows.
//!
//! A state of the trellis is the last two inputs, and a stage is one step of the code: its input, 0 or 1, leads from
//! state 2a + b to state 2u + a, and its three outputs score the a-priori numbers of those that the puncturing column
//! of the step keeps. A path starts and ends in state 0.
//!
//! The forward recursion keeps only the row before each window of 64 steps. The backward one takes the windows from the
//! last to the first, makes the rows of a window again, and meets them: a third visit of each step, for a row in 64 of
//! the memory.
ghost use Rattle.std.specs.Prelude.{◌≡◌, ◌≢◌, ◌<◌, ◌≤◌, ◌+◌, ◌-◌, ◌*◌, ◌^◌, ℕ, List, length, IsSome};
ghost use Rattle.hpe_base.specs.Parameters.{clamp, codeword_bits};
ghost use Rattle.hpe_base.specs.Sizes.{number_at, AllWithin};
ghost use Rattle.hpe_base.specs.ConvolutionalCode.{code_bits, AreColumns};
ghost use Rattle.hpe_base.specs.GreatestScores.{information_top, code_top};
ghost use Rattle.hpe_base.specs.SoftValues.{information_soft_value, code_soft_value};
ghost use Rattle.hpe_lane.specs.Windows.{window, windows};
ghost use Rattle.hpe_trellis.specs.OuterTrellis.{outer_rows, kept_before, OuterFore, OuterBack, SoftFrom, AreForeRows, AreKeptRows, IsOuterWord, IsOuterTask};

use crate::puncturing::{place_before, put_soft, step_numbers};
use crate::word::{Span, Word};
use hpe_base::Steps;
use hpe_base::columns::{flags_set, place_after};
use hpe_code::kept_length;
use hpe_lane::{WINDOW, outer_back, outer_forward, sweep_rows};
use std::sync::ledger::Ledger;

/// What a path scores for a first or a last state other than 0, where no word is: too little to be of the best.
const NEVER: i32 = -500_000_000;

/// The row before the first step, and the one after the last.
pub const OUTSIDE: [i32; 4] = [0, NEVER, NEVER, NEVER];

/// The columns that the rates have as a rule, of which each has a copy of the recursions: 1/3 keeps all outputs.
const THIRD: [[bool; 3]; 1] = [[true; 3]];

/// Rate 1/2 keeps the first two outputs of each step.
const HALF: [[bool; 3]; 1] = [[true, true, false]];

/// Rate 2/3 keeps the first two outputs of a step and the second one of the next.
const TWO_THIRDS: [[bool; 3]; 2] = [[true, true, false], [false, true, false]];

/// How many rows [`outer_soft`] takes for so many steps, of which a codeword has at most 10,080: one before each window
/// of 64 steps, and those of one window.
pub fn outer_rows(steps: usize) -> usize
    requires { steps ≤ 10080 }
    ensures { result ≡ outer_rows steps }
{
    sweep_rows(steps)
}

/// Writes the rows before the steps of a window, of which there are `count`, and gives the row after the window.
fn window_rows<L: Ledger, const SHAPE: u32>(
    word: Word,
    start: usize,
    count: usize,
    row: [i32; 4],
    rows: &mut [[i32; 4]],
    steps: &mut Steps<L>,
) -> [i32; 4]
    requires word { IsOuterWord word.columns.now word.l.now }
    requires few { start + count ≤ 10080 }
    requires inside { kept_before word.columns.now (start + count) ≤ length word.l.now }
    requires rows { count ≤ length rows.old }
    requires first { OuterFore start word.columns.now word.l.now row }
    requires room { steps.old + count ≤ 2 ^ 60 }
    ensures rows { AreForeRows start count word.entry.columns.now word.entry.l.now rows.new }
    ensures next { OuterFore (start + count) word.entry.columns.now word.entry.l.now result }
    ensures cost { steps.new ≡ steps.old + count }
{
    let mut row = row;
    let mut place = start % word.columns.len();
    let mut at = kept_length(word.columns, start);
    for i in 0..count {
        rows[i] = row;
        let column = &word.columns[place];
        let numbers = step_numbers(column, word.l, at);
        let next = outer_forward(row, numbers, steps);
        row = next;
        place = place_after(place, word.columns.len());
        at += flags_set(column);
    }
    row
}

/// Writes the row before each window of n steps, with memory for the rows of one.
fn forward_rows<L: Ledger, const SHAPE: u32>(
    n: usize,
    word: Word,
    kept: &mut [[i32; 4]],
    rows: &mut [[i32; 4]],
    steps: &mut Steps<L>,
)
    requires few { n ≤ 10080 }
    requires word { IsOuterWord word.columns.now word.l.now }
    requires kept { length kept.old ≡ windows n }
    requires rows { length rows.old ≡ window }
    requires l { length word.l.now ≡ kept_before word.columns.now n }
    requires room { steps.old + n ≤ 2 ^ 60 }
    ensures kept { AreKeptRows n word.entry.columns.now word.entry.l.now kept.new }
    ensures cost { steps.new ≡ steps.old + n }
{
    let mut row = OUTSIDE;
    for w in 0..kept.len() {
        let start = WINDOW * w;
        let count = WINDOW.min(n - start);
        kept[w] = row;
        let next = window_rows::<L, SHAPE>(word, start, count, row, rows, steps);
        row = next;
    }
}

/// Writes the soft value of information bit `t`, where there is one.
fn put_information(info: &mut [i32], t: usize, value: i32)
    ensures here { t < length info.old → number_at info.new t ≡ value }
    ensures others { (j : ℕ) → j ≢ t → number_at info.new j ≡ number_at info.old j }
{
    if t < info.len() {
        info[t] = value;
    }
}

/// Writes the soft values of a window, from its last step to its first, by the rows before the steps, and gives the row
/// before the window.
fn window_values<L: Ledger, const SHAPE: u32>(
    word: Word,
    span: Span,
    back: [i32; 4],
    info: &mut [i32],
    code: &mut [i32],
    steps: &mut Steps<L>,
) -> [i32; 4]
    requires free { (2 ≤ length info.old) × (length info.old ≤ 10078) }
    requires word { IsOuterWord word.columns.now word.l.now }
    requires inside { span.start + span.count ≤ length info.old + 2 }
    requires long { span.count ≤ length span.rows.now }
    requires rows { AreForeRows span.start span.count word.columns.now word.l.now span.rows.now }
    requires later { OuterBack (span.start + span.count) (length info.old + 2 - (span.start + span.count))
        word.columns.now word.l.now back }
    requires l { length word.l.now ≡ kept_before word.columns.now (length info.old + 2) }
    requires code { length code.old ≡ length word.l.now }
    requires soft { SoftFrom word.columns.now word.l.now (length info.old) (span.start + span.count) info.old
        code.old }
    requires room { steps.old + span.count ≤ 2 ^ 60 }
    ensures row { OuterBack span.entry.start (length info.old + 2 - span.entry.start)
        word.entry.columns.now word.entry.l.now result }
    ensures soft { SoftFrom word.entry.columns.now word.entry.l.now (length info.old) span.entry.start info.new
        code.new }
    ensures cost { steps.new ≡ steps.old + span.entry.count }
{
    let end = span.start + span.count;
    let mut back = back;
    let mut place = end % word.columns.len();
    let mut at = kept_length(word.columns, end);
    for k in 0..span.count {
        let i = span.count - 1 - k;
        place = place_before(place, word.columns.len());
        let column = &word.columns[place];
        at -= flags_set(column);
        let numbers = step_numbers(column, word.l, at);
        let (before, soft) = outer_back(span.rows[i], numbers, back, steps);
        back = before;
        put_information(info, span.start + i, soft[0]);
        put_soft(column, soft, code, at);
    }
    back
}

/// Writes the soft values, from the last window to the first: the rows of a window are made again from the row before
/// it.
fn backward_values<L: Ledger, const SHAPE: u32>(
    word: Word,
    kept: &[[i32; 4]],
    rows: &mut [[i32; 4]],
    info: &mut [i32],
    code: &mut [i32],
    steps: &mut Steps<L>,
)
    requires free { (2 ≤ length info.old) × (length info.old ≤ 10078) }
    requires word { IsOuterWord word.columns.now word.l.now }
    requires kept_long { length kept.now ≡ windows (length info.old + 2) }
    requires kept { AreKeptRows (length info.old + 2) word.columns.now word.l.now kept.now }
    requires rows { length rows.old ≡ window }
    requires l { length word.l.now ≡ kept_before word.columns.now (length info.old + 2) }
    requires code { length code.old ≡ length word.l.now }
    requires room { steps.old + 2 * (length info.old + 2) ≤ 2 ^ 60 }
    ensures soft { SoftFrom word.entry.columns.now word.entry.l.now (length info.old) 0 info.new code.new }
    ensures cost { steps.new ≡ steps.old + 2 * (length info.old + 2) }
{
    let n = info.len() + 2;
    let mut back = OUTSIDE;
    for k in 0..kept.len() {
        let w = kept.len() - 1 - k;
        let start = WINDOW * w;
        let count = WINDOW.min(n - start);
        let _ = window_rows::<L, SHAPE>(word, start, count, kept[w], rows, steps);
        let span = Span { start, count, rows };
        let before = window_values::<L, SHAPE>(word, span, back, info, code, steps);
        back = before;
    }
}

/// The soft values of the information bits and of the code bits that are kept, from the a-priori numbers of the code
/// bits.
///
/// `columns` are the puncturing columns, and `l` holds a number for each code bit that they keep, at most 16,383 in
/// size.
/// `info` has a place for each information bit, which two termination bits follow, and `code` one for each code bit.
/// `rows` is memory for `outer_rows` of the steps, of which there are as many as information and termination bits.
pub fn outer_soft<L: Ledger>(
    columns: &[[bool; 3]],
    l: &[i32],
    rows: &mut [[i32; 4]],
    info: &mut [i32],
    code: &mut [i32],
    steps: &mut Steps<L>,
)
    requires columns { AreColumns columns.now }
    requires free { (2 ≤ length info.old) × (length info.old ≤ 10078) }
    requires l { (u : List ℕ) → length u ≡ length info.old + 2
        → length l.now ≡ length (code_bits columns.now u) }
    requires short { length l.now ≤ codeword_bits }
    requires code { length code.old ≡ length l.now }
    requires rows { length rows.old ≡ outer_rows (length info.old + 2) }
    requires within { AllWithin clamp l.now }
    requires room { steps.old + 3 * (length info.old + 2) ≤ 2 ^ 60 }
    ensures info { (j : ℕ) → j < length info.old
        → number_at info.new j ≡ information_soft_value columns.now l.now (length info.old) j }
    ensures code { (i : ℕ) → i < length l.now
        → number_at code.new i ≡ code_soft_value columns.now l.now (length info.old) i }
    ensures information_tops { (j b : ℕ) → j < length info.old → b < 2
        → IsSome (information_top columns.now l.now (length info.old) j b) }
    ensures code_tops { (i b : ℕ) → i < length l.now → b < 2
        → IsSome (code_top columns.now l.now (length info.old) i b) }
    ensures cost { steps.new ≡ steps.old + 3 * (length info.old + 2) }
{
    soft_values(Word { columns, l }, rows, info, code, steps);
}

/// The same, by the copy that the columns have.
fn soft_values<L: Ledger>(
    word: Word,
    rows: &mut [[i32; 4]],
    info: &mut [i32],
    code: &mut [i32],
    steps: &mut Steps<L>,
)
    requires task { IsOuterTask word.columns.now word.l.now (length info.old) (length code.old) (length rows.old) }
    requires room { steps.old + 3 * (length info.old + 2) ≤ 2 ^ 60 }
    ensures soft { SoftFrom word.entry.columns.now word.entry.l.now (length info.old) 0 info.new code.new }
    ensures cost { steps.new ≡ steps.old + 3 * (length info.old + 2) }
{
    let l = word.l;
    match word.columns {
        [[true, true, true]] => both_ways::<L, 1>(
            Word { columns: &THIRD, l },
            rows,
            info,
            code,
            steps,
        ),
        [[true, true, false]] => both_ways::<L, 2>(
            Word { columns: &HALF, l },
            rows,
            info,
            code,
            steps,
        ),
        [[true, true, false], [false, true, false]] => {
            both_ways::<L, 3>(
                Word {
                    columns: &TWO_THIRDS,
                    l,
                },
                rows,
                info,
                code,
                steps,
            )
        }
        _ => both_ways::<L, 0>(word, rows, info, code, steps),
    }
}

/// Both recursions, of which each shape of columns has a copy: the compiler then knows the columns.
fn both_ways<L: Ledger, const SHAPE: u32>(
    word: Word,
    rows: &mut [[i32; 4]],
    info: &mut [i32],
    code: &mut [i32],
    steps: &mut Steps<L>,
)
    requires task { IsOuterTask word.columns.now word.l.now (length info.old) (length code.old) (length rows.old) }
    requires room { steps.old + 3 * (length info.old + 2) ≤ 2 ^ 60 }
    ensures soft { SoftFrom word.entry.columns.now word.entry.l.now (length info.old) 0 info.new code.new }
    ensures cost { steps.new ≡ steps.old + 3 * (length info.old + 2) }
{
    let n = info.len() + 2;
    let (kept, window) = rows.split_at_mut(n.div_ceil(WINDOW));
    forward_rows::<L, SHAPE>(n, word, kept, window, steps);
    backward_values::<L, SHAPE>(word, kept, window, info, code, steps);
}

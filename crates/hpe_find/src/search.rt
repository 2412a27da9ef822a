//! The scores of the offsets, a row of them at a time.
//!
//! The sum over one sending of the marker is worked out once for each slot of the row and its overhang, and each score
//! adds the sums of its sendings. So the symbols of the marker are not added anew for each sending.
ghost use Rattle.std.specs.Prelude.{◌≡◌, ◌≤◌, ◌<◌, ◌+◌, ◌-◌, ◌*◌, ◌^◌, ℕ, length, slice_index, sum};
ghost use Rattle.hpe_base.specs.Lists.{tabulate};
ghost use Rattle.hpe_base.specs.Parameters.{sending_slots, period_slots};
ghost use Rattle.hpe_base.specs.MarkerSearch.{searched_periods, score};
ghost use Rattle.hpe_find.specs.Leading.{Leads};
ghost use Rattle.hpe_find.specs.Sending.{sending_sum};

use hpe_base::{Profile, geometry};

/// How many offsets are scored side by side.
const ROW: usize = 8_192;

/// The most slots from the first sending of a symbol to its last: 31 sendings of 320 slots.
const MOST_OVERHANG: usize = 31 * 320;

/// The most sums that score a row: one for each offset, and one for each slot of the overhang.
const SUMS: usize = ROW + MOST_OVERHANG;

/// The slots from the first sending of a symbol to its last.
fn overhang(p: &Profile) -> usize
    ensures value { result ≡ (p.now.repeat - 1) * sending_slots p.now.order }
    ensures most { result ≤ 9920 }
{
    (p.repeat() - 1) * p.order().sending_slots()
}

/// Adds to each sum the count that stands as far behind `place` as the sum in its row. A place past the end counts 0.
fn add_counts(counts: &[u16], place: usize, sums: &mut [u32])
    requires small { (k : ℕ) → k < length sums.old → slice_index sums.old k ≤ 2 ^ 31 }
    ensures { (k : ℕ) → k < length sums.old
        → slice_index sums.new k ≡ slice_index sums.old k + slice_index counts.now (place + k) }
{
    if place >= counts.len() {
        return;
    }
    let run = &counts[place..];
    let many = sums.len().min(run.len());
    for k in 0..many {
        sums[k] += u32::from(run[k]);
    }
}

/// Adds the counts at the pulses of one sending of the marker that begins at `start`.
fn add_sending(p: &Profile, counts: &[u16], start: usize, sums: &mut [u32])
    requires start { start ≤ 2 ^ 27 }
    requires small { (k : ℕ) → k < length sums.old → slice_index sums.old k ≤ 2 ^ 30 }
    ensures { (k : ℕ) → k < length sums.old
        → slice_index sums.new k ≡ slice_index sums.old k + sending_sum p.now counts.now (start + k) }
{
    let symbol_slots = p.symbol_slots();
    let marker = p.marker();
    for r in 0..marker.len() {
        add_counts(counts, start + r * symbol_slots + marker[r] as usize, sums);
    }
}

/// Adds to each score the sum that stands as far behind `place` as the score in its row. A place past the end counts 0.
fn add_sums(sums: &[u32], place: usize, scores: &mut [u32])
    requires small { (k : ℕ) → k < length scores.old → slice_index scores.old k ≤ 2 ^ 31 }
    requires terms { (k : ℕ) → k < length sums.now → slice_index sums.now k ≤ 2 ^ 22 }
    ensures { (k : ℕ) → k < length scores.old
        → slice_index scores.new k ≡ slice_index scores.old k + slice_index sums.now (place + k) }
{
    if place >= sums.len() {
        return;
    }
    let run = &sums[place..];
    let many = scores.len().min(run.len());
    for k in 0..many {
        scores[k] += run[k];
    }
}

/// Adds to each score the sums of all sendings, which stand `stride` apart, from the score's own place on.
fn add_repeats(sums: &[u32], repeat: usize, stride: usize, scores: &mut [u32])
    requires repeat { repeat ≤ 32 }
    requires stride { stride ≤ 320 }
    requires small { (k : ℕ) → k < length scores.old → slice_index scores.old k ≤ 2 ^ 30 }
    requires terms { (k : ℕ) → k < length sums.now → slice_index sums.now k ≤ 2 ^ 22 }
    ensures { (k : ℕ) → k < length scores.old
        → slice_index scores.new k
        ≡ slice_index scores.old k + sum (tabulate repeat (λ i. slice_index sums.now (i * stride + k))) }
{
    for i in 0..repeat {
        add_sums(sums, i * stride, scores);
    }
}

/// The scores of a row of offsets. `sums` is room for the sums of the row and of the overhang.
fn score_row(
    p: &Profile,
    counts: &[u16],
    periods: usize,
    from: usize,
    sums: &mut [u32],
    scores: &mut [u32],
)
    requires periods { periods ≡ searched_periods p.now counts.now }
    requires from { from < period_slots p.now }
    requires room { length scores.old + (p.now.repeat - 1) * sending_slots p.now.order ≤ length sums.old }
    ensures { (k : ℕ) → k < length scores.old → slice_index scores.new k ≡ score p.now counts.now (from + k) }
{
    let period = geometry(p).period;
    let repeat = p.repeat();
    let stride = p.order().sending_slots();
    scores.fill(0);
    for j in 0..periods {
        sums.fill(0);
        add_sending(p, counts, from + j * period, sums);
        add_repeats(sums, repeat, stride, scores);
    }
}

/// An offset and its score.
#[derive(Clone, Copy)]
pub struct Best {
    pub offset: usize,
    pub score: u32,
}

/// The better of the best offset so far and those of a row of scores.
fn best_of(scores: &[u32], from: usize, mut best: Best) -> Best
    requires from { from + length scores.now < 2 ^ 32 }
    ensures leads { (f : ℕ → ℕ) → ((k : ℕ) → k < length scores.now → slice_index scores.now k ≡ f (from + k))
        → Leads f from best.offset best.score → Leads f (from + length scores.now) result.offset result.score }
{
    for k in 0..scores.len() {
        if scores[k] > best.score {
            best = Best {
                offset: from + k,
                score: scores[k],
            };
        }
    }
    best
}

/// Room for the scores of a row.
fn blank_scores() -> [u32; ROW]
    ensures { length result ≡ 8192 }
{
    [0; ROW]
}

/// Room for the sums that score a row.
fn blank_sums() -> [u32; SUMS]
    ensures { length result ≡ 18112 }
{
    [0; SUMS]
}

/// The least offset below a period that has the greatest score.
pub fn best_offset(p: &Profile, counts: &[u16]) -> Best
    ensures { Leads (score p.now counts.now) (period_slots p.now) result.offset result.score }
{
    let period = geometry(p).period;
    let periods = p.search().min(counts.len() / period);
    let overhang = overhang(p);
    let mut best = Best {
        offset: 0,
        score: 0,
    };
    let mut sums = blank_sums();
    let mut scores = blank_scores();
    let mut from = 0;
    while from < period {
        let many = ROW.min(period - from);
        let row = &mut scores[..many];
        score_row(p, counts, periods, from, &mut sums[..many + overhang], row);
        best = best_of(row, from, best);
        from += many;
    }
    best
}
